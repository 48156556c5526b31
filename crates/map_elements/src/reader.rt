//! The reader of a map's text, which comes in pieces.

ghost use Rattle.std.specs.Prelude.{◌≡◌, false};
ghost use Rattle.json_text.specs.Scanner.{has_ended};

use crate::reading::Reading;
use map_tables::{Limits, MapError, Tables};
use std::alloc::Global;

/// A reader of a map's text, as Overpass gives it, into tables of its elements. The text is fed in
/// pieces of any size, of which no copy is kept.
pub struct DraftReader {
    reading: Reading,
    refused: Option<MapError>,
    ghost open_still: { has_ended reading.scanner ≡ false },
}

impl Drop for DraftReader {
    fn drop(self) {
        let DraftReader {
            reading: _,
            refused: _,
        } = self;
    }
}

impl DraftReader {
    ghost use Rattle.std.specs.Prelude.{◌+◌, ◌<◌, ◌≤◌, ◌^◌, ◌++◌, ℕ, true, List, [], length, None, Some, Ok, Err, IfErr, OnOk, MatchResult};
    ghost use Rattle.map_tables.specs.Draft.{Draft};
    ghost use Rattle.map_tables.specs.declared.limits.Limits.{Limits as Limited};
    ghost use Rattle.map_tables.specs.declared.error.MapError.{MapError as Fault};
    ghost use Rattle.map_elements.specs.Outcome.{ComesTo};
    ghost use Rattle.map_elements.specs.Reader.{IsRead, IsRefusal, StandsFor, StandsWith, fed, refusal};

    /// A reader of a text of which nothing has come, for maps within these limits.
    pub fn new(alloc: Global, limits: Limits) -> DraftReader
        ensures value { StandsFor limits result [] }
        ensures fed { fed result ≡ 0 }
        ensures works { refusal result ≡ None }
    {
        DraftReader {
            reading: Reading::new(alloc, limits),
            refused: None,
        }
    }

    /// Scans a piece and reads its steps.
    fn read_piece(&mut self, piece: &[u8]) -> Result<(), MapError>
        requires few { fed self.old + length piece.now < 2 ^ 63 }
        ensures value { (limits : Limited) (bytes : List ℕ) →
            StandsWith limits self.old.reading bytes false →
            MatchResult result (λ _. IsRead limits self.new.reading (bytes ++ piece.now) false)
            (λ e. IsRefusal limits (bytes ++ piece.now) false e) }
        ensures fed { OnOk result (fed self.new ≡ fed self.old + length piece.now) }
        ensures fits { fed self.new ≤ fed self.old + length piece.now }
        ensures kept { refusal self.new ≡ refusal self.old }
    {
        match self.reading.scanner.feed(piece) {
            Ok(()) => {}
            Err(_) => return Err(MapError::NoMemory),
        }
        self.reading.read_on()
    }

    /// Takes the next piece of the text, of which fewer than 2^63 bytes may come in all. The first
    /// fault of the text is answered in the call whose bytes fix it, and again by every later call;
    /// so is want of memory.
    pub fn feed(&mut self, piece: &[u8]) -> Result<(), MapError>
        requires few { fed self.old + length piece.now < 2 ^ 63 }
        ensures value { (limits : Limited) (bytes : List ℕ) → StandsFor limits self.old bytes →
            OnOk result (StandsFor limits self.new (bytes ++ piece.now)) }
        ensures found { (limits : Limited) (bytes : List ℕ) → StandsFor limits self.old bytes →
            OnOk result ((draft : Draft) × ComesTo limits (bytes ++ piece.now) false (Ok draft)) }
        ensures exact { (limits : Limited) (bytes : List ℕ) → StandsFor limits self.old bytes →
            IfErr result (λ e. IsRefusal limits (bytes ++ piece.now) false e) }
        ensures fed { OnOk result (fed self.new ≡ fed self.old + length piece.now) }
        ensures fits { fed self.new ≤ fed self.old + length piece.now }
        ensures again { (e : Fault) → refusal self.old ≡ Some e → result ≡ Err e }
        ensures stays { IfErr result (λ e. refusal self.new ≡ Some e) }
        ensures works { OnOk result (refusal self.new ≡ None) }
    {
        if let Some(e) = self.refused {
            return Err(e);
        }
        match self.read_piece(piece) {
            Ok(()) => Ok(()),
            Err(e) => {
                self.refused = Some(e);
                Err(e)
            }
        }
    }

    /// The tables of the text, which ends here, or its first fault.
    pub fn finish(self) -> Result<Tables, MapError>
        ensures exact { (limits : Limited) (bytes : List ℕ) → StandsFor limits self bytes →
            MatchResult result (λ tables. (tables.limits ≡ limits) ×
            ComesTo limits bytes true (Ok tables.draft))
            (λ e. IsRefusal limits bytes true e) }
        ensures again { (e : Fault) → refusal self ≡ Some e → result ≡ Err e }
    {
        let DraftReader {
            mut reading,
            refused,
        } = self;
        if let Some(e) = refused {
            return Err(e);
        }
        reading.scanner.end();
        match reading.read_on() {
            Ok(()) => reading.into_tables(),
            Err(e) => Err(e),
        }
    }
}
