//! The builder of a map, to which its text is fed in pieces.

ghost use Rattle.std.specs.Prelude.{◌≡◌, ◌⊎◌, ◌+◌, ◌<◌, ◌≤◌, ◌^◌, ◌++◌, ℕ, List, [], length, None, Some, Err, IfErr, OnOk, MatchResult};
ghost use Rattle.map_tables.specs.declared.error.MapError.{MapError as Fault};
ghost use Rattle.map_tables.specs.declared.error.MapError.TheVariants.{NoMemory};
ghost use Rattle.overpass_graph.specs.Builder.{IsFaultOfBeginning, IsFaultOfText, IsMapOfText, MayBecomeMap, StandsForText, fed, refusal};

use crate::making::map_of;
use crate::map::Map;
use map_elements::DraftReader;
use map_tables::{Limits, MapError};
use std::alloc::Global;

/// How much a map may hold.
const MOST: Limits = Limits {
    nodes: 8_000_000,
    ways: 8_000_000,
    segments: 8_000_000,
    members: 8_000_000,
};

/// A builder of a map from its text, as Overpass gives it in JSON. The text is fed in pieces of any
/// size, of which no copy is kept.
pub struct MapBuilder {
    alloc: Global,
    reader: DraftReader,
}

impl Drop for MapBuilder {
    fn drop(self) {
        let MapBuilder {
            alloc: _,
            reader: _,
        } = self;
    }
}

impl MapBuilder {
    /// A builder of a map of whose text nothing has come.
    pub fn new(alloc: Global) -> MapBuilder
        ensures value { StandsForText result [] }
        ensures fed { fed result ≡ 0 }
        ensures works { refusal result ≡ None }
    {
        MapBuilder {
            alloc,
            reader: DraftReader::new(alloc, MOST),
        }
    }

    /// Takes the next piece of the text, of which fewer than 2^63 bytes may come in all. The first
    /// fault of the text is answered in the call whose bytes fix it, and again by every later call;
    /// so is want of memory.
    pub fn feed(&mut self, piece: &[u8]) -> Result<(), MapError>
        requires few { fed self.old + length piece.now < 2 ^ 63 }
        ensures value { (bytes : List ℕ) → StandsForText self.old bytes →
            OnOk result (StandsForText self.new (bytes ++ piece.now)) }
        ensures found { (bytes : List ℕ) → StandsForText self.old bytes →
            OnOk result (MayBecomeMap (bytes ++ piece.now)) }
        ensures exact { (bytes : List ℕ) → StandsForText self.old bytes →
            IfErr result (λ e. (e ≡ NoMemory) ⊎ IsFaultOfBeginning (bytes ++ piece.now) e) }
        ensures fed { OnOk result (fed self.new ≡ fed self.old + length piece.now) }
        ensures fits { fed self.new ≤ fed self.old + length piece.now }
        ensures again { (e : Fault) → refusal self.old ≡ Some e → result ≡ Err e }
        ensures stays { IfErr result (λ e. refusal self.new ≡ Some e) }
        ensures works { OnOk result (refusal self.new ≡ None) }
    {
        self.reader.feed(piece)
    }

    /// The map of the text, which ends here, or its first fault. A node that a way lacks is told
    /// after all other faults.
    pub fn finish(self) -> Result<Map, MapError>
        ensures exact { (bytes : List ℕ) → StandsForText self bytes →
            MatchResult result (λ map. IsMapOfText bytes map) (λ e. (e ≡ NoMemory) ⊎
            IsFaultOfText bytes e) }
        ensures again { (e : Fault) → refusal self ≡ Some e → result ≡ Err e }
    {
        let MapBuilder { alloc, reader } = self;
        match reader.finish() {
            Ok(tables) => map_of(alloc, tables),
            Err(e) => Err(e),
        }
    }
}
