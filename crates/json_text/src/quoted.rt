//! How a symbol between quotation marks changes what a scanner keeps.

use crate::bytes::{escape_of, fits_tail, is_hex, lead_of, mode_behind, place_after};
use crate::content::{push_lone, push_unit, unit_of, waits};
use crate::given::text_step;
use crate::machine::Machine;
use crate::mode::{Escape, Lead, Mode, Place, Role, Tail, Taken};
use std::alloc::AllocError;
use std::mem;

impl Machine {
    ghost use Rattle.std.specs.Prelude.{◌≡◌, [], ◌++◌, cond, IfOk, OnErr, Option, None};
    ghost use Rattle.json_text.specs.declared.mode.Mode.TheVariants as mode_;
    ghost use Rattle.json_text.specs.declared.mode.Lead.TheVariants as lead_;
    ghost use Rattle.json_text.specs.Bytes as bytes_;
    ghost use Rattle.json_text.specs.Chars as chars;
    ghost use Rattle.json_text.specs.Machine as machine;
    ghost use Rattle.json_text.specs.declared.mode.Place.TheVariants as place_;
    ghost use Rattle.json_text.specs.Machine.{Reads, Stuck};
    ghost use Rattle.json_text.specs.Rest.{holding};
    ghost use Rattle.json_text.specs.Taking.{kept_of, Takes};

    /// Ends a text between quotation marks.
    pub fn unquote(&mut self, role: Role, waiting: Option<u16>) -> Result<Taken, AllocError>
        ensures exact { IfOk result (Takes self.old self.new
            (machine.lead_move role waiting lead_.Quote (kept_of self.old) 34)) }
        ensures kept { OnErr result (self.new.text.items ≡ self.old.text.items) }
    {
        push_lone(&mut self.content, waiting)?;
        mem::swap(&mut self.content, &mut self.text);
        self.content.clear();
        self.mode = mode_behind(role);
        Ok(Taken::Given(text_step(role)))
    }

    /// Reads a byte of a text, and goes to a place there.
    fn byte(
        &mut self,
        role: Role,
        waiting: Option<u16>,
        place: Place,
        b: u8,
    ) -> Result<Taken, AllocError>
        ensures exact { IfOk result (Takes self.old self.new
            (Reads (mode_.Text role place) (machine.with_byte (kept_of self.old) waiting b))) }
        ensures kept { OnErr result (self.new.text.items ≡ self.old.text.items) }
    {
        push_lone(&mut self.content, waiting)?;
        self.content.push(b)?;
        self.mode = Mode::Text(role, place);
        Ok(Taken::Read)
    }

    /// Where a character may begin.
    fn lead(&mut self, role: Role, waiting: Option<u16>, b: u8) -> Result<Taken, AllocError>
        ensures exact { IfOk result (Takes self.old self.new
            (machine.lead_move role waiting (bytes_.lead_of b) (kept_of self.old) b)) }
        ensures kept { OnErr result (self.new.text.items ≡ self.old.text.items) }
    {
        match lead_of(b) {
            Lead::Quote => self.unquote(role, waiting),
            Lead::Backslash => {
                self.mode = Mode::Text(role, Place::Escape(waiting));
                Ok(Taken::Read)
            }
            Lead::Whole => self.byte(role, waiting, Place::Chars(None), b),
            Lead::Longer(tail) => self.byte(role, waiting, Place::Tail(tail), b),
            Lead::Nothing => Ok(Taken::Stuck),
        }
    }

    /// Behind a backslash.
    fn escape(&mut self, role: Role, waiting: Option<u16>, b: u8) -> Result<Taken, AllocError>
        ensures exact { IfOk result (Takes self.old self.new
            (machine.escape_move role waiting (bytes_.escape_of b) (kept_of self.old))) }
        ensures kept { OnErr result (self.new.text.items ≡ self.old.text.items) }
    {
        match escape_of(b) {
            Escape::Short(byte) => self.byte(role, waiting, Place::Chars(None), byte),
            Escape::Coded => {
                self.mode = Mode::Text(role, Place::Hex1(waiting));
                Ok(Taken::Read)
            }
            Escape::Nothing => Ok(Taken::Stuck),
        }
    }

    /// Behind three digits of a code unit.
    fn last_hex(&mut self, role: Role, waiting: Option<u16>, unit: u16) -> Result<Taken, AllocError>
        ensures exact { IfOk result (Takes self.old self.new
            (Reads (mode_.Text role (place_.Chars (chars.waits unit))) (holding (kept_of self.old)
            (self.old.content.items ++ chars.unit_bytes waiting unit)))) }
        ensures kept { OnErr result (self.new.text.items ≡ self.old.text.items) }
    {
        push_unit(&mut self.content, waiting, unit)?;
        self.mode = Mode::Text(role, Place::Chars(waits(unit)));
        Ok(Taken::Read)
    }

    /// At a digit of a code unit.
    fn hex(&mut self, role: Role, place: Place, b: u8) -> Result<Taken, AllocError>
        ensures exact { IfOk result (Takes self.old self.new
            (cond (bytes_.is_hex b) (Reads (mode_.Text role place) (kept_of self.old)) Stuck)) }
        ensures kept { OnErr result (self.new.text.items ≡ self.old.text.items) }
    {
        if !is_hex(b) {
            return Ok(Taken::Stuck);
        }
        self.mode = Mode::Text(role, place);
        Ok(Taken::Read)
    }

    /// Inside a character of several bytes.
    fn tail(&mut self, role: Role, tail: Tail, b: u8) -> Result<Taken, AllocError>
        ensures exact { IfOk result (Takes self.old self.new
            (machine.text_move role (place_.Tail tail) (kept_of self.old) b)) }
        ensures kept { OnErr result (self.new.text.items ≡ self.old.text.items) }
    {
        if !fits_tail(tail, b) {
            return Ok(Taken::Stuck);
        }
        self.content.push(b)?;
        self.mode = Mode::Text(role, place_after(tail));
        Ok(Taken::Read)
    }

    /// Between quotation marks.
    pub fn place(&mut self, role: Role, place: Place, b: u8) -> Result<Taken, AllocError>
        ensures exact { IfOk result (Takes self.old self.new
            (machine.text_move role place (kept_of self.old) b)) }
        ensures kept { OnErr result (self.new.text.items ≡ self.old.text.items) }
    {
        match place {
            Place::Chars(w) => self.lead(role, w, b),
            Place::Escape(w) => self.escape(role, w, b),
            Place::Hex1(w) => self.hex(role, Place::Hex2(w, b), b),
            Place::Hex2(w, x) => self.hex(role, Place::Hex3(w, x, b), b),
            Place::Hex3(w, x, y) => self.hex(role, Place::Hex4(w, x, y, b), b),
            Place::Hex4(w, x, y, z) => {
                if is_hex(b) {
                    self.last_hex(role, w, unit_of(x, y, z, b))
                } else {
                    Ok(Taken::Stuck)
                }
            }
            Place::Tail(tail) => self.tail(role, tail, b),
        }
    }
}
