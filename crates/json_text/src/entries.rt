//! How a symbol that begins or ends a value or an entry changes what a scanner keeps.

use crate::bytes::{closing, entry_mode, start_of};
use crate::given::{close_step, open_step};
use crate::machine::Machine;
use crate::mode::{Bracket, Mode, Part, Place, Role, Start, Taken};
use std::alloc::AllocError;

impl Machine {
    ghost use Rattle.std.specs.Prelude.{◌≡◌, ◌∷◌, [], ◌==◌, suc, IfOk, OnErr, Option, Some, None};
    ghost use Rattle.json_text.specs.declared.mode.Mode.TheVariants as mode_;
    ghost use Rattle.json_text.specs.Machine as machine;
    ghost use Rattle.json_text.specs.declared.mode.Place.TheVariants as place_;
    ghost use Rattle.json_text.specs.Marks.{Step};
    ghost use Rattle.json_text.specs.Machine.{start_move, open_move, Reads, Gives, Stuck};
    ghost use Rattle.json_text.specs.Rest.{holding, keeping};
    ghost use Rattle.json_text.specs.Taking.{room_of, opens_of, top_of, rest_of, kept_of, Takes};

    /// Opens a bracket where there is room.
    fn open(&mut self, bracket: Bracket) -> Result<Taken, AllocError>
        ensures exact { IfOk result (Takes self.old self.new
            (open_move bracket (room_of self.old) (opens_of self.old) self.old.content.items)) }
        ensures kept { OnErr result (self.new.text.items ≡ self.old.text.items) }
    {
        if self.opens.len() >= 64 {
            return Ok(Taken::Stuck);
        }
        self.opens.push(bracket)?;
        self.mode = Mode::First;
        Ok(Taken::Given(open_step(bracket)))
    }

    /// Begins a text between quotation marks.
    fn quote(&mut self, role: Role) -> Result<Taken, AllocError>
        ensures exact { IfOk result (Takes self.old self.new
            (Reads (mode_.Text role (place_.Chars None)) (holding (kept_of self.old) []))) }
        ensures kept { OnErr result (self.new.text.items ≡ self.old.text.items) }
    {
        self.content.clear();
        self.mode = Mode::Text(role, Place::Chars(None));
        Ok(Taken::Read)
    }

    /// Begins a number.
    fn digit(&mut self, part: Part, b: u8) -> Result<Taken, AllocError>
        ensures exact { IfOk result (Takes self.old self.new
            (Reads (mode_.Number part) (holding (kept_of self.old) (b ∷ [])))) }
        ensures kept { OnErr result (self.new.text.items ≡ self.old.text.items) }
    {
        self.content.clear();
        self.content.push(b)?;
        self.mode = Mode::Number(part);
        Ok(Taken::Read)
    }

    /// Begins a value.
    pub fn start(&mut self, b: u8) -> Result<Taken, AllocError>
        ensures exact { IfOk result (Takes self.old self.new
            (start_move (machine.start_of b) (kept_of self.old) b)) }
        ensures kept { OnErr result (self.new.text.items ≡ self.old.text.items) }
    {
        match start_of(b) {
            Start::Quote => self.quote(Role::Value),
            Start::Open(bracket) => self.open(bracket),
            Start::Word(letters) => {
                self.mode = Mode::Word(letters);
                Ok(Taken::Read)
            }
            Start::Number(part) => self.digit(part, b),
            Start::Nothing => Ok(Taken::Stuck),
        }
    }

    /// Begins the name of a member.
    pub fn name(&mut self, b: u8) -> Result<Taken, AllocError>
        ensures exact { IfOk result (Takes self.old self.new
            (machine.name_move (kept_of self.old) b)) }
        ensures kept { OnErr result (self.new.text.items ≡ self.old.text.items) }
    {
        if b == 34 {
            self.quote(Role::Name)
        } else {
            Ok(Taken::Stuck)
        }
    }

    /// The innermost bracket that is open.
    pub fn top(&self) -> Option<Bracket>
        ensures value { result ≡ top_of (opens_of self.now) }
    {
        let n = self.opens.len();
        if n == 0 {
            None
        } else {
            Some(self.opens[n - 1])
        }
    }

    /// Closes the innermost bracket.
    fn close(&mut self, bracket: Bracket) -> Result<Taken, AllocError>
        requires open { top_of (opens_of self.old) ≡ Some bracket }
        ensures exact { IfOk result (Takes self.old self.new
            (Gives (Step.Closes bracket) mode_.After (keeping (suc (room_of self.old))
            (rest_of (opens_of self.old)) self.old.content.items))) }
        ensures kept { OnErr result (self.new.text.items ≡ self.old.text.items) }
    {
        let _ = self.opens.pop();
        self.mode = Mode::After;
        Ok(Taken::Given(close_step(bracket)))
    }

    /// Begins an entry.
    fn entry(&mut self, bracket: Bracket, b: u8) -> Result<Taken, AllocError>
        ensures exact { IfOk result (Takes self.old self.new
            (machine.entry_move bracket (kept_of self.old) b)) }
        ensures kept { OnErr result (self.new.text.items ≡ self.old.text.items) }
    {
        match bracket {
            Bracket::Square => self.start(b),
            Bracket::Curly => self.name(b),
        }
    }

    /// Behind a bracket that opened.
    pub fn first(&mut self, b: u8) -> Result<Taken, AllocError>
        ensures exact { IfOk result (Takes self.old self.new
            (machine.first_move (room_of self.old) (opens_of self.old) self.old.content.items b)) }
        ensures kept { OnErr result (self.new.text.items ≡ self.old.text.items) }
    {
        match self.top() {
            Some(bracket) => {
                if b == closing(bracket) {
                    self.close(bracket)
                } else {
                    self.entry(bracket, b)
                }
            }
            None => self.start(b),
        }
    }

    /// Behind a value.
    pub fn after(&mut self, b: u8) -> Result<Taken, AllocError>
        ensures exact { IfOk result (Takes self.old self.new
            (machine.after_move (room_of self.old) (opens_of self.old) self.old.content.items b)) }
        ensures kept { OnErr result (self.new.text.items ≡ self.old.text.items) }
    {
        match self.top() {
            Some(bracket) => {
                if b == closing(bracket) {
                    self.close(bracket)
                } else if b == 44 {
                    self.mode = entry_mode(bracket);
                    Ok(Taken::Read)
                } else {
                    Ok(Taken::Stuck)
                }
            }
            None => Ok(Taken::Stuck),
        }
    }
}
