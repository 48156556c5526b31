//! What a scanner reads in runs, before it looks at single bytes.

use crate::mode::{Bracket, Mode, Part, Place, Role};
use crate::runs::{number_end, plain_end, spaces_end};
use crate::scanner::Scanner;
use std::alloc::AllocError;

impl Scanner {
    ghost use Rattle.std.specs.Prelude.{◌≡◌, ◌≢◌, ◌<◌, OnOk, None, get_or, vec_len};
    ghost use Rattle.json_text.specs.declared.mode.Role.TheVariants as role_;
    ghost use Rattle.json_text.specs.declared.mode.Mode.TheVariants as mode_;
    ghost use Rattle.json_text.specs.declared.mode.Place.TheVariants as place_;
    ghost use Rattle.json_text.specs.Scanner.{is_number};
    ghost use Rattle.json_text.specs.Machine.{byte_move, Reads};
    ghost use Rattle.json_text.specs.Taking.{MaySpace, MayQuote, opens_of, kept_of};
    ghost use Rattle.json_text.specs.Told.{Leaves, ReadsOn};

    /// Reads the white space that comes.
    fn spaces(&mut self)
        requires place { MaySpace self.old.machine.mode }
        ensures value { ReadsOn self.old self.new }
        ensures machine { self.new.machine ≡ self.old.machine }
    {
        self.read = spaces_end(&self.input, self.read);
    }

    /// Reads the plain bytes that come in a text.
    fn plain(&mut self, role: Role) -> Result<(), AllocError>
        requires place { self.old.machine.mode ≡ mode_.Text role (place_.Chars None) }
        ensures value { OnOk result (ReadsOn self.old self.new) }
        ensures kept { Leaves self.old self.new }
    {
        let end = plain_end(&self.input, self.read);
        self.machine
            .content
            .extend_from_slice(&self.input[self.read..end])?;
        self.read = end;
        Ok(())
    }

    /// Reads on in a number.
    fn number(&mut self, part: Part) -> Result<(), AllocError>
        requires place { self.old.machine.mode ≡ mode_.Number part }
        ensures value { OnOk result (ReadsOn self.old self.new) }
        ensures kept { Leaves self.old self.new }
    {
        let (end, last) = number_end(&self.input, self.read, part);
        self.machine
            .content
            .extend_from_slice(&self.input[self.read..end])?;
        self.machine.mode = Mode::Number(last);
        self.read = end;
        Ok(())
    }

    /// Reads the quotation mark that comes, and the plain bytes behind it.
    fn quote(&mut self, role: Role) -> Result<(), AllocError>
        requires place { MayQuote role self.old.machine.mode (opens_of self.old.machine) }
        requires left { self.old.read < vec_len self.old.input }
        requires next { get_or self.old.input.items self.old.read 0 ≡ 34 }
        ensures value { OnOk result (ReadsOn self.old self.new) }
        ensures kept { Leaves self.old self.new }
    {
        let from = self.read + 1;
        let end = plain_end(&self.input, from);
        self.machine.content.clear();
        self.machine
            .content
            .extend_from_slice(&self.input[from..end])?;
        self.machine.mode = Mode::Text(role, Place::Chars(None));
        self.read = end;
        Ok(())
    }

    /// Reads a number from its first byte on, if one comes.
    fn digits(&mut self) -> Result<(), AllocError>
        requires place { MayQuote role_.Value self.old.machine.mode (opens_of self.old.machine) }
        ensures value { OnOk result (ReadsOn self.old self.new) }
        ensures kept { Leaves self.old self.new }
    {
        let (end, last) = number_end(&self.input, self.read, Part::Nothing);
        if end == self.read {
            return Ok(());
        }
        self.machine.content.clear();
        self.machine
            .content
            .extend_from_slice(&self.input[self.read..end])?;
        self.machine.mode = Mode::Number(last);
        self.read = end;
        Ok(())
    }

    /// Reads the byte that comes, and goes to a place.
    fn pass(&mut self, mode: Mode)
        requires left { self.old.read < vec_len self.old.input }
        requires place { byte_move self.old.machine.mode (kept_of self.old.machine)
            (get_or self.old.input.items self.old.read 0) ≡ Reads mode (kept_of self.old.machine) }
        requires plain { is_number mode ≡ 0 }
        ensures value { ReadsOn self.old self.new }
        ensures mode { self.new.machine.mode ≡ mode }
        ensures opens { self.new.machine.opens ≡ self.old.machine.opens }
    {
        self.machine.mode = mode;
        self.read += 1;
    }

    /// The byte that comes, or nothing where none is left.
    fn comes(&self) -> u8
        ensures value { result ≡ get_or self.now.input.items self.now.read 0 }
        ensures left { result ≢ 0 → self.now.read < vec_len self.now.input }
    {
        if self.read < self.input.len() {
            self.input[self.read]
        } else {
            0
        }
    }

    /// Reads on where a value or a name may begin.
    fn begin(&mut self, role: Role) -> Result<(), AllocError>
        requires place { MayQuote role self.old.machine.mode (opens_of self.old.machine) }
        requires space { MaySpace self.old.machine.mode }
        ensures value { OnOk result (ReadsOn self.old self.new) }
        ensures kept { Leaves self.old self.new }
    {
        self.spaces();
        if self.comes() == 34 {
            return self.quote(role);
        }
        match role {
            Role::Value => self.digits(),
            Role::Name => Ok(()),
        }
    }

    /// Reads on behind a bracket that opened.
    fn first(&mut self) -> Result<(), AllocError>
        requires place { self.old.machine.mode ≡ mode_.First }
        ensures value { OnOk result (ReadsOn self.old self.new) }
        ensures kept { Leaves self.old self.new }
    {
        match self.machine.top() {
            Some(Bracket::Square) => self.begin(Role::Value),
            Some(Bracket::Curly) => self.begin(Role::Name),
            None => Ok(()),
        }
    }

    /// Reads on behind a value.
    fn after(&mut self) -> Result<(), AllocError>
        requires place { self.old.machine.mode ≡ mode_.After }
        ensures value { OnOk result (ReadsOn self.old self.new) }
        ensures kept { Leaves self.old self.new }
    {
        self.spaces();
        if self.comes() != 44 {
            return Ok(());
        }
        match self.machine.top() {
            Some(Bracket::Square) => {
                self.pass(Mode::Value);
                self.begin(Role::Value)
            }
            Some(Bracket::Curly) => {
                self.pass(Mode::Name);
                self.begin(Role::Name)
            }
            None => Ok(()),
        }
    }

    /// Reads on behind the name of a member.
    fn colon(&mut self) -> Result<(), AllocError>
        requires place { self.old.machine.mode ≡ mode_.Colon }
        ensures value { OnOk result (ReadsOn self.old self.new) }
        ensures kept { Leaves self.old self.new }
    {
        self.spaces();
        if self.comes() != 58 {
            return Ok(());
        }
        self.pass(Mode::Value);
        self.begin(Role::Value)
    }

    /// Reads on as far as no step is given, but for escapes and other characters of several bytes.
    pub(crate) fn advance(&mut self) -> Result<(), AllocError>
        ensures value { OnOk result (ReadsOn self.old self.new) }
        ensures kept { Leaves self.old self.new }
    {
        match self.machine.mode {
            Mode::Text(role, Place::Chars(None)) => self.plain(role),
            Mode::Number(part) => self.number(part),
            Mode::Value => self.begin(Role::Value),
            Mode::Name => self.begin(Role::Name),
            Mode::First => self.first(),
            Mode::After => self.after(),
            Mode::Colon => self.colon(),
            Mode::Text(_, _) | Mode::Word(_) => Ok(()),
        }
    }
}
