//! Why a text is no profile.
ghost use Rattle.std.specs.Prelude.{◌≡◌};
ghost use Rattle.profile_text.specs.declared.error.TextError.TheVariants.{NoMemory};

use std::alloc::{AllocError, AllocFailed, Global};

/// Why a token can't stand where it is.
#[derive(Clone, Copy)]
pub enum TextKind {
    /// The text ends inside an assignment.
    End,
    /// None of the others.
    Token,
    /// A `)` where an expression or an assignment is expected, or another token where `)` is.
    Bracket,
    /// A token that begins with `---` and opens no section, or an assignment before any section.
    Section,
    /// A token that must be a number and isn't one, or is too large.
    Number,
    /// An expression at depth 1,001.
    Deep,
}

/// Why a text is no profile.
#[derive(Drop)]
pub enum TextError {
    /// The first token that can't stand where it is, by its line from 1; at the text's end, the
    /// last token.
    At { line: u32, kind: TextKind },
    /// Memory ran out.
    NoMemory,
}

impl From<AllocError> for TextError {
    ghost from_gives = { λ _ e. e ≡ NoMemory };

    fn from(_error: AllocError) -> TextError {
        TextError::NoMemory
    }
}

impl<T: Drop> From<AllocFailed<T>> for TextError {
    ghost from_gives = { λ _ e. e ≡ NoMemory };

    fn from(_error: AllocFailed<T>) -> TextError {
        TextError::NoMemory
    }
}

impl TextKind {
    ghost use Rattle.profile_text.specs.Lines.{kind_word};

    /// The word for it.
    fn word(self) -> &'static str
        ensures value { result.now ≡ kind_word self }
    {
        match self {
            TextKind::End => "end",
            TextKind::Token => "token",
            TextKind::Bracket => "bracket",
            TextKind::Section => "section",
            TextKind::Number => "number",
            TextKind::Deep => "deep",
        }
    }
}

impl TextError {
    ghost use Rattle.std.specs.Prelude.{IfOk};
    ghost use Rattle.std.specs.String.{string_bytes};
    ghost use Rattle.profile_text.specs.Lines.{text_line};

    /// The line that is printed of it, without an end of line.
    pub fn line(&self, alloc: Global) -> Result<String, AllocError>
        ensures value { IfOk result (λ s. string_bytes s ≡ text_line self.now) }
    {
        match self {
            TextError::At { line, kind } => {
                let word = kind.word();
                format!(in alloc; "profile line {line}: {word}")
            }
            TextError::NoMemory => String::from_str(alloc, "out of memory"),
        }
    }
}
