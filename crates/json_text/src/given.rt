//! The steps that moves give.

ghost use Rattle.std.specs.Prelude.{◌≡◌, ℕ, List};
ghost use Rattle.json_text.specs.Marks.{Step};
ghost use Rattle.json_text.specs.Chars as chars;
ghost use Rattle.json_text.specs.Rest.{word_of};
ghost use Rattle.json_text.specs.Steps.{step_for, KeepsBeside};

use crate::mode::{Bracket, Letters, Role};
use crate::step::JsonStep;

/// The step of a bracket that opens.
pub fn open_step(bracket: Bracket) -> JsonStep
    ensures value { (text : List ℕ) → step_for result text ≡ Step.Opens bracket }
    ensures kept { (text : List ℕ) → KeepsBeside result text text }
{
    match bracket {
        Bracket::Square => JsonStep::ListOpen,
        Bracket::Curly => JsonStep::Open,
    }
}

/// The step of a bracket that closes.
pub fn close_step(bracket: Bracket) -> JsonStep
    ensures value { (text : List ℕ) → step_for result text ≡ Step.Closes bracket }
    ensures kept { (text : List ℕ) → KeepsBeside result text text }
{
    match bracket {
        Bracket::Square => JsonStep::ListClose,
        Bracket::Curly => JsonStep::Close,
    }
}

/// The step of a text.
pub fn text_step(role: Role) -> JsonStep
    ensures value { (text : List ℕ) → step_for result text ≡ chars.text_step role text }
    ensures kept { (old new : List ℕ) → KeepsBeside result old new }
{
    match role {
        Role::Name => JsonStep::Key,
        Role::Value => JsonStep::Text,
    }
}

/// The step of a word.
pub fn word_step(letters: Letters) -> JsonStep
    ensures value { (text : List ℕ) → step_for result text ≡ Step.Word (word_of letters) }
    ensures kept { (text : List ℕ) → KeepsBeside result text text }
{
    match letters {
        Letters::T | Letters::Tr | Letters::Tru => JsonStep::True,
        Letters::F | Letters::Fa | Letters::Fal | Letters::Fals => JsonStep::False,
        Letters::N | Letters::Nu | Letters::Nul => JsonStep::Null,
    }
}
