//! A token that has to be what is expected.
ghost use Rattle.std.specs.Prelude.{◌≡◌, Err, MatchResult};
ghost use Rattle.profile_text.specs.Read.{read, taken};
ghost use Rattle.profile_text.specs.Source.{token_of};

use crate::error::TextError;
use crate::expected::{Expected, fault_of};
use crate::kind::kind_of;
use crate::source::{Reader, Token};

/// Goes past the next token, which has to be what is expected.
#[tactic(auto, unfolding(crate::specs::Read::taken))]
pub(crate) fn taken<'a>(reader: &mut Reader<'a>, expected: Expected) -> Result<Token<'a>, TextError>
    ensures exact { let first = taken expected reader.old in
        MatchResult result (λ t. first ≡ read (token_of t) reader.new) (λ e. first ≡ Err e) }
{
    let token = reader.required()?;
    match fault_of(expected, kind_of(token.bytes)) {
        None => Ok(token),
        Some(kind) => Err(TextError::At {
            line: token.line,
            kind,
        }),
    }
}
