//! Reading an assignment, or the line that opens a section.
ghost use Rattle.std.specs.Prelude.{◌≡◌, ◌⊎◌, ◌<◌, ◌≤◌, length, IfOk, IfErr, MatchResult, Ok, OnOk, Some};
ghost use Rattle.item_list.specs.Answer.{Answers};
ghost use Rattle.profile_text.specs.declared.error.TextError.TheVariants.{NoMemory};
ghost use Rattle.profile_text.specs.Expr.{assignment_in, sections_in, tree_of};
ghost use Rattle.profile_text.specs.Part.{Stand, TakesPart, RefusesPart, joined};
ghost use Rattle.profile_text.specs.Read.{assignment_of, front_fault, most_depth, no_sections, past_equals, put_first};
ghost use Rattle.profile_text.specs.Source.{Reads, token_of};
ghost use Rattle.profile_text.specs.Tree.{Assignment};

use crate::error::{TextError, TextKind};
use crate::expected::Expected;
use crate::expr::Expr;
use crate::kind::{Kind, Section, has_dashes, kind_of};
use crate::look::copied;
use crate::profile::{Assign, Profile};
use crate::read_expr::read_expr;
use crate::source::{Reader, Token};
use crate::take::taken;
use std::alloc::Global;

/// How deep an expression may be.
const MOST_DEPTH: u32 = 1000;

/// Takes in what a token begins where an assignment or a section may stand, and gives the section
/// that is then open.
pub(crate) fn read_part(
    alloc: Global,
    profile: &mut Profile,
    current: Option<Section>,
    token: Token,
    reader: &mut Reader,
) -> Result<Section, TextError>
    ensures exact { let sections = sections_in profile.old in
        let old : Stand = record { sections = sections; current = current; place = reader.old } in
        MatchResult result
        (λ s. TakesPart old (token_of token.entry)
        (record { sections = sections_in profile.new; current = Some s; place = reader.new }))
        (λ e. (e ≡ NoMemory) ⊎ RefusesPart old (token_of token.entry) e) }
    ensures more { IfOk result (λ _. length reader.new.tokens ≤ length reader.old.tokens) }
{
    match kind_of(token.bytes) {
        Kind::Opens(section) => Ok(section),
        Kind::Assign => match current {
            None => Err(TextError::At {
                line: token.line,
                kind: TextKind::Section,
            }),
            Some(section) => {
                let assign = read_assignment(alloc, reader)?;
                push(profile, section, assign)
            }
        },
        kind => Err(TextError::At {
            line: token.line,
            kind: front_fault(has_dashes(token.bytes), kind),
        }),
    }
}

/// Puts an assignment at the end of a section, and gives the section.
fn push(profile: &mut Profile, section: Section, assign: Assign) -> Result<Section, TextError>
    ensures value { let one = put_first section (assignment_in assign) no_sections in
        OnOk result (sections_in profile.new ≡ joined (sections_in profile.old) one) }
    ensures given { IfOk result (λ s. s ≡ section) }
    ensures refused { IfErr result (λ e. e ≡ NoMemory) }
{
    let pushed = match section {
        Section::Global => profile.global.push(assign),
        Section::Way => profile.way.push(assign),
        Section::Node => profile.node.push(assign),
    };
    match pushed {
        Ok(()) => Ok(section),
        Err(_) => Err(TextError::NoMemory),
    }
}

/// Why a token of this kind can't stand where an assignment or a section may.
fn front_fault(dashes: bool, kind: Kind) -> TextKind
    ensures value { result ≡ front_fault dashes kind }
{
    match kind {
        Kind::Close => TextKind::Bracket,
        _ if dashes => TextKind::Section,
        Kind::BadNumber => TextKind::Number,
        _ => TextKind::Token,
    }
}

/// The assignment after the word `assign`.
#[tactic(auto, unfolding(crate::specs::Read::assignment_of, crate::specs::Read::most_depth))]
fn read_assignment(alloc: Global, reader: &mut Reader) -> Result<Assign, TextError>
    ensures exact { Reads assignment_in (assignment_of reader.old) reader.new result }
{
    let token = taken(reader, Expected::Variable)?;
    past_equals(reader);
    let value = read_expr(alloc, MOST_DEPTH, reader)?;
    assign_of(alloc, token, value)
}

/// The assignment of a value to the name that a token is.
fn assign_of(alloc: Global, token: Token, value: Expr) -> Result<Assign, TextError>
    ensures exact { let t = token_of token.entry in
        let assignment : Assignment =
        record { name = t.text; line = t.line; value = tree_of value } in
        Answers assignment_in (Ok assignment) NoMemory result }
{
    let name = copied(alloc, token.bytes)?;
    Ok(Assign {
        name,
        line: token.line,
        value,
    })
}

/// Goes past the `=` that may stand at a place.
fn past_equals(reader: &mut Reader)
    ensures value { reader.new ≡ past_equals reader.old.last reader.old.tokens }
{
    if let Some(found) = reader.next() {
        let (token, after) = found;
        if let Kind::Equals = kind_of(token.bytes) {
            *reader = after;
        }
    }
}
