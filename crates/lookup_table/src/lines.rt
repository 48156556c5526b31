//! The lines of a table, one after the other.
ghost use Rattle.std.specs.Prelude.{◌≡◌, ◌<◌, ◌≤◌, ◌^◌, ◌∷◌, length};
ghost use Rattle.item_list.specs.Answer.{Answers};
ghost use Rattle.lookup_table.specs.declared.error.LookupError.TheVariants.{NoMemory};
ghost use Rattle.lookup_table.specs.Draft.{empty_draft, lines_after, take_lines};
ghost use Rattle.lookup_table.specs.Line.{lines_of};

use crate::draft::Draft;
use crate::error::LookupError;
use item_list::len_before;
use std::alloc::Global;

/// What all lines of a text say.
pub(crate) fn draft_of(alloc: Global, text: &[u8]) -> Result<Draft, LookupError>
    requires fits { length text.now < 2 ^ 32 }
    ensures exact { let lines = take_lines 1 (lines_of text.now) empty_draft in
        Answers (λ d. d) lines NoMemory result }
{
    let mut draft = Draft::new(alloc);
    let mut rest = text;
    let mut number = 1u32;
    'lines: loop {
        let (line, after) = first_line(rest);
        draft.take(alloc, number, line)?;
        if after.len() <= 1 {
            return Ok(draft);
        }
        let (_, next) = after.split_at(1);
        rest = next;
        number += 1;
    }
}

/// The line at the front, and what follows it from its end on.
fn first_line(text: &[u8]) -> (&[u8], &[u8])
    ensures value { lines_of text.now ≡ result.0.now ∷ lines_after result.1.now }
    ensures fits { length result.1.now ≤ length text.now }
{
    text.split_at(len_before(text, b'\n'))
}
