//! What texts come to.

ghost use Rattle.std.specs.Prelude.{◌≡◌, ◌⊎◌, ◌<◌, ◌^◌, [], length, Ok, IfErr, IfOk, IfSome};
ghost use Rattle.case_inputs.specs.Inputs.{IsCodeIn};
ghost use Rattle.lookup_table.specs.Table as table;
ghost use Rattle.map_tables.specs.declared.error.MapError.TheVariants.{NoMemory};
ghost use Rattle.overpass_graph.specs.Builder.{IsFaultOfBeginning, IsFaultOfText, IsMapOfText};
ghost use Rattle.profile_text.specs.Expr.{sections_in};
ghost use Rattle.profile_text.specs.Read as read;
ghost use Rattle.way_class.specs.Parts.{HasTags};

use context_check::{Overrides, check};
use lookup_table::Table;
use overpass_graph::{Map, MapBuilder, MapError};
use profile_code::{Code, compile};
use profile_text::Profile;
use std::alloc::Global;

/// The tag table of a text; none where it is refused.
pub fn table_of(alloc: Global, text: &[u8]) -> Option<Table>
    ensures only { IfSome result (λ rows. table.table_of text.now ≡ Ok rows) }
{
    if text.len() >= 1 << 32 {
        return None;
    }
    Table::read(alloc, text).ok()
}

/// The profile of a text; none where it is refused.
pub fn profile_of(alloc: Global, text: &[u8]) -> Option<Profile>
    ensures only { IfSome result (λ profile. read.profile_of text.now ≡ Ok (sections_in profile)) }
{
    if text.len() >= 1 << 31 {
        return None;
    }
    Profile::read(alloc, text).ok()
}

/// The code of a profile's text under a table; none where it is refused.
pub fn code_of(alloc: Global, table: &Table, text: &[u8]) -> Option<Code>
    ensures only { IfSome result (IsCodeIn table.now text.now []) }
    ensures fits { IfSome result (λ code. HasTags code table.now) }
{
    code_with(alloc, table, text, &Overrides::new(alloc))
}

/// The code of a profile's text under a table and overrides; none where it is refused.
pub fn code_with(alloc: Global, table: &Table, text: &[u8], overrides: &Overrides) -> Option<Code>
    ensures only { IfSome result (IsCodeIn table.now text.now overrides.now) }
    ensures fits { IfSome result (λ code. HasTags code table.now) }
{
    let profile = profile_of(alloc, text)?;
    let Ok(checked) = check(alloc, &profile, table, overrides) else {
        return None;
    };
    match compile(alloc, &checked) {
        Ok(code) => Some(code),
        Err(_) => None,
    }
}

/// The map of a text, or its first fault; of a text of 2^60 bytes and more nothing is read.
pub fn map_of(alloc: Global, text: &[u8]) -> Result<Map, MapError>
    ensures found { length text.now < 2 ^ 60 → IfOk result (IsMapOfText text.now) }
    ensures cause { length text.now < 2 ^ 60 → IfErr result (λ e.
        e ≡ NoMemory ⊎ (IsFaultOfBeginning text.now e ⊎ IsFaultOfText text.now e)) }
{
    let mut builder = MapBuilder::new(alloc);
    if text.len() >= 1 << 60 {
        return builder.finish();
    }
    match builder.feed(text) {
        Ok(()) => builder.finish(),
        Err(fault) => Err(fault),
    }
}
