//! Binding a profile to a map.

ghost use Rattle.std.specs.Prelude.{◌≡◌, ◌⊎◌, MatchResult, Some};
ghost use Rattle.context_check.specs.Checked.{Subject};
ghost use Rattle.profile_code.specs.Scratch.{HoldsGlobals};
ghost use Rattle.way_class.specs.Facts.{Binding};
ghost use Rattle.way_class.specs.Outcome.{IsBoundTo};
ghost use Rattle.way_class.specs.Parts.{HasTags, Suits};
ghost use Rattle.way_class.specs.Refusals.{first_refusal};
ghost use Rattle.way_class.specs.Stages.{EndsLinked, IsUnderWay, MayEnd};
ghost use Rattle.way_class.specs.declared.error.BindError.TheVariants.{NoMemory};

use crate::binder::Binder;
use crate::bound::Bound;
use crate::error::BindError;
use fixed_num::Num;
use hgt_tiles::Tiles;
use item_list::Turn;
use lookup_table::Table;
use overpass_graph::Map;
use profile_code::{Code, Scratch, run_global};
use std::alloc::Global;
use tasks::Stepped;

/// How much one step spends at most.
const BUDGET: u32 = 1048576;

/// The facts of all links of a map by a profile, of which this is the code and this the table, and
/// by the heights of these tiles; or the first refusal. Each distinct vector of tag numbers is
/// evaluated once a direction, or once plain and once granted.
pub fn bind(
    alloc: Global,
    code: &Code,
    table: &Table,
    map: &Map,
    tiles: &Tiles,
) -> Result<Bound, BindError>
    requires fits { HasTags code.now table.now }
    ensures exact { (subject : Subject) → Suits code.now table.now subject →
        let binding : Binding = record { subject = subject; map = map.now; tiles = tiles.now } in
        MatchResult result (IsBoundTo binding)
        (λ e. (e ≡ NoMemory) ⊎ (first_refusal subject map.now ≡ Some e)) }
{
    let mut scratch = Scratch::new(alloc, code)?;
    match run_global(code, &mut scratch) {
        Ok(globals) => linked(alloc, code, table, map, tiles, globals, scratch),
        Err(fault) => Err(BindError::Global {
            variable: fault.variable,
            kind: fault.kind,
        }),
    }
}

/// The same after the global section, with its values.
fn linked(
    alloc: Global,
    code: &Code,
    table: &Table,
    map: &Map,
    tiles: &Tiles,
    globals: [Num; 7],
    scratch: Scratch,
) -> Result<Bound, BindError>
    requires held { HoldsGlobals code.now scratch }
    requires fits { HasTags code.now table.now }
    ensures exact { (subject : Subject) → Suits code.now table.now subject →
        let binding : Binding = record { subject = subject; map = map.now; tiles = tiles.now } in
        EndsLinked binding globals result }
{
    let binder = Binder::new(alloc, code, map, globals, scratch)?;
    finished(alloc, code, table, map, tiles, binder)
}

/// What binding comes to, after all its steps.
fn finished(
    alloc: Global,
    code: &Code,
    table: &Table,
    map: &Map,
    tiles: &Tiles,
    binder: Binder,
) -> Result<Bound, BindError>
    requires over { IsUnderWay code.now table.now map.now tiles.now binder }
    ensures ends { MayEnd code.now table.now map.now tiles.now binder result }
{
    let mut binder = binder;
    'steps: loop {
        let Stepped { spent: _, turn } = binder.step(alloc, code, table, map, tiles, BUDGET);
        match turn {
            Turn::Done(end) => return end,
            Turn::More(next) => binder = next,
        }
    }
}
