//! The classes of a map's ways.

ghost use Rattle.std.specs.Prelude.{◌≡◌, ◌⊎◌, ◌<◌, ◌≤◌, ◌+◌, length, IfOk, OnOk, MatchResult, Some};
ghost use Rattle.context_check.specs.Checked.{Subject};
ghost use Rattle.item_list.specs.Answer.{answer_map};
ghost use Rattle.map_tables.specs.Kept.{Extends};
ghost use Rattle.overpass_graph.specs.Maps.{MapValue, way_at};
ghost use Rattle.profile_code.specs.Correct.{IsCodeOf};
ghost use Rattle.profile_code.specs.Flat.{tags_of};
ghost use Rattle.profile_code.specs.Scratch.{HoldsGlobals};
ghost use Rattle.way_class.specs.Answers.{way_answer};
ghost use Rattle.way_class.specs.Bound.{AreWaysBound};
ghost use Rattle.way_class.specs.Classes.{IsNumberOf, Keeps};
ghost use Rattle.way_class.specs.Parts.{HasTags, IsKeyClass, IsWayClass, Suits, fields_of, key_refusal};
ghost use Rattle.way_class.specs.Refusals.{first_below, way_error, way_refusal};
ghost use Rattle.way_class.specs.Sides.{sided};
ghost use Rattle.way_class.specs.Spending.{AddsOne, Advances};
ghost use Rattle.way_class.specs.Stages.{ways_at};
ghost use Rattle.way_class.specs.declared.error.BindError.TheVariants.{NoMemory};

use crate::classes::Classes;
use crate::error::BindError;
use crate::pace::left_after;
use crate::side::{WayClass, WaySide};
use crate::sides::{WayFault, way_side};
use lookup_table::{Part, Table, set_first};
use overpass_graph::Map;
use profile_code::{Code, Scratch};
use std::alloc::Global;

/// The classes of ways, and the number of the class of each way.
#[derive(Drop)]
pub(crate) struct Ways {
    pub(crate) kept: Classes<WayClass>,
    pub(crate) numbers: Vec<u32>,
}

/// The classes of the next ways of a map, as many as a budget allows, or the first refusal. It gives
/// what is left of the budget.
pub(crate) fn more_ways(
    alloc: Global,
    code: &Code,
    table: &Table,
    map: &Map,
    ways: &mut Ways,
    scratch: &mut Scratch,
    weight: u32,
    budget: u32,
) -> Result<u32, BindError>
    requires held { HoldsGlobals code.now scratch.old }
    requires fits { HasTags code.now table.now }
    requires within { length ways.old.numbers.items ≤ length map.now.ways }

    ensures exact { (subject : Subject) → Suits code.now table.now subject →
        AreWaysBound subject map.now (length ways.old.numbers.items) ways.old →
        MatchResult result
        (λ _. AreWaysBound subject map.now (length ways.new.numbers.items) ways.new)
        (λ e. (e ≡ NoMemory) ⊎ (first_below (way_refusal subject map.now) (length map.now.ways) ≡
        Some e)) }
    ensures advances { let most = length map.now.ways in
        IfOk result (λ left. Advances weight budget left most (ways_at weight most ways.old)
        (ways_at weight most ways.new)) }
    ensures whole { IfOk result
        (λ left. 0 < left → length ways.new.numbers.items ≡ length map.now.ways) }
    ensures same { OnOk result
        (length ways.old.numbers.items ≡ length map.now.ways → ways.new ≡ ways.old) }
    ensures kept { HoldsGlobals code.now scratch.new }
{
    let count = map.ways();
    let first = ways.numbers.len() as u32;
    let mut left = budget;
    'ways: for way in first..count {
        if left == 0 {
            return Ok(0);
        }
        let before = ways.kept.items.len();
        if let Err(e) = add_way(alloc, code, table, map, way, ways, scratch) {
            return Err(e);
        }
        left = left_after(left, weight, before, ways.kept.items.len());
    }
    Ok(left)
}

/// No ways.
pub(crate) fn no_ways(alloc: Global) -> Ways
    ensures none { length result.numbers.items ≡ 0 }
    ensures empty { (subject : Subject) (map : MapValue) → AreWaysBound subject map 0 result }
{
    Ways {
        kept: Classes::new(alloc),
        numbers: Vec::new(alloc),
    }
}

/// Adds the class of the next way.
fn add_way(
    alloc: Global,
    code: &Code,
    table: &Table,
    map: &Map,
    way: u32,
    ways: &mut Ways,
    scratch: &mut Scratch,
) -> Result<(), BindError>
    requires held { HoldsGlobals code.now scratch.old }
    requires fits { HasTags code.now table.now }
    requires in_range { way < length map.now.ways }
    ensures exact { (subject : Subject) → Suits code.now table.now subject →
        AreWaysBound subject map.now way ways.old →
        MatchResult result (λ _. AreWaysBound subject map.now (way + 1) ways.new)
        (λ e. (e ≡ NoMemory) ⊎ (way_refusal subject map.now way ≡ Some e)) }
    ensures counts { OnOk result
        (length ways.new.numbers.items ≡ length ways.old.numbers.items + 1) }
    ensures adds { OnOk result
        (AddsOne (length ways.old.kept.items.items) (length ways.new.kept.items.items)) }
    ensures kept { HoldsGlobals code.now scratch.new }
{
    let number = way_number(alloc, code, table, map, way, &mut ways.kept, scratch)?;
    ways.numbers.push(number)?;
    Ok(())
}

/// The number of the class of a way.
fn way_number(
    alloc: Global,
    code: &Code,
    table: &Table,
    map: &Map,
    way: u32,
    kept: &mut Classes<WayClass>,
    scratch: &mut Scratch,
) -> Result<u32, BindError>
    requires held { HoldsGlobals code.now scratch.old }
    requires fits { HasTags code.now table.now }
    requires in_range { way < length map.now.ways }
    ensures exact { (subject : Subject) → Suits code.now table.now subject →
        Keeps (IsKeyClass subject) kept.old →
        MatchResult result
        (IsNumberOf (IsWayClass subject (way_at map.now.ways way).tags) kept.new.items.items)
        (λ e. (e ≡ NoMemory) ⊎ (way_refusal subject map.now way ≡ Some e)) }
    ensures keeps { (subject : Subject) → IsCodeOf subject code.now →
        Keeps (IsKeyClass subject) kept.old →
        OnOk result (Keeps (IsKeyClass subject) kept.new) }
    ensures grows { OnOk result (Extends kept.old.items.items kept.new.items.items) }
    ensures adds { OnOk result (AddsOne (length kept.old.items.items) (length kept.new.items.items)) }
    ensures held { HoldsGlobals code.now scratch.new }
{
    let mut key = table.encode(alloc, Part::Way, map.way_tags(way))?;
    set_first(&mut key, 0);
    class_number(alloc, code, key, map.way_id(way), kept, scratch)
}

/// The number of the class of tag numbers, which are evaluated where they come for the first time.
fn class_number(
    alloc: Global,
    code: &Code,
    key: Vec<u16>,
    id: i64,
    kept: &mut Classes<WayClass>,
    scratch: &mut Scratch,
) -> Result<u32, BindError>
    requires held { HoldsGlobals code.now scratch.old }
    requires fits { length key.items ≡ tags_of code.now Part.Way }
    ensures exact { (subject : Subject) → IsCodeOf subject code.now →
        Keeps (IsKeyClass subject) kept.old →
        MatchResult result (IsNumberOf (IsKeyClass subject key.items) kept.new.items.items)
        (λ e. (e ≡ NoMemory) ⊎ (key_refusal subject id key.items ≡ Some e)) }
    ensures keeps { (subject : Subject) → IsCodeOf subject code.now →
        Keeps (IsKeyClass subject) kept.old →
        OnOk result (Keeps (IsKeyClass subject) kept.new) }
    ensures grows { OnOk result (Extends kept.old.items.items kept.new.items.items) }
    ensures adds { OnOk result (AddsOne (length kept.old.items.items) (length kept.new.items.items)) }
    ensures held { HoldsGlobals code.now scratch.new }
{
    if let Some(number) = kept.find(&key) {
        return Ok(number);
    }
    let class = evaluated(alloc, code, key.as_slice(), id, scratch)?;
    let number = kept.add(key, class)?;
    Ok(number)
}

/// What tag numbers come to forward and backward.
fn evaluated(
    alloc: Global,
    code: &Code,
    key: &[u16],
    id: i64,
    scratch: &mut Scratch,
) -> Result<WayClass, BindError>
    requires held { HoldsGlobals code.now scratch.old }
    requires fits { length key.now ≡ tags_of code.now Part.Way }
    ensures exact { (subject : Subject) → IsCodeOf subject code.now →
        MatchResult result (IsKeyClass subject key.now)
        (λ e. (e ≡ NoMemory) ⊎ (key_refusal subject id key.now ≡ Some e)) }
    ensures kept { HoldsGlobals code.now scratch.new }
{
    let forward = directed(code, key, id, false, scratch)?;
    let mut turned = Vec::from_slice(alloc, key)?;
    set_first(&mut turned, 2);
    match directed(code, turned.as_slice(), id, true, scratch) {
        Ok(backward) => Ok(WayClass { forward, backward }),
        Err(e) => Err(e),
    }
}

/// What a way of this id comes to in one direction.
fn directed(
    code: &Code,
    numbers: &[u16],
    id: i64,
    back: bool,
    scratch: &mut Scratch,
) -> Result<WaySide, BindError>
    requires held { HoldsGlobals code.now scratch.old }
    requires fits { length numbers.now ≡ tags_of code.now Part.Way }
    ensures exact { (subject : Subject) → IsCodeOf subject code.now →
        answer_map fields_of (λ e. e) result
        ≡ answer_map (λ s. s) (way_error id back) (sided (way_answer subject numbers.now)) }
    ensures kept { HoldsGlobals code.now scratch.new }
{
    match way_side(code, numbers, scratch) {
        Ok(side) => Ok(side),
        Err(fault) => Err(told(id, back, fault)),
    }
}

/// The refusal of a way of this id.
fn told(id: i64, back: bool, fault: WayFault) -> BindError
    ensures exact { result ≡ way_error id back fault }
{
    match fault {
        WayFault::Faulted(fault) => BindError::Way {
            id,
            back,
            variable: fault.variable,
            kind: fault.kind,
        },
        WayFault::Negative(which) => BindError::NegativeWay { id, back, which },
    }
}
