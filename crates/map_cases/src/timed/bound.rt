//! The profile for trekking, bound to a map as often as a word says, or once for searches between
//! so many pairs of its nodes.

ghost use Rattle.way_class.specs.Parts.{HasTags};

use crate::timed::ground::Ground;
use crate::timed::plan::{Plan, Task, plan_of};
use crate::timed::tiles::tiles_at;
use crate::timed::words::small_at;
use case_inputs::{LOOK, TREK, code_with, table_of};
use context_check::Overrides;
use cost_model::{FactsOf, Rates};
use fixed_num::Num;
use hgt_tiles::Tiles;
use item_list::Items;
use lookup_table::Table;
use overpass_graph::Map;
use profile_code::Code;
use std::alloc::{AllocError, Global};
use std::io;
use way_class::{Bound, bind};

/// How many links a bound profile permits by their factor.
fn open_links(bound: &Bound) -> u64 {
    let mut count = 0u64;
    'links: for link in 0..bound.count() {
        if bound.facts(link).costfactor < 10_000_000_000 {
            count = count.wrapping_add(1);
        }
    }
    count
}

/// Searches over a map by a bound profile.
fn search_bound(rt: &HostRuntime, map: &Map, bound: &Bound, plan: Plan) -> io::Result<()> {
    let rates = match Rates::new(&bound.globals()) {
        Ok(rates) => rates,
        Err(_) => return println!(rt; "the profile has no rates"),
    };
    println!(rt; "{} nodes, {} links", map.nodes(), map.links())?;
    match Ground::new(rt, map, bound, &rates)? {
        Some(ground) => ground.search_pairs(rt, plan),
        None => println!(rt; "the profile is bound to another map"),
    }
}

/// Does the task with a profile that is bound to a map.
fn do_bound(rt: &HostRuntime, map: &Map, bound: &Bound, task: Task) -> io::Result<()> {
    match task {
        Task::Bind { .. } => { println!(rt; "{} links, {} open", bound.count(), open_links(bound)) }
        Task::Search { plan } => search_bound(rt, map, bound, plan),
    }
}

/// Binds the code of a profile to a map, and does the task with it.
fn do_once(
    rt: &HostRuntime,
    code: &Code,
    table: &Table,
    map: &Map,
    tiles: &Tiles,
    task: Task,
) -> io::Result<()>
    requires fits { HasTags code.now table.now }
{
    match bind(rt.alloc(), code, table, map, tiles) {
        Ok(bound) => do_bound(rt, map, &bound, task),
        Err(_) => println!(rt; "the profile is not bound"),
    }
}

/// Does the task with the code of a profile, as often as it asks.
fn do_often(
    rt: &HostRuntime,
    code: &Code,
    table: &Table,
    map: &Map,
    tiles: &Tiles,
    task: Task,
) -> io::Result<()>
    requires fits { HasTags code.now table.now }
{
    'times: for _ in 0..task.times() {
        do_once(rt, code, table, map, tiles, task)?;
    }
    Ok(())
}

/// The overrides by which the profile for trekking counts heights or leaves them out.
fn overrides(alloc: Global, hilly: bool) -> Result<Overrides, AllocError> {
    let mut overrides = Overrides::new(alloc);
    if !hilly && let Some(number) = Num::of(0) {
        let name = Items::from_vec(Vec::from_slice(alloc, b"consider_elevation")?);
        overrides.push((name, number))?;
    }
    Ok(overrides)
}

/// Does the task with the profile for trekking under these overrides.
fn do_overridden(
    rt: &HostRuntime,
    table: &Table,
    map: &Map,
    tiles: &Tiles,
    overrides: &Overrides,
    task: Task,
) -> io::Result<()> {
    match code_with(rt.alloc(), table, TREK.as_bytes(), overrides) {
        Some(code) => do_often(rt, &code, table, map, tiles, task),
        None => println!(rt; "the profile is refused"),
    }
}

/// Does the task with the profile for trekking under a table.
fn do_under(
    rt: &HostRuntime,
    table: &Table,
    map: &Map,
    tiles: &Tiles,
    task: Task,
) -> io::Result<()> {
    let overrides = overrides(rt.alloc(), task.is_hilly())?;
    do_overridden(rt, table, map, tiles, &overrides, task)
}

/// Does the task with the profile for trekking on a map with tiles.
fn do_on(rt: &HostRuntime, map: &Map, tiles: &Tiles, task: Task) -> io::Result<()> {
    match table_of(rt.alloc(), LOOK.as_bytes()) {
        Some(table) => do_under(rt, &table, map, tiles, task),
        None => println!(rt; "the table is refused"),
    }
}

/// Binds the profile to a map as often as the first word says, with the tile of the second, or one
/// that slopes.
pub(crate) fn bind_often(rt: &HostRuntime, map: &Map, words: &[String]) -> io::Result<()> {
    let times = small_at(words, 0, 1);
    let tiles = tiles_at(rt, words, 1, b"bank")?;
    do_on(rt, map, &tiles, Task::Bind { times })
}

/// Searches over a map by the profile as the first four words say, with the tile of the fifth, or
/// none.
pub(crate) fn search(rt: &HostRuntime, map: &Map, words: &[String]) -> io::Result<()> {
    let plan = plan_of(words);
    let tiles = tiles_at(rt, words, 4, b"none")?;
    do_on(rt, map, &tiles, Task::Search { plan })
}
