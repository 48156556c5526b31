//! Cases of the top call and of whole command lines, over files, outputs and hubs in memory.

mod answers;
mod ended;
mod faults;
mod outside;
mod peers;
mod tiles;
mod world;

use crate::run::peers::Told;
use crate::run::tiles::tile;
use case_inputs::{Case, place_of};
use item_list::bytes_of;
pub(crate) use peers::DEEDS;
use std::alloc::{AllocError, Global};
pub(crate) use world::World;

/// The calls that set the world.
pub(crate) const SETTINGS: [&str; 7] = [
    "world", "file", "tile", "reading", "output", "noting", "hub",
];

/// The calls that run command lines.
pub(crate) const RUNS: [&str; 12] = [
    "run",
    "cost",
    "size",
    "edge",
    "served",
    "served_costs",
    "each_read",
    "each_write",
    "each_call",
    "listened",
    "fault",
    "out_of_memory",
];

/// The answer to a case that sets the world.
pub(crate) fn set(alloc: Global, case: &Case, world: &mut World) -> Result<Vec<u8>, AllocError> {
    match place_of(&SETTINGS, case.word(0)) {
        0 => {
            *world = World::new(alloc);
            Vec::from_slice(alloc, b"new")
        }
        1 => add_file(alloc, case, world),
        2 => add_tile(alloc, case, world),
        3 => {
            world.read_by(case.count(1), case.count(2));
            Vec::from_slice(alloc, b"set")
        }
        4 => {
            world.write_by(case.count(1), case.count(2), case.count(3));
            Vec::from_slice(alloc, b"set")
        }
        5 => {
            world.note_by(case.count(1), case.count(2), case.count(3));
            Vec::from_slice(alloc, b"set")
        }
        _ => {
            world.hub_by(case.count(1), case.count(2));
            Vec::from_slice(alloc, b"set")
        }
    }
}

/// The answer to a case that adds a file.
fn add_file(alloc: Global, case: &Case, world: &mut World) -> Result<Vec<u8>, AllocError> {
    let content = bytes_of(alloc, case.word(2))?;
    world.add(case.word(1), content)?;
    Vec::from_slice(alloc, b"added")
}

/// The answer to a case that adds a tile.
fn add_tile(alloc: Global, case: &Case, world: &mut World) -> Result<Vec<u8>, AllocError> {
    let content = tile(alloc, case.word(2))?;
    world.add(case.word(1), content)?;
    Vec::from_slice(alloc, b"added")
}

/// The answer to a case that adds what a peer does.
pub(crate) fn add_deed(
    alloc: Global,
    case: &Case,
    world: &mut World,
) -> Result<Vec<u8>, AllocError> {
    world.add_deed(case)?;
    Vec::from_slice(alloc, b"added")
}

/// The answer to a case that runs command lines.
pub(crate) fn answer(alloc: Global, case: &Case, world: &mut World) -> Result<Vec<u8>, AllocError> {
    let mut told = Vec::new(alloc);
    append_answer(&mut told, case, world)?;
    Ok(told)
}

/// Appends what command lines come to in the world.
fn append_answer(told: &mut Vec<u8>, case: &Case, world: &mut World) -> Result<(), AllocError> {
    match place_of(&RUNS, case.word(0)) {
        0 => answers::append_run(told, world, case, 1),
        1 => answers::append_cost(told, world, case),
        2 => answers::append_size(told, world, case),
        3 => answers::append_edge(told, world, case),
        4 => peers::append_served(told, world, case, 1, Told::Bytes),
        5 => peers::append_served(told, world, case, 1, Told::Cost),
        6 => faults::append_reads(told, world, case),
        7 => faults::append_writes(told, world, case),
        8 => faults::append_calls(told, world, case),
        9 => peers::append_listened(told, world, case),
        10 => answers::append_fault(told, world, case),
        _ => answers::append_no_memory(told, world.alloc()),
    }
}
