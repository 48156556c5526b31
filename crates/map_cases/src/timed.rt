//! Parts of the program that are timed, each by its name.

mod bound;
mod climb;
mod draws;
mod ground;
mod json;
mod lengths;
mod maps;
mod plan;
mod profile;
mod search;
mod searching;
mod strip;
mod sums;
mod tiles;
mod trek;
mod ways;
mod words;

use crate::timed::maps::read_map;
use case_inputs::{map_of, place_of};
use overpass_graph::Map;
use std::io;

/// What is timed: first what needs no map, then what runs on a map.
const NAMES: [&str; 8] = [
    "json", "climb", "search", "profile", "map", "sums", "bind", "space",
];

/// How many of them need no map.
const ALONE: usize = 4;

/// The map on which the others run at a small size.
const SMALL: &str = "{\"elements\":[\
     {\"type\":\"node\",\"id\":1,\"lat\":0.000000,\"lon\":0.000000},\
     {\"type\":\"node\",\"id\":2,\"lat\":0.000000,\"lon\":0.001000},\
     {\"type\":\"node\",\"id\":3,\"lat\":0.001000,\"lon\":0.001000},\
     {\"type\":\"way\",\"id\":1,\"nodes\":[1,2],\"tags\":{\"highway\":\"primary\"}},\
     {\"type\":\"way\",\"id\":2,\"nodes\":[2,3],\"tags\":{\"highway\":\"residential\"}}]}";

/// Runs what stands at this place and needs no map.
fn run_alone(rt: &HostRuntime, place: usize, words: &[String]) -> io::Result<()> {
    match place {
        0 => json::run(rt, words),
        1 => climb::run(rt, words),
        2 => search::run(rt, words),
        _ => profile::run(rt, words),
    }
}

/// Runs what stands at this place on a map.
fn run_on(rt: &HostRuntime, map: &Map, place: usize, words: &[String]) -> io::Result<()> {
    match place {
        4 => maps::run(rt, map),
        5 => sums::run(rt, map, words),
        6 => bound::bind_often(rt, map, words),
        _ => bound::search(rt, map, words),
    }
}

/// Runs what has this name: what needs a map, on that of the standard input.
pub(crate) fn run_named(rt: &HostRuntime, name: &str, words: &[String]) -> io::Result<()> {
    let place = place_of(&NAMES, name.as_bytes());
    if place >= NAMES.len() {
        return println!(rt; "nothing of this name is timed");
    }
    if place < ALONE {
        return run_alone(rt, place, words);
    }
    match read_map(rt)? {
        Ok(map) => run_on(rt, &map, place, words),
        Err(_) => println!(rt; "the map is refused"),
    }
}

/// Runs each that needs a map, at a small size.
fn run_each_on(rt: &HostRuntime, map: &Map) -> io::Result<()> {
    for place in ALONE..NAMES.len() {
        print!(rt; "{}: ", NAMES[place])?;
        run_on(rt, map, place, &[])?;
    }
    Ok(())
}

/// Runs each at a small size, and puts its name in front.
pub(crate) fn run_each(rt: &HostRuntime) -> io::Result<()> {
    for place in 0..ALONE {
        print!(rt; "{}: ", NAMES[place])?;
        run_alone(rt, place, &[])?;
    }
    match map_of(rt.alloc(), SMALL.as_bytes()) {
        Ok(map) => run_each_on(rt, &map),
        Err(_) => println!(rt; "the map is refused"),
    }
}
