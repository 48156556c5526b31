//! A map read from the standard input.

ghost use Rattle.std.specs.Prelude.{◌≡◌, OnOk};
ghost use Rattle.overpass_graph.specs.Builder.{fed};

use overpass_graph::{Map, MapBuilder, MapError};
use std::io::{self, Read};

const PIECE: usize = 65536;

/// Feeds a piece to a builder that was fed so many bytes; beyond 2^60 bytes it takes none.
fn feed(builder: &mut MapBuilder, piece: &[u8], total: &mut u64) -> Result<(), MapError>
    requires counted { fed builder.old ≡ total.old }
    ensures counted { OnOk result (fed builder.new ≡ total.new) }
{
    if *total < 1 << 60 && piece.len() < 1 << 60 {
        builder.feed(piece)?;
        *total += piece.len() as u64;
    }
    Ok(())
}

/// Feeds what the input has; its first fault where it has one.
fn feed_all(
    rt: &HostRuntime,
    builder: &mut MapBuilder,
    total: &mut u64,
) -> io::Result<Option<MapError>>
    requires counted { fed builder.old ≡ total.old }
{
    let mut piece = vec![in rt.alloc(); 0u8; PIECE]?;
    let mut input = rt.reader();
    'pieces: for _ in 0..u64::MAX {
        let taken = input.read(&mut piece)?;
        if taken == 0 {
            return Ok(None);
        }
        if let Err(e) = feed(builder, &piece[..taken], total) {
            return Ok(Some(e));
        }
    }
    Ok(None)
}

/// The map of the input's text, or its first fault.
pub(crate) fn read_map(rt: &HostRuntime) -> io::Result<Result<Map, MapError>> {
    let mut builder = MapBuilder::new(rt.alloc());
    let mut total = 0u64;
    match feed_all(rt, &mut builder, &mut total) {
        Ok(None) => Ok(builder.finish()),
        Ok(Some(e)) => Ok(Err(e)),
        Err(e) => Err(e),
    }
}

/// Prints how much a map has.
pub(crate) fn run(rt: &HostRuntime, map: &Map) -> io::Result<()> {
    println!(rt;
        "{} nodes, {} ways, {} links",
        map.nodes(),
        map.ways(),
        map.links()
    )
}
