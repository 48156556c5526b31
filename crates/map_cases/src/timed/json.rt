//! Scans a generated Overpass text of so many blocks of four elements, in pieces of so many bytes,
//! and prints how many steps it has.

ghost use Rattle.std.specs.Prelude.{◌≡◌, ◌<◌, false, OnOk};
ghost use Rattle.json_text.specs.Scanner.{fed, has_ended};

use crate::timed::words::number_at;
use json_text::{JsonAnswer, Scanner, Verdict};
use std::alloc::{AllocError, Global};
use std::io;

const HEAD: &str = "{\n  \"version\": 0.6,\n  \"elements\": [\n\n";

const NODE: &str = "{\n  \"type\": \"node\",\n  \"id\": 240092010,\n  \"lat\": 49.0069134,\n  \
     \"lon\": 8.4036527\n},\n";

const WAY: &str = "{\n  \"type\": \"way\",\n  \"id\": 4040540,\n  \"nodes\": [\n    21385236,\n    \
     21385237,\n    21385238,\n    21385239\n  ],\n  \"tags\": {\n    \
     \"highway\": \"residential\",\n    \"name\": \"Kaiserstra\u{df}e\",\n    \
     \"surface\": \"asphalt\"\n  }\n},\n";

const LAST: &str =
    "{\n  \"type\": \"node\",\n  \"id\": 1,\n  \"lat\": 49.0,\n  \"lon\": -8.5\n}\n\n  ]\n}\n";

/// How many bytes were fed, and how many steps they had.
#[derive(Clone, Copy)]
struct Counts {
    bytes: u64,
    steps: u64,
}

/// Takes the steps that are fixed, counts them, and returns the verdict behind them.
fn take_steps(scanner: &mut Scanner, counts: &mut Counts) -> Result<Verdict, AllocError>
    ensures fed { fed scanner.new ≡ fed scanner.old }
    ensures ended { has_ended scanner.new ≡ has_ended scanner.old }
    ensures counted { counts.new.bytes ≡ counts.old.bytes }
{
    'steps: for _ in 0..u32::MAX {
        match scanner.next()? {
            JsonAnswer::Step(_) => counts.steps = counts.steps.wrapping_add(1),
            JsonAnswer::Verdict(verdict) => return Ok(verdict),
        }
    }
    Ok(Verdict::More)
}

/// Feeds a piece, and takes the steps that it fixes.
fn feed_piece(scanner: &mut Scanner, piece: &[u8], counts: &mut Counts) -> Result<(), AllocError>
    requires counted { fed scanner.old ≡ counts.old.bytes }
    requires open { has_ended scanner.old ≡ false }
    ensures counted { OnOk result (fed scanner.new ≡ counts.new.bytes) }
    ensures open { has_ended scanner.new ≡ false }
{
    if counts.bytes < 1 << 60 && piece.len() < 1 << 60 {
        scanner.feed(piece)?;
        counts.bytes += piece.len() as u64;
        let _ = take_steps(scanner, counts)?;
    }
    Ok(())
}

/// Feeds as many whole pieces as there are bytes for, and leaves the others.
fn feed_pieces(
    scanner: &mut Scanner,
    text: &mut Vec<u8>,
    size: usize,
    counts: &mut Counts,
) -> Result<(), AllocError>
    requires size { 0 < size }
    requires counted { fed scanner.old ≡ counts.old.bytes }
    requires open { has_ended scanner.old ≡ false }
    ensures counted { OnOk result (fed scanner.new ≡ counts.new.bytes) }
    ensures open { has_ended scanner.new ≡ false }
{
    'pieces: while text.len() >= size {
        feed_piece(scanner, &text[..size], counts)?;
        let left = text.len() - size;
        text.rotate_left(size);
        text.truncate(left);
    }
    Ok(())
}

/// Writes four elements.
fn push_block(text: &mut Vec<u8>) -> Result<(), AllocError> {
    for _ in 0..3u8 {
        text.extend_from_slice(NODE.as_bytes())?;
    }
    text.extend_from_slice(WAY.as_bytes())
}

/// Writes so many blocks and feeds them in pieces of a size, the last one whatever it has.
fn feed_blocks(
    scanner: &mut Scanner,
    text: &mut Vec<u8>,
    blocks: u64,
    size: usize,
    counts: &mut Counts,
) -> Result<(), AllocError>
    requires size { 0 < size }
    requires counted { fed scanner.old ≡ counts.old.bytes }
    requires open { has_ended scanner.old ≡ false }
{
    'elements: for _ in 0..blocks {
        push_block(text)?;
        feed_pieces(scanner, text, size, counts)?;
    }
    text.extend_from_slice(LAST.as_bytes())?;
    feed_piece(scanner, text, counts)
}

/// Scans so many blocks in pieces of a size, and returns the verdict.
fn scan(
    alloc: Global,
    scanner: &mut Scanner,
    blocks: u64,
    size: usize,
    counts: &mut Counts,
) -> Result<Verdict, AllocError>
    requires size { 0 < size }
    requires counted { fed scanner.old ≡ counts.old.bytes }
    requires open { has_ended scanner.old ≡ false }
{
    let mut text = Vec::from_slice(alloc, HEAD.as_bytes())?;
    feed_blocks(scanner, &mut text, blocks, size, counts)?;
    scanner.end();
    take_steps(scanner, counts)
}

/// The word for a verdict.
fn word_of(verdict: Verdict) -> &'static str {
    match verdict {
        Verdict::Whole => "Done",
        Verdict::More => "More",
        Verdict::BadAt(_) => "Bad",
    }
}

/// Scans as many blocks in pieces of a size as the words say, and prints what came of it.
pub(crate) fn run(rt: &HostRuntime, words: &[String]) -> io::Result<()> {
    let blocks = number_at(words, 0, 1000);
    let size = number_at(words, 1, 65536).max(1) as usize;
    let mut scanner = Scanner::new(rt.alloc());
    let mut counts = Counts { bytes: 0, steps: 0 };
    let verdict = scan(rt.alloc(), &mut scanner, blocks, size, &mut counts)?;
    println!(rt;
        "{} bytes, {} steps, {}",
        counts.bytes,
        counts.steps,
        word_of(verdict)
    )
}
