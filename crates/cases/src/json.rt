//! Cases on the scanner of JSON texts.

ghost use Rattle.std.specs.Prelude.{◌≡◌, false, OnOk};
ghost use Rattle.json_text.specs.Scanner.{fed, has_ended};

use crate::texts::{NO_CALL, text_of};
use case_inputs::{Case, place_of};
use json_text::{JsonAnswer, JsonStep, Scanner, Verdict};
use std::alloc::{AllocError, Global};

/// The calls on JSON texts.
pub(crate) const CALLS: [&str; 3] = ["json", "json_pieces", "json_fronts"];

/// The answer to a case on JSON texts.
pub(crate) fn answer(alloc: Global, case: &Case) -> Result<String, AllocError> {
    match place_of(&CALLS, case.word(0)) {
        0 => scanned_by_sizes(alloc, case.word(1)),
        1 => scanned_by_words(alloc, case),
        2 => fronts(alloc, case.word(1)),
        _ => String::from_str(alloc, NO_CALL),
    }
}

/// The sign of a step.
fn sign(step: JsonStep) -> &'static [u8] {
    match step {
        JsonStep::Open => b"{",
        JsonStep::Close => b"}",
        JsonStep::ListOpen => b"[",
        JsonStep::ListClose => b"]",
        JsonStep::Key => b"k",
        JsonStep::Text => b"t",
        JsonStep::Number => b"n",
        JsonStep::True => b"T",
        JsonStep::False => b"F",
        JsonStep::Null => b"N",
    }
}

/// Appends a step with its content behind it.
fn tell_step(told: &mut Vec<u8>, scanner: &Scanner, step: JsonStep) -> Result<(), AllocError> {
    told.extend_from_slice(sign(step))?;
    if matches!(step, JsonStep::Key | JsonStep::Text | JsonStep::Number) {
        told.extend_from_slice(scanner.text())?;
    }
    told.extend_from_slice(b" ")
}

/// Appends a verdict with its byte.
fn tell_verdict(alloc: Global, told: &mut Vec<u8>, verdict: Verdict) -> Result<(), AllocError> {
    match verdict {
        Verdict::Whole => told.extend_from_slice(b"."),
        Verdict::More => told.extend_from_slice(b"?"),
        Verdict::BadAt(at) => told.extend_from_slice(format!(in alloc; "!{at}")?.as_bytes()),
    }
}

/// Takes every step that is fixed, and tells it; behind them the verdict, if it is to be told.
fn take_steps(
    alloc: Global,
    scanner: &mut Scanner,
    told: &mut Vec<u8>,
    verdict: bool,
) -> Result<(), AllocError>
    ensures fed { fed scanner.new ≡ fed scanner.old }
    ensures ended { has_ended scanner.new ≡ has_ended scanner.old }
{
    'steps: for _ in 0..u32::MAX {
        match scanner.next()? {
            JsonAnswer::Step(step) => tell_step(told, scanner, step)?,
            JsonAnswer::Verdict(said) => {
                if verdict {
                    tell_verdict(alloc, told, said)?;
                }
                return Ok(());
            }
        }
    }
    Ok(())
}

/// Feeds a piece to a scanner that was fed so many bytes.
fn feed(scanner: &mut Scanner, piece: &[u8], total: &mut u64) -> Result<(), AllocError>
    requires counted { fed scanner.old ≡ total.old }
    requires open { has_ended scanner.old ≡ false }
    ensures counted { OnOk result (fed scanner.new ≡ total.new) }
    ensures open { has_ended scanner.new ≡ false }
{
    if *total < 1 << 60 && piece.len() < 1 << 60 {
        scanner.feed(piece)?;
        *total += piece.len() as u64;
    }
    Ok(())
}

/// The steps of a text in pieces of a size, and the verdict at its end.
fn scanned(alloc: Global, text: &[u8], size: usize) -> Result<Vec<u8>, AllocError> {
    let mut scanner = Scanner::new(alloc);
    let mut told = Vec::new(alloc);
    let mut total = 0u64;
    'pieces: for piece in text.chunks(size.max(1)) {
        feed(&mut scanner, piece, &mut total)?;
        take_steps(alloc, &mut scanner, &mut told, false)?;
    }
    scanner.end();
    take_steps(alloc, &mut scanner, &mut told, true)?;
    Ok(told)
}

/// The steps of a text, if they are the same in pieces of 1, 2, 3, 7 and 1,000 bytes.
fn scanned_by_sizes(alloc: Global, text: &[u8]) -> Result<String, AllocError> {
    let whole = scanned(alloc, text, 1000)?;
    match size_otherwise(alloc, text, whole.as_slice())? {
        Some(size) => format!(in alloc; "otherwise in pieces of {size}"),
        None => text_of(alloc, whole.as_slice()),
    }
}

/// The first of these sizes in whose pieces a text has other steps.
fn size_otherwise(alloc: Global, text: &[u8], whole: &[u8]) -> Result<Option<usize>, AllocError> {
    for size in [1, 2, 3, 7] {
        let told = scanned(alloc, text, size)?;
        if told.as_slice() != whole {
            return Ok(Some(size));
        }
    }
    Ok(None)
}

/// What is told after each of the pieces that the words are, the last of which is the end of the
/// text if it is `end`.
fn scanned_by_words(alloc: Global, case: &Case) -> Result<String, AllocError> {
    let mut scanner = Scanner::new(alloc);
    let mut told = Vec::new(alloc);
    take_words(alloc, case, &mut scanner, &mut told)?;
    text_of(alloc, told.as_slice())
}

/// Feeds the words behind the call, takes and tells what is fixed after each, and at the end.
fn take_words(
    alloc: Global,
    case: &Case,
    scanner: &mut Scanner,
    told: &mut Vec<u8>,
) -> Result<(), AllocError>
    requires fed { fed scanner.old ≡ 0 }
    requires open { has_ended scanner.old ≡ false }
{
    let mut total = 0u64;
    'words: for place in 1..case.len() {
        feed(scanner, case.word(place), &mut total)?;
        take_piece(alloc, scanner, told)?;
    }
    scanner.end();
    take_steps(alloc, scanner, told, true)
}

/// Takes what is fixed after a piece, and tells it, and the text that stands then.
fn take_piece(alloc: Global, scanner: &mut Scanner, told: &mut Vec<u8>) -> Result<(), AllocError>
    ensures fed { fed scanner.new ≡ fed scanner.old }
    ensures ended { has_ended scanner.new ≡ has_ended scanner.old }
{
    take_steps(alloc, scanner, told, true)?;
    told.extend_from_slice(b" <")?;
    told.extend_from_slice(scanner.text())?;
    told.extend_from_slice(b"> ")?;
    Ok(())
}

/// How many proper fronts of a text are bad exactly at their end.
fn fronts(alloc: Global, text: &[u8]) -> Result<String, AllocError> {
    let mut bad = 0u64;
    for n in 0..text.len() {
        let told = scanned(alloc, &text[..n], 7)?;
        let wanted = format!(in alloc; "!{n}")?;
        if told.as_slice().ends_with(wanted.as_bytes()) {
            bad = bad.saturating_add(1);
        }
    }
    format!(in alloc; "{bad} of {}", text.len())
}
