//! Words of a table, which write some bytes by an escape.

use std::alloc::{AllocError, Global};

/// How far an escape was read.
#[derive(Clone, Copy)]
enum Part {
    /// No escape is open.
    Plain,
    /// A backslash came.
    Opened,
    /// `\x` came.
    High,
    /// `\x` and a digit of this value came.
    Low { high: u8 },
}

/// The bytes that a word stands for: `\s` is a space, `\n`, `\r` and `\t` are the usual ones, `\e`
/// is nothing, `\\` a backslash, and `\xHH` the byte of two digits in base 16. A backslash before
/// anything else stands for itself.
pub(crate) fn unescaped(alloc: Global, word: &[u8]) -> Result<Vec<u8>, AllocError> {
    let mut out = Vec::new(alloc);
    let mut part = Part::Plain;
    for byte in word {
        part = taken(&mut out, part, *byte)?;
    }
    Ok(out)
}

/// Takes one byte of a word, and gives how far an escape is read behind it.
fn taken(out: &mut Vec<u8>, part: Part, byte: u8) -> Result<Part, AllocError> {
    match part {
        Part::Plain if byte == b'\\' => return Ok(Part::Opened),
        Part::Plain => out.push(byte)?,
        Part::Opened if byte == b'x' => return Ok(Part::High),
        Part::Opened => opened(out, byte)?,
        Part::High => {
            return Ok(Part::Low {
                high: digit_of(byte),
            });
        }
        Part::Low { high } => out.push((high & 15) << 4 | digit_of(byte))?,
    }
    Ok(Part::Plain)
}

/// Appends what a backslash and a letter stand for.
fn opened(out: &mut Vec<u8>, letter: u8) -> Result<(), AllocError> {
    let byte = match letter {
        b's' => b' ',
        b'n' => b'\n',
        b'r' => b'\r',
        b't' => b'\t',
        b'\\' => b'\\',
        b'e' => return Ok(()),
        _ => {
            out.push(b'\\')?;
            letter
        }
    };
    out.push(byte)?;
    Ok(())
}

/// The value of a digit in base 16; 0 for any other byte.
fn digit_of(byte: u8) -> u8 {
    match byte {
        b'0'..=b'9' => byte - b'0',
        b'a'..=b'f' => byte - b'a' + 10,
        b'A'..=b'F' => byte - b'A' + 10,
        _ => 0,
    }
}

/// Writes bytes as a text of one line: what isn't a printed ASCII byte is written by its two
/// digits.
pub(crate) fn show(out: &mut String, bytes: &[u8]) -> Result<(), AllocError> {
    for byte in bytes {
        if (32..127).contains(byte) {
            out.push(char::from(*byte))?;
        } else {
            write!(out, "\\x{byte:02x}")?;
        }
    }
    Ok(())
}
