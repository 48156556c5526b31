//! Texts that are written and read back.

ghost use Rattle.std.specs.Prelude.{◌≡◌, ◌<◌, ◌%◌, ℕ, IfOk, get_or, length};

use std::alloc::{AllocError, Global};

/// A text of so many bytes, each different from those around it: the remainders of their places by
/// 251.
pub fn long_text(alloc: Global, size: u32) -> Result<Vec<u8>, AllocError>
    ensures long { IfOk result (λ text. length text.items ≡ size) }
    ensures each { IfOk result (λ text. (place : ℕ) → place < size →
        get_or text.items place 0 ≡ place % 251) }
{
    let mut text = Vec::new(alloc);
    'places: for place in 0..size {
        text.push((place % 251) as u8)?;
    }
    Ok(text)
}
