//! Counts and numbers of 32 bits of what a list has.

ghost use Rattle.std.specs.Prelude.{◌≡◌, ◌≤◌, ◌<◌, MatchResult};

use std::alloc::AllocError;

/// A count in 32 bits. One of 2^32 and more is answered as want of memory.
pub fn narrow(count: usize) -> Result<u32, AllocError>
    ensures exact { MatchResult result
        (λ narrow. (narrow ≡ count) × (count < 4294967296)) (λ _. 4294967296 ≤ count) }
{
    match u32::try_from(count) {
        Ok(narrow) => Ok(narrow),
        Err(_) => Err(AllocError),
    }
}

/// The number, from 0, of what is put behind so many. Where there are 2^32 - 1, which is the most
/// that a count of 32 bits can tell, one more is answered as want of memory.
pub fn next_number(count: usize) -> Result<u32, AllocError>
    ensures exact { MatchResult result
        (λ number. (number ≡ count) × (count < 4294967295)) (λ _. 4294967295 ≤ count) }
{
    if count < u32::MAX as usize {
        Ok(count as u32)
    } else {
        Err(AllocError)
    }
}
