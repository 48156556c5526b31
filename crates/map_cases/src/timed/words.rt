//! The numbers that words say.

/// The number that the word at a place says; the usual one where there is none.
pub(crate) fn number_at(words: &[String], place: usize, usual: u64) -> u64 {
    match words.get(place) {
        Some(word) => word.as_str().parse::<u64>().unwrap_or(usual),
        None => usual,
    }
}

/// The same of numbers of 32 bits.
pub(crate) fn small_at(words: &[String], place: usize, usual: u32) -> u32 {
    match words.get(place) {
        Some(word) => word.as_str().parse::<u32>().unwrap_or(usual),
        None => usual,
    }
}
