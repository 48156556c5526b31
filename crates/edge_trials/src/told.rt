//! What a read of a file comes to, told as a text.

ghost use Rattle.std.specs.Prelude.{◌≡◌, ◌↔◌, IsTrue};
ghost use Rattle.edge_trials.specs.Told.{told_of, words_of};

use edge_io::WholeError;

/// Whether a text is what a read of a whole file comes to: its bytes, or in brackets why it can't
/// be read.
pub fn is_told(read: &Result<Vec<u8>, WholeError>, text: &[u8]) -> bool
    ensures exact { IsTrue result ↔ told_of read.now ≡ text.now }
{
    match read {
        Ok(bytes) => bytes.as_slice() == text,
        Err(error) => words_of(error) == text,
    }
}

/// What kept a file from being read, in words.
fn words_of(error: &WholeError) -> &'static [u8]
    ensures exact { result.now ≡ words_of error.now }
{
    match error {
        WholeError::Fault => b"(fault)",
        WholeError::TooLong => b"(too long)",
        WholeError::NoMemory => b"(no memory)",
    }
}
