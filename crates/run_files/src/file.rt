//! A file that a word names, taken in as a whole.

ghost use Rattle.std.specs.Prelude.{◌≤◌, IfOk, length};
ghost use Rattle.run_files.specs.Chain.{bytes_in};
ghost use Rattle.run_files.specs.File.{TakesFile};

use crate::status::Status;
use command_words::FileWord;
use edge_io::{Files, WholeError, read_whole};
use std::alloc::Global;

/// The bytes of the file that a word names, of which at most `limit` are taken; a refusal names the
/// word.
pub fn take_file<F: Files>(
    alloc: Global,
    files: &mut F,
    file: &FileWord,
    limit: usize,
) -> Result<Vec<u8>, Status>
    ensures taken { TakesFile file.now limit (F.seen files.old) (F.seen files.new)
        (bytes_in result) }
    ensures fits { IfOk result (λ v. length v.items ≤ limit) }
{
    let word = file.word();
    match files.open(file.name()) {
        Ok(true) => {}
        Ok(false) => return Err(Status::NotFound { word }),
        Err(_) => return Err(Status::ReadFault { word }),
    }
    match read_whole(alloc, files, limit) {
        Ok(bytes) => Ok(bytes),
        Err(WholeError::Fault) => Err(Status::ReadFault { word }),
        Err(WholeError::TooLong) => Err(Status::TooLong { word }),
        Err(WholeError::NoMemory) => Err(Status::NoMemory),
    }
}
