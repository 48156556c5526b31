//! The stage of a tag table.

ghost use Rattle.std.specs.Prelude.{◌<◌, ◌^◌, length};
ghost use Rattle.item_list.specs.Answer.{Answers};
ghost use Rattle.lookup_table.specs.First.{TagTable};
ghost use Rattle.run_files.specs.TagTable.{TakesTable, table_in};

use crate::file::take_file;
use crate::status::Status;
use command_words::FileWord;
use edge_io::Files;
use lookup_table::{LookupError, Table};
use std::alloc::Global;

/// The most bytes of a tag table's file.
const MOST_LOOKUPS: usize = 1_048_576;

/// The tag table of a file that a word names; a refusal names the word.
pub fn take_table<F: Files>(alloc: Global, file: &FileWord, files: &mut F) -> Result<Table, Status>
    ensures taken { TakesTable file.now (F.seen files.old) (F.seen files.new) result }
{
    let text = take_file(alloc, files, file, MOST_LOOKUPS)?;
    table_in(alloc, file.word(), text.as_slice())
}

/// The tag table of a text; a refusal names the word.
fn table_in(alloc: Global, word: u64, text: &[u8]) -> Result<Table, Status>
    requires fits { length text.now < 2 ^ 32 }
    ensures exact { Answers (λ (t : TagTable). t) (table_in word text.now) Status.NoMemory result }
{
    match Table::read(alloc, text) {
        Ok(table) => Ok(table),
        Err(LookupError::NoMemory) => Err(Status::NoMemory),
        Err(error) => Err(Status::Lookup { word, error }),
    }
}
