//! The stage of a profile.

ghost use Rattle.std.specs.Prelude.{◌<◌, ◌^◌, length};
ghost use Rattle.item_list.specs.Answer.{Answers};
ghost use Rattle.profile_text.specs.Expr.{sections_in};
ghost use Rattle.run_files.specs.Chain.{seen_as};
ghost use Rattle.run_files.specs.Profile.{TakesProfile, profile_in};

use crate::file::take_file;
use crate::status::Status;
use command_words::FileWord;
use edge_io::Files;
use profile_text::{Profile, TextError};
use std::alloc::Global;

/// The most bytes of a profile's file.
const MOST_PROFILE: usize = 262_144;

/// The profile of a file that a word names; a refusal names the word.
pub fn take_profile<F: Files>(
    alloc: Global,
    file: &FileWord,
    files: &mut F,
) -> Result<Profile, Status>
    ensures taken { TakesProfile file.now (F.seen files.old) (F.seen files.new)
        (seen_as sections_in result) }
{
    let text = take_file(alloc, files, file, MOST_PROFILE)?;
    profile_in(alloc, file.word(), text.as_slice())
}

/// The profile of a text; a refusal names the word.
fn profile_in(alloc: Global, word: u64, text: &[u8]) -> Result<Profile, Status>
    requires fits { length text.now < 2 ^ 32 }
    ensures exact { Answers sections_in (profile_in word text.now) Status.NoMemory result }
{
    match Profile::read(alloc, text) {
        Ok(profile) => Ok(profile),
        Err(TextError::NoMemory) => Err(Status::NoMemory),
        Err(error) => Err(Status::Text { word, error }),
    }
}
