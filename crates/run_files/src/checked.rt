//! The stage of a profile that is checked under a tag table.

ghost use Rattle.item_list.specs.Answer.{Answers};
ghost use Rattle.profile_text.specs.Expr.{sections_in};
ghost use Rattle.run_files.specs.Chain.{seen_as};
ghost use Rattle.run_files.specs.Checked.{TakesChecked, checked_in};

use crate::profile::take_profile;
use crate::status::Status;
use command_words::FileWord;
use context_check::{CheckError, Overrides, check};
use edge_io::Files;
use lookup_table::Table;
use profile_text::Profile;
use std::alloc::Global;

/// The profile of a file that a word names, in which nothing is at fault under a tag table; a
/// refusal names the word.
pub fn take_checked<F: Files>(
    alloc: Global,
    file: &FileWord,
    table: &Table,
    files: &mut F,
) -> Result<Profile, Status>
    ensures taken { TakesChecked table.now file.now (F.seen files.old) (F.seen files.new)
        (seen_as sections_in result) }
{
    let profile = take_profile(alloc, file, files)?;
    match checked_in(alloc, file.word(), table, &profile) {
        Ok(()) => Ok(profile),
        Err(status) => Err(status),
    }
}

/// Tests a profile under a tag table; a refusal names the word.
fn checked_in(alloc: Global, word: u64, table: &Table, profile: &Profile) -> Result<(), Status>
    ensures exact { Answers (λ _. sections_in profile.now)
        (checked_in word table.now (sections_in profile.now)) Status.NoMemory result }
{
    let overrides = Overrides::new(alloc);
    match check(alloc, profile, table, &overrides) {
        Ok(_) => Ok(()),
        Err(CheckError::NoMemory) => Err(Status::NoMemory),
        Err(error) => Err(Status::Check { word, error }),
    }
}
