//! The stages of profiles by the names of their files.

ghost use Rattle.std.specs.Prelude.{◌≡◌, [], ◌∷◌, ◌++◌, None, IfErr, OnOk};
ghost use Rattle.command_words.specs.FileNames.{profile_name};
ghost use Rattle.command_words.specs.Fit.{AreOnceAfter};
ghost use Rattle.lookup_table.specs.Tag.{name_place};
ghost use Rattle.profile_text.specs.Expr.{sections_in};
ghost use Rattle.route_ready.specs.Entries.{names_of};
ghost use Rattle.route_ready.specs.Shelves.{shelf_of};
ghost use Rattle.run_files.specs.Chain.{seen_as};
ghost use Rattle.run_files.specs.Notes.{inputs};
ghost use Rattle.run_files.specs.Profiles.{TakesProfiles};

use crate::checked::take_checked;
use crate::note_lines::note_file;
use crate::notes::Notes;
use crate::status::Status;
use command_words::{FileWord, profile_name};
use edge_io::{Files, Sink};
use item_list::{Name, bytes_of};
use lookup_table::Table;
use profile_text::Profile;
use route_ready::Shelf;
use std::alloc::Global;

/// The profiles of files that words name, each checked under a tag table, stored under the name of
/// its file, and noted; a refusal names the word.
pub fn take_profiles<F: Files, N: Sink>(
    alloc: Global,
    profiles: &[FileWord],
    table: &Table,
    files: &mut F,
    notes: &mut Notes<N>,
) -> Result<Shelf, Status>
    requires once { AreOnceAfter [] profiles.now }
    ensures taken { TakesProfiles table.now profiles.now (inputs (F.seen files.old) notes.old)
        (inputs (F.seen files.new) notes.new) (seen_as shelf_of result) }
{
    let mut shelf = Shelf::new(alloc);
    'profiles: for file in profiles {
        match take_checked(alloc, file, table, files) {
            Ok(profile) => match store(alloc, &mut shelf, file, profile) {
                Ok(()) => note_file(alloc, file, b"profile", notes),
                Err(status) => return Err(status),
            },
            Err(status) => return Err(status),
        }
    }
    Ok(shelf)
}

/// Stores a profile under the name of its file.
fn store(alloc: Global, shelf: &mut Shelf, file: &FileWord, profile: Profile) -> Result<(), Status>
    requires new { name_place (names_of (shelf_of shelf.old)) (profile_name file.now.name) ≡ None }
    ensures value { OnOk result (shelf_of shelf.new ≡ shelf_of shelf.old ++
        (profile_name file.now.name, sections_in profile) ∷ []) }
    ensures cause { IfErr result (λ status. status ≡ Status.NoMemory) }
{
    let Ok(name) = bytes_of(alloc, profile_name(file.name().as_bytes())) else {
        return Err(Status::NoMemory);
    };
    match shelf.add(Name::from_vec(name), profile) {
        Ok(_) => Ok(()),
        Err(_) => Err(Status::NoMemory),
    }
}
