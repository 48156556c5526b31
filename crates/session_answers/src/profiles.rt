//! The profiles that a server has stored.

ghost use Rattle.route_ready.specs.Shelves.{shelf_of};
ghost use Rattle.session_answers.specs.Stored.{AreStored};

use item_list::Name;
use profile_text::Profile;
use route_ready::Shelf;
use std::alloc::AllocError;

/// The stored profiles: those given at the start, and then at most 64 uploads, named `custom_1` and
/// so on.
pub struct Profiles {
    pub(crate) shelf: Shelf,
    /// How many were given at the start; the others are uploads.
    pub(crate) given: usize,
    ghost stored: { AreStored given (shelf_of shelf) },
}

impl Drop for Profiles {
    fn drop(self) {
        let Profiles { shelf: _, given: _ } = self;
    }
}

impl Profiles {
    ghost use Rattle.std.specs.Prelude.{◌≡◌, ◌+◌, ◌<◌, ◌≤◌, [], ◌∷◌, ◌++◌, length, slice_get, Some, IfSome, OnErr, OnOk};
    ghost use Rattle.lookup_table.specs.Tag.{name_place};
    ghost use Rattle.profile_text.specs.Expr.{sections_in};
    ghost use Rattle.route_ready.specs.Entries.{names_of, profiles_of};
    ghost use Rattle.session_answers.specs.Profiles.{given_of, stored_of, uploads_of};
    ghost use Rattle.session_answers.specs.Stored.{AreGiven, most_uploads, upload_name};

    /// The profiles that are given at the start; none of their names begins with `custom_`.
    pub fn new(shelf: Shelf) -> Profiles
        requires given { AreGiven (names_of (shelf_of shelf)) }
        ensures value { stored_of result ≡ shelf_of shelf }
        ensures given { given_of result ≡ length (shelf_of shelf) }
    {
        let given = shelf.len();
        Profiles { shelf, given }
    }

    /// How many profiles are stored.
    pub fn len(&self) -> usize
        ensures value { result ≡ length (stored_of self.now) }
        ensures within { given_of self.now ≤ length (stored_of self.now) }
    {
        self.shelf.len()
    }

    /// How many uploads are stored.
    pub fn uploads(&self) -> usize
        ensures value { result ≡ uploads_of self.now }
        ensures stored { AreStored (given_of self.now) (stored_of self.now) }
    {
        self.shelf.len() - self.given
    }

    /// The place of the profile of a name, where one is stored.
    pub fn find(&self, name: &[u8]) -> Option<u32>
        ensures exact { result ≡ name_place (names_of (stored_of self.now)) name.now }
        ensures fits { IfSome result (λ place. place < length (stored_of self.now)) }
    {
        self.shelf.find(name)
    }

    /// The profile at a place.
    pub fn profile(&self, place: u32) -> &Profile
        requires fits { place < length (stored_of self.now) }
        ensures value { slice_get (profiles_of (stored_of self.now)) place ≡
            Some (sections_in result.now) }
    {
        self.shelf.profile(place)
    }

    /// Stores one more upload under its name. Where memory runs out, nothing changes.
    pub(crate) fn store(&mut self, name: Name, profile: Profile) -> Result<(), AllocError>
        requires room { uploads_of self.old < most_uploads }
        requires named { name ≡ upload_name (uploads_of self.old + 1) }
        ensures value { OnOk result (stored_of self.new ≡ stored_of self.old ++
            (name, sections_in profile) ∷ []) }
        ensures kept { OnErr result (stored_of self.new ≡ stored_of self.old) }
        ensures given { given_of self.new ≡ given_of self.old }
    {
        match self.shelf.add(name, profile) {
            Ok(_) => Ok(()),
            Err(error) => Err(error),
        }
    }
}
