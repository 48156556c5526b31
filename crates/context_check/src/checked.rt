//! A profile that was checked.
ghost use Rattle.std.specs.Prelude.{◌≡◌, None};
ghost use Rattle.profile_text.specs.Expr.{sections_in};
ghost use Rattle.context_check.specs.Refusal.{refusal_of};

use crate::overrides::Overrides;
use lookup_table::Table;
use profile_text::Profile;

/// A profile with the tag table and the overrides that it was checked with. Nothing is at fault in
/// it.
#[derive(Clone, Copy)]
pub struct Checked<'a> {
    pub(crate) profile: &'a Profile,
    pub(crate) table: &'a Table,
    pub(crate) overrides: &'a Overrides,
    ghost accepted: { refusal_of table.now (sections_in profile.now) overrides.now ≡ None },
}

impl<'a> Checked<'a> {
    ghost use Rattle.context_check.specs.Subject.{subject_of};
    ghost use Rattle.context_check.specs.Checked.{IsAccepted};

    /// The profile.
    pub fn profile(&self) -> &'a Profile
        ensures value { sections_in result.now ≡ (subject_of self.now).sections }
        ensures accepted { IsAccepted (subject_of self.now) }
    {
        self.profile
    }

    /// The tag table.
    pub fn table(&self) -> &'a Table
        ensures value { result.now ≡ (subject_of self.now).table }
    {
        self.table
    }

    /// The overrides.
    pub fn overrides(&self) -> &'a Overrides
        ensures value { result.now ≡ (subject_of self.now).overrides }
    {
        self.overrides
    }
}
