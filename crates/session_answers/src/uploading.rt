//! Uploads.

ghost use Rattle.std.specs.Prelude.{◌≡◌, ◌≢◌, ◌<◌, ◌^◌, [], ◌++◌, length, Result, Ok, IfOk, OnErr, OnOk};
ghost use Rattle.context_check.specs.Lines.{check_line};
ghost use Rattle.context_check.specs.Refusal.{refusal_of};
ghost use Rattle.context_check.specs.declared.error.CheckError.TheVariants as check_error;
ghost use Rattle.item_list.specs.Answer.{Passes};
ghost use Rattle.profile_text.specs.Expr.{sections_in};
ghost use Rattle.profile_text.specs.Lines.{text_line};
ghost use Rattle.profile_text.specs.declared.error.TextError.TheVariants as text_error;
ghost use Rattle.session_answers.specs.Frames.{line_frame};
ghost use Rattle.session_answers.specs.Profiles.{given_of, stored_of, uploads_of};
ghost use Rattle.session_answers.specs.Stored.{by_text, most_uploads, stored_after, upload_of};

use crate::frames::{line_frame, refusal_frame};
use crate::naming::{upload_name, upload_reply};
use crate::profiles::Profiles;
use crate::refusal::Refusal;
use context_check::{CheckError, Overrides, check};
use lookup_table::Table;
use profile_text::{Profile, TextError};
use route_http::{Kind, frame};
use std::alloc::{AllocError, Global};

/// The most uploads that are stored.
const MOST_UPLOADS: usize = 64;

/// The frame that answers an upload of this text. The profile is stored exactly where its frame
/// tells its name; where memory runs out, nothing is stored.
pub fn upload(
    alloc: Global,
    table: &Table,
    profiles: &mut Profiles,
    text: &[u8],
) -> Result<Vec<u8>, AllocError>
    requires fits { length text.now < 2 ^ 32 }
    ensures exact { let uploaded = upload_of table.now (uploads_of profiles.old) text.now in
        IfOk result (λ frame. frame.items ≡ uploaded.frame) }
    ensures stored { let uploaded = upload_of table.now (uploads_of profiles.old) text.now in
        OnOk result (stored_of profiles.new ≡ stored_of profiles.old ++ uploaded.added) }
    ensures kept { OnErr result (stored_of profiles.new ≡ stored_of profiles.old) }
    ensures given { given_of profiles.new ≡ given_of profiles.old }
{
    match Profile::read(alloc, text) {
        Ok(profile) => checked(alloc, table, profiles, profile),
        Err(error) => no_profile(alloc, error),
    }
}

/// The frame of a text that is no profile. Want of memory is no reason.
fn no_profile(alloc: Global, error: TextError) -> Result<Vec<u8>, AllocError>
    ensures exact { IfOk result (λ frame. frame.items ≡ line_frame 422 (text_line error)) }
    ensures reason { IfOk result (λ _. error ≢ text_error.NoMemory) }
{
    match error {
        TextError::NoMemory => Err(AllocError),
        other => {
            let line = other.line(alloc)?;
            line_frame(alloc, 422, line.into_bytes())
        }
    }
}

/// The frame that answers an upload of a profile.
fn checked(
    alloc: Global,
    table: &Table,
    profiles: &mut Profiles,
    profile: Profile,
) -> Result<Vec<u8>, AllocError>
    ensures exact { let uploaded =
        by_text table.now (uploads_of profiles.old) (Ok (sections_in profile)) in
        IfOk result (λ frame. frame.items ≡ uploaded.frame) }
    ensures stored { let uploaded =
        by_text table.now (uploads_of profiles.old) (Ok (sections_in profile)) in
        OnOk result (stored_of profiles.new ≡ stored_of profiles.old ++ uploaded.added) }
    ensures kept { OnErr result (stored_of profiles.new ≡ stored_of profiles.old) }
    ensures given { given_of profiles.new ≡ given_of profiles.old }
{
    match judged(alloc, table, &profile) {
        Ok(()) => accepted(alloc, profiles, profile),
        Err(error) => unfit(alloc, error),
    }
}

/// Whether a profile is accepted by the check without overrides.
fn judged(alloc: Global, table: &Table, profile: &Profile) -> Result<(), CheckError>
    ensures exact { Passes (refusal_of table.now (sections_in profile.now) []) check_error.NoMemory
        result }
{
    let none = Overrides::new(alloc);
    match check(alloc, profile, table, &none) {
        Ok(_) => Ok(()),
        Err(error) => Err(error),
    }
}

/// The frame of a profile that the check refuses. Want of memory is no reason.
fn unfit(alloc: Global, error: CheckError) -> Result<Vec<u8>, AllocError>
    ensures exact { IfOk result (λ frame. frame.items ≡ line_frame 422 (check_line error)) }
    ensures reason { IfOk result (λ _. error ≢ check_error.NoMemory) }
{
    match error {
        CheckError::NoMemory => Err(AllocError),
        other => {
            let line = other.line(alloc)?;
            line_frame(alloc, 422, line.into_bytes())
        }
    }
}

/// The frame that answers an upload of a profile that the check accepts.
fn accepted(alloc: Global, profiles: &mut Profiles, profile: Profile) -> Result<Vec<u8>, AllocError>
    ensures exact { let uploaded = stored_after (uploads_of profiles.old) (sections_in profile) in
        IfOk result (λ frame. frame.items ≡ uploaded.frame) }
    ensures stored { let uploaded = stored_after (uploads_of profiles.old) (sections_in profile) in
        OnOk result (stored_of profiles.new ≡ stored_of profiles.old ++ uploaded.added) }
    ensures kept { OnErr result (stored_of profiles.new ≡ stored_of profiles.old) }
    ensures given { given_of profiles.new ≡ given_of profiles.old }
{
    if profiles.uploads() == MOST_UPLOADS {
        refusal_frame(alloc, Refusal::UploadsFull)
    } else {
        stored(alloc, profiles, profile)
    }
}

/// The frame of a profile that is stored. It is made first, so that nothing is stored where memory
/// runs out.
fn stored(alloc: Global, profiles: &mut Profiles, profile: Profile) -> Result<Vec<u8>, AllocError>
    requires room { uploads_of profiles.old < most_uploads }
    ensures exact { let uploaded = stored_after (uploads_of profiles.old) (sections_in profile) in
        IfOk result (λ frame. frame.items ≡ uploaded.frame) }
    ensures stored { let uploaded = stored_after (uploads_of profiles.old) (sections_in profile) in
        OnOk result (stored_of profiles.new ≡ stored_of profiles.old ++ uploaded.added) }
    ensures kept { OnErr result (stored_of profiles.new ≡ stored_of profiles.old) }
    ensures given { given_of profiles.new ≡ given_of profiles.old }
{
    let name = upload_name(alloc, profiles.uploads() as u64 + 1)?;
    let body = upload_reply(alloc, name.as_slice())?;
    let answer = frame(alloc, 200, Kind::Json, body.as_slice())?;
    profiles.store(name, profile)?;
    Ok(answer)
}
