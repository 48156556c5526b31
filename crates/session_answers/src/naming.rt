//! The names of uploads, and what is answered to one that is stored.

ghost use Rattle.std.specs.Prelude.{◌≡◌, ℕ, IfOk};
ghost use Rattle.session_answers.specs.Stored.{upload_name, upload_reply};

use item_list::{Name, append_bytes, append_named};
use std::alloc::{AllocError, Global};

/// The name of an upload, counted from 1.
pub(crate) fn upload_name(alloc: Global, number: u64) -> Result<Name, AllocError>
    ensures exact { IfOk result (λ name. name ≡ upload_name number) }
{
    let mut text = Vec::new(alloc);
    append_named(&mut text, b"custom_", number)?;
    Ok(Name::from_vec(text))
}

/// What is answered to a stored upload, by its name: one line that tells the name.
pub(crate) fn upload_reply(alloc: Global, name: &[u8]) -> Result<Vec<u8>, AllocError>
    ensures exact { (number : ℕ) → name.now ≡ upload_name number →
        IfOk result (λ text. text.items ≡ upload_reply number) }
{
    let mut text = Vec::new(alloc);
    append_bytes(&mut text, b"{\"profileid\":\"")?;
    append_bytes(&mut text, name)?;
    append_bytes(&mut text, b"\"}\n")?;
    Ok(text)
}
