//! Names of files among the words.

ghost use Rattle.std.specs.List.{list_all};
ghost use Rattle.std.specs.Prelude.{◌≡◌};
ghost use Rattle.command_words.specs.FileNames.{is_name_byte, is_profile_file, is_profile_name, profile_name, stem};

use item_list::base_name;

/// Whether a text is a path of a profile's file: its last part, without `.brf`, is 1 to 64 letters,
/// digits, `_` or `-`, and doesn't begin with `custom_`, as the names of uploaded profiles do.
#[tactic(auto, unfolding(crate::specs::FileNames::is_profile_file))]
pub fn is_profile_file(path: &[u8]) -> bool
    ensures exact { result ≡ is_profile_file path.now }
{
    is_profile_name(profile_name(path))
}

/// The name of the profile of a file: its last part, without `.brf`.
pub fn profile_name(path: &[u8]) -> &[u8]
    ensures exact { result.now ≡ profile_name path.now }
{
    stem(base_name(path))
}

/// A name without a last `.brf`.
fn stem(name: &[u8]) -> &[u8]
    ensures exact { result.now ≡ stem name.now }
{
    if name.ends_with(b".brf") {
        &name[..name.len() - 4]
    } else {
        name
    }
}

/// Whether a text is a name for a profile.
fn is_profile_name(name: &[u8]) -> bool
    ensures exact { result ≡ is_profile_name name.now }
{
    !name.is_empty() && name.len() <= 64 && are_name_bytes(name) && !name.starts_with(b"custom_")
}

/// Whether all bytes are letters, digits, `_` or `-`.
fn are_name_bytes(name: &[u8]) -> bool
    ensures exact { result ≡ list_all is_name_byte name.now }
{
    'bytes: for byte in name {
        if !is_name_byte(*byte) {
            return false;
        }
    }
    true
}

/// Whether a byte is a letter, a digit, `_` or `-`.
fn is_name_byte(byte: u8) -> bool
    ensures exact { result ≡ is_name_byte byte }
{
    byte.is_ascii_alphanumeric() || byte == b'_' || byte == b'-'
}
