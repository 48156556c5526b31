//! The classes of bytes that all texts of the project share.

ghost use Rattle.std.specs.List.{prefix_len};
ghost use Rattle.std.specs.Prelude.{◌≡◌, ◌≤◌, length};
ghost use Rattle.item_list.specs.Bytes.{base_name, is_digit, is_other, is_space};

/// Whether a byte is white space: 9 to 13, or 32.
pub fn is_space(byte: u8) -> bool
    ensures exact { result ≡ is_space byte }
{
    (9 <= byte && byte <= 13) || byte == 32
}

/// Whether a byte is a decimal digit.
pub fn is_digit(byte: u8) -> bool
    ensures exact { result ≡ is_digit byte }
{
    b'0' <= byte && byte <= b'9'
}

/// How many bytes of a text stand before the first that is this one; all where none is.
pub fn len_before(text: &[u8], byte: u8) -> usize
    ensures value { result ≡ prefix_len (is_other byte) text.now }
    ensures fits { result ≤ length text.now }
{
    for (i, c) in text.iter().enumerate() {
        if *c == byte {
            return i;
        }
    }
    text.len()
}

/// What follows the last slash of a path, which is all of it where there is none.
pub fn base_name(path: &[u8]) -> &[u8]
    ensures exact { result.now ≡ base_name path.now }
{
    let mut start = path.len();
    'back: while start > 0 && path[start - 1] != b'/' {
        start -= 1;
    }
    &path[start..]
}
