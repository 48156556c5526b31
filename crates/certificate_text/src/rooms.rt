//! How much room the labels of a text take, counted before they are read.

ghost use Rattle.std.specs.Prelude.{◌≤◌, length};

use memchr::memchr;

/// How many lines at a text's front begin as those of labels.
pub(crate) fn labels_in(text: &[u8]) -> usize
    ensures fits { result ≤ length text.now }
{
    let mut count = 0;
    let mut rest = text;
    'lines: while rest.starts_with(b"la") {
        let Some(end) = memchr(b'\n', rest) else {
            return count;
        };
        let (_, after) = rest.split_at(end + 1);
        rest = after;
        count += 1;
    }
    count
}
