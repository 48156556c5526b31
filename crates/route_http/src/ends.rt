//! Where a head ends.
ghost use Rattle.std.specs.Prelude.{◌≡◌, ◌≤◌, length, take, None, IfSome};
ghost use Rattle.route_http.specs.Ends.{empty_line, end_of};

/// Where the first empty line ends, where none ends within the first `from` bytes. So bytes that
/// come piece by piece are looked at once: `from` is how many there were before.
pub fn head_end_from(bytes: &[u8], from: usize) -> Option<usize>
    requires fits { from ≤ length bytes.now }
    requires none { end_of (take from bytes.now) ≡ None }
    ensures exact { result ≡ end_of bytes.now }
    ensures fits { IfSome result (λ end. end ≤ length bytes.now) }
{
    let start = from.saturating_sub(2);
    match first_end(&bytes[start..]) {
        Some(end) => Some(start + end),
        None => None,
    }
}

/// Where the first empty line ends.
fn first_end(bytes: &[u8]) -> Option<usize>
    ensures exact { result ≡ end_of bytes.now }
    ensures fits { IfSome result (λ end. end ≤ length bytes.now) }
{
    'places: for at in 0..bytes.len() {
        match empty_line(&bytes[at..]) {
            Some(long) => return Some(at + long),
            None => {}
        }
    }
    None
}

/// How many bytes a line feed and an empty line after it take, where `bytes` begin with them.
#[tactic(auto, unfolding(crate::specs::Ends::empty_line))]
fn empty_line(bytes: &[u8]) -> Option<usize>
    ensures exact { result ≡ empty_line bytes.now }
    ensures fits { IfSome result (λ long. long ≤ length bytes.now) }
{
    if bytes.starts_with(b"\n\n") {
        Some(2)
    } else if bytes.starts_with(b"\n\r\n") {
        Some(3)
    } else {
        None
    }
}
