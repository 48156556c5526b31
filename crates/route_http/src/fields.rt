//! What the header lines of a request say of its body.
ghost use Rattle.std.specs.Prelude.{◌≡◌, length, All, map};
ghost use Rattle.httparse.specs.Spans.{IsHeaderWithin, header_bytes};
ghost use Rattle.route_http.specs.Fields.{same_name, number_of, body_of};
ghost use Rattle.route_http.specs.Told.{told_more};

use httparse::spans::HeaderSpan;

/// The length of the body that header lines tell; none where they tell none soundly.
pub(crate) fn body_of(head: &[u8], headers: &[HeaderSpan]) -> Option<u64>
    requires within { All (IsHeaderWithin (length head.now)) headers.now }
    ensures exact { result ≡ body_of (map (header_bytes head.now) headers.now) }
{
    let mut told = None;
    'headers: for header in headers {
        told = told_more(told, header.name.of(head), header.value.of(head))?;
    }
    Some(told.unwrap_or(0))
}

/// What is told of the body's length after one more header line; none where it can't be told
/// soundly any more.
fn told_more(told: Option<u64>, name: &[u8], value: &[u8]) -> Option<Option<u64>>
    ensures exact { result ≡ told_more told (name.now, value.now) }
{
    if is_named(name, b"transfer-encoding") {
        return None;
    }
    if !is_named(name, b"content-length") {
        return Some(told);
    }
    if told.is_some() {
        return None;
    }
    let number = number_of(value)?;
    Some(Some(number))
}

/// Whether two names are one, whatever the case of their ASCII letters.
fn is_named(name: &[u8], word: &[u8]) -> bool
    ensures exact { result ≡ same_name name.now word.now }
{
    name.eq_ignore_ascii_case(word)
}

/// The number of one digit or more, or the greatest number where it is larger.
#[tactic(auto, unfolding(crate::specs::Fields::number_of))]
fn number_of(text: &[u8]) -> Option<u64>
    ensures exact { result ≡ number_of text.now }
{
    if text.is_empty() {
        return None;
    }
    let mut number: u64 = 0;
    'digits: for byte in text {
        if !byte.is_ascii_digit() {
            return None;
        }
        number = number
            .saturating_mul(10)
            .saturating_add(u64::from(*byte - b'0'));
    }
    Some(number)
}
