//! What the first bytes of a connection come to.
ghost use Rattle.std.specs.Prelude.{◌≡◌};
ghost use Rattle.route_http.specs.Heads.{method_of};

use crate::span::Span;

/// The method of a request, as far as a server tells methods apart.
#[derive(Clone, Copy)]
pub enum Method {
    Get,
    Post,
    Other,
}

impl Method {
    /// The method of its name, whose case counts.
    pub(crate) fn of(name: &[u8]) -> Method
        ensures exact { result ≡ method_of name.now }
    {
        if name == b"GET".as_slice() {
            Method::Get
        } else if name == b"POST".as_slice() {
            Method::Post
        } else {
            Method::Other
        }
    }
}

/// What the bytes of a request come to, as far as its head goes.
#[derive(Clone, Copy)]
pub enum Head {
    /// The head is there, and it is one that may be served.
    Whole {
        /// How many bytes the head has; the body follows.
        length: usize,
        method: Method,
        /// The target before its first `?`.
        path: Span,
        /// What follows that `?`; empty where there is none.
        query: Span,
        /// How many bytes the body has, or the greatest number where it has more than can be told.
        body: u64,
    },
    /// The end of the head isn't there yet, and may come.
    More,
    /// The head is there, and it isn't one that may be served.
    Bad,
    /// The head has more than 16,384 bytes.
    TooLong,
}
