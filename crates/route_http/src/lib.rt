//! The requests of the server: the head of a request, what a query asks for or why it is refused,
//! and the frame of a reply.
#![tactic(auto)]

mod asked;
mod circles;
mod draft;
mod draft_more;
mod ends;
mod error;
mod fields;
mod form;
mod frames;
mod heads;
mod key;
mod kind;
mod listed;
mod numbers;
mod parts;
mod query;
mod reading;
mod span;
mod spots;
mod target;
mod value;
mod variable;

pub use asked::Request;
pub use ends::head_end_from;
pub use error::RequestError;
pub use form::Form;
pub use frames::frame;
pub use heads::{Head, Method};
pub use key::Key;
pub use kind::Kind;
pub use query::{costed_request, lined_request, request, tabled_request};
pub use reading::{head, head_from};
pub use span::Span;
