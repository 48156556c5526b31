//! One list type for every public field and result that contracts see as a list, names, and what
//! all replies are built of.
#![tactic(auto)]

mod append;
mod bytes;
mod compared;
mod counts;
mod items;
mod names;
mod numbers;
mod paged;
mod try_clone;
mod turn;

pub use append::{append_bytes, append_named, append_number, append_signed, append_wide, bytes_of};
pub use bytes::{base_name, is_digit, is_space, len_before};
pub use counts::{narrow, next_number};
pub use items::Items;
pub use names::{Name, Tags};
pub use paged::Paged;
pub use try_clone::TryClone;
pub use turn::Turn;
