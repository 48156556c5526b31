//! The connections of a server: what is kept of each, what each is sent, the turns over a hub, and
//! the laws of its runs.
#![tactic(auto)]

mod changes;
mod desk;
mod guiding;
mod hall;
mod law;
mod opening;
mod peer;
mod peers;
mod pieces;
mod queue;
mod reading;
mod ready_frames;
mod readying;
mod room;
mod serve_end;
mod serving;
mod stepping;
mod sweeping;
mod turn;
mod waiting;
mod working;

pub use hall::Hall;
pub use law::{accepted_uploads_are_stored, connections_keep_apart};
pub use serve_end::ServeEnd;
pub use turn::serve;
pub use waiting::each_wait_ends;
