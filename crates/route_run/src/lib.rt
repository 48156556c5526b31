//! What the program does with words, files, an output and a hub: its commands, their refusals, and
//! how each ends.
#![tactic(auto)]

mod offer;
mod readying;
mod reply;
mod sending;
mod server;
mod system;
mod top;

pub use reply::edge;
pub use server::serve_answer;
pub use system::program;
pub use top::run;
