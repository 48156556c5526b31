//! The outside in memory: sinks, files and hubs that tell all that they hold, for tables of cases.
#![tactic(auto)]

mod cue;
mod ids;
mod memory;
mod memory_files;
mod memory_hub;
mod note;
mod script;
mod stage;
mod tape;

pub use memory::MemSink;
pub use memory_files::MemFiles;
pub use memory_hub::MemHub;
pub use script::{Script, can_play};
