//! What comes from files: the stages of commands over them, one after the other, and how a command
//! ends.
#![tactic(auto)]

mod certificate;
mod checked;
mod file;
mod lines;
mod map;
mod map_error;
mod map_reading;
mod note_lines;
mod notes;
mod profile;
mod profiles;
mod query;
mod status;
mod tag_table;
mod tiles;
mod world;

pub use certificate::take_certificate;
pub use checked::take_checked;
pub use lines::{certificate_line, map_line, refuted_line, tile_line};
pub use map::take_map;
pub use map_error::MapFileError;
pub use map_reading::read_map;
pub use note_lines::note_on;
pub use notes::Notes;
pub use profile::take_profile;
pub use profiles::take_profiles;
pub use query::{lined_in, query_in, tabled_in};
pub use status::Status;
pub use tag_table::take_table;
pub use tiles::take_tiles;
pub use world::{Offered, take_world};
