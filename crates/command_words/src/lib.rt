//! The words of a command line: which command they are, what they give it, and what the program
//! tells of itself.
#![tactic(auto)]

mod addresses;
mod command;
mod completing;
mod details;
mod entry;
mod file_names;
mod help;
mod keys;
mod meanings;
mod reader;
mod reason;
mod rows;
mod shown;
mod usage;
mod value;

pub use command::{
    CheckCommand, CodeCommand, Command, GridCommand, HillsCommand, MakeCommand, RouteCommand,
    ServeCommand, WithinCommand, command_of,
};
pub use entry::FileWord;
pub use file_names::{is_profile_file, profile_name};
pub use help::told_text;
pub use reader::Refusal;
pub use shown::append_shown;
pub use usage::append_usage;
pub use value::{Place, Product};
