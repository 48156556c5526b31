//! Profiles as flat code: operations with jumps on a stack, which give what the profile's
//! expressions give.
#![tactic(auto)]

mod answers;
mod code;
mod compiler;
mod effects;
mod emit;
mod fault;
mod global_effects;
mod instr;
mod labels;
mod lister;
mod look;
mod operands;
mod operators;
mod run;
mod runs;
mod scope;
mod scratch;
mod section;
mod stack;
mod step;
mod values;
mod way_effects;
mod words;

pub use code::Code;
pub use compiler::compile;
pub use fault::Fault;
pub use lister::{listing, variable_name};
pub use profile_text::Section;
pub use runs::{global_value, run_global, run_node, run_way};
pub use scratch::Scratch;
pub use way_effects::WayValues;
