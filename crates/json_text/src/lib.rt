//! JSON texts, in whatever pieces they come, read into steps.
#![tactic(auto)]

mod bytes;
mod content;
mod entries;
mod given;
mod machine;
mod mode;
mod quoted;
mod reading;
mod runs;
mod scanner;
mod step;

pub use reading::{few_steps, fixed_steps, lasting_faults, one_reading};
pub use scanner::Scanner;
pub use step::{JsonAnswer, JsonStep, Verdict};
