//! A bicycle route server whose answers are proved: the program.
#![tactic(auto)]

use route_run::program;
use std::process::ExitCode;

fn main(rt: HostRuntime) -> ExitCode {
    program(&rt)
}
