//! A section's operations, one after the other.
ghost use Rattle.std.specs.Prelude.{◌≡◌, ◌≢◌, ◌^◌, ◌<◌, length};
ghost use Rattle.profile_code.specs.Machine.{Stuck, run_of};
ghost use Rattle.profile_code.specs.Runs.{ended};
ghost use Rattle.profile_code.specs.Step.{given_of};

use crate::fault::Fault;
use crate::instr::Instr;
use crate::stack::Stack;
use crate::step::step;
use crate::values::Values;
use fixed_num::{Arith, Num};

/// Runs a section's operations: `own` has its values then, or those before the fault.
pub(crate) fn run_section(
    instrs: &[Instr],
    numbers: &[u16],
    global: &[Num],
    stack: &mut Stack,
    own: &mut Values,
) -> Result<(), Fault>
    requires ready { let given = given_of numbers.now global.now stack.old own.old in
        run_of given instrs.now ≢ Stuck }
    requires fits { own.old.room < 2 ^ 32 }
    ensures exact { let given = given_of numbers.now global.now stack.old own.old in
        run_of given instrs.now ≡ ended result own.new.numbers }
    ensures same { stack.new.room ≡ stack.old.room }
    ensures kept { own.new.room ≡ own.old.room }
{
    stack.clear();
    own.clear();
    let mut at = 0;
    'run: while at < instrs.len() {
        match step(&instrs[at], numbers, global, stack, own) {
            Ok(passed) => at = at.saturating_add(passed).saturating_add(1),
            Err(kind) => return Err(fault_after(own, kind)),
        }
    }
    Ok(())
}

/// The fault of the value after these.
fn fault_after(own: &Values, kind: Arith) -> Fault
    requires fits { own.now.room < 2 ^ 32 }
    ensures exact { result ≡ record { variable = length own.now.numbers; kind = kind } }
{
    Fault {
        variable: own.as_slice().len() as u32,
        kind,
    }
}
