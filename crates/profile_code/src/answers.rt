//! The runs of code as the machine makes them.
ghost use Rattle.std.specs.Prelude.{◌≡◌, length, OnOk};
ghost use Rattle.profile_code.specs.Effects.{global_numbers, node_number, way_numbers};
ghost use Rattle.profile_code.specs.Flat.{tags_of};
ghost use Rattle.profile_code.specs.Runs.{AnswersGlobal, AnswersPart, part_run};
ghost use Rattle.profile_code.specs.Scratch.{HoldsGlobals, IsScratchOf};

use crate::code::Code;
use crate::effects::number_at;
use crate::fault::Fault;
use crate::run::run_section;
use crate::scratch::Scratch;
use crate::way_effects::WayValues;
use fixed_num::Num;
use lookup_table::Part;

/// The global section's run.
pub(crate) fn global_answer(code: &Code, scratch: &mut Scratch) -> Result<[Num; 7], Fault>
    requires made { IsScratchOf code.now scratch.old }
    ensures exact { AnswersGlobal global_numbers code.now result }
    ensures kept { IsScratchOf code.now scratch.new }
    ensures held { OnOk result (HoldsGlobals code.now scratch.new) }
{
    let instrs = code.global_instrs();
    run_section(instrs, &[], &[], &mut scratch.stack, &mut scratch.global)?;
    Ok(scratch.global_places.numbers(scratch.global.as_slice()))
}

/// The way section's run.
pub(crate) fn way_answer(
    code: &Code,
    numbers: &[u16],
    scratch: &mut Scratch,
) -> Result<WayValues, Fault>
    requires held { HoldsGlobals code.now scratch.old }
    requires fits { length numbers.now ≡ tags_of code.now Part.Way }
    ensures exact { let run = part_run code.now Part.Way numbers.now scratch.old in
        AnswersPart way_numbers run result }
    ensures kept { HoldsGlobals code.now scratch.new }
{
    run_section(
        code.own_instrs(Part::Way),
        numbers,
        scratch.global.as_slice(),
        &mut scratch.stack,
        &mut scratch.way,
    )?;
    Ok(scratch.way_places.numbers(scratch.way.as_slice()))
}

/// The node section's run.
pub(crate) fn node_answer(code: &Code, numbers: &[u16], scratch: &mut Scratch) -> Result<Num, Fault>
    requires held { HoldsGlobals code.now scratch.old }
    requires fits { length numbers.now ≡ tags_of code.now Part.Node }
    ensures exact { let run = part_run code.now Part.Node numbers.now scratch.old in
        AnswersPart node_number run result }
    ensures kept { HoldsGlobals code.now scratch.new }
{
    run_section(
        code.own_instrs(Part::Node),
        numbers,
        scratch.global.as_slice(),
        &mut scratch.stack,
        &mut scratch.node,
    )?;
    Ok(number_at(scratch.node.as_slice(), scratch.node_place, 0))
}
