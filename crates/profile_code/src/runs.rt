//! The runs of a profile's code.
ghost use Rattle.std.specs.Prelude.{◌≡◌, ◌↔◌, length, IsSome, IsTrue, OnOk};
ghost use Rattle.context_check.specs.Checked.{Subject};
ghost use Rattle.context_check.specs.Refusal.{names_in};
ghost use Rattle.profile_code.specs.Correct.{IsCodeOf};
ghost use Rattle.profile_code.specs.Effects.{global_numbers, node_number, value_at, way_numbers};
ghost use Rattle.profile_code.specs.Flat.{tags_of};
ghost use Rattle.profile_code.specs.Runs.{AnswersGlobal, AnswersOwn, AnswersPart, AnswersSection, IsValueOf, part_run};
ghost use Rattle.profile_code.specs.Scratch.{HoldsGlobals, IsScratchOf, held_values};
ghost use Rattle.profile_text.specs.Meaning.{global_values};
ghost use Rattle.profile_text.specs.Names.{is_among, last_place};

use crate::answers::{global_answer, node_answer, way_answer};
use crate::code::Code;
use crate::effects::value_at;
use crate::fault::Fault;
use crate::scratch::Scratch;
use crate::way_effects::WayValues;
use fixed_num::Num;
use lookup_table::Part;
use profile_text::Section;

/// Runs the global section. The answer has its seven names in order: `uphillcost`, `downhillcost`,
/// `uphillcutoff`, `downhillcutoff`, `elevationpenaltybuffer`, `elevationmaxbuffer` and
/// `elevationbufferreduce`.
pub fn run_global(code: &Code, scratch: &mut Scratch) -> Result<[Num; 7], Fault>
    requires made { IsScratchOf code.now scratch.old }

    ensures exact { AnswersGlobal global_numbers code.now result }
    ensures meaning { (subject : Subject) → IsCodeOf subject code.now →
        AnswersSection global_numbers (global_values subject.overrides subject.sections) result }

    ensures kept { IsScratchOf code.now scratch.new }
    ensures held { OnOk result (HoldsGlobals code.now scratch.new) }
{
    global_answer(code, scratch)
}

/// Runs the way section on the tag numbers of a way. The values of the global section are those of
/// its last run, which met no fault.
pub fn run_way(code: &Code, numbers: &[u16], scratch: &mut Scratch) -> Result<WayValues, Fault>
    requires held { HoldsGlobals code.now scratch.old }
    requires fits { length numbers.now ≡ tags_of code.now Part.Way }

    ensures exact { let run = part_run code.now Part.Way numbers.now scratch.old in
        AnswersPart way_numbers run result }
    ensures meaning { (subject : Subject) → IsCodeOf subject code.now →
        AnswersOwn way_numbers subject Part.Way numbers.now result }

    ensures kept { HoldsGlobals code.now scratch.new }
{
    way_answer(code, numbers, scratch)
}

/// Runs the node section on the tag numbers of a node. The answer is `initialcost`.
pub fn run_node(code: &Code, numbers: &[u16], scratch: &mut Scratch) -> Result<Num, Fault>
    requires held { HoldsGlobals code.now scratch.old }
    requires fits { length numbers.now ≡ tags_of code.now Part.Node }

    ensures exact { let run = part_run code.now Part.Node numbers.now scratch.old in
        AnswersPart node_number run result }
    ensures meaning { (subject : Subject) → IsCodeOf subject code.now →
        AnswersOwn node_number subject Part.Node numbers.now result }

    ensures kept { HoldsGlobals code.now scratch.new }
{
    node_answer(code, numbers, scratch)
}

/// The value that the global section gave a name last.
pub fn global_value(code: &Code, scratch: &Scratch, name: &[u8]) -> Option<Num>
    requires held { HoldsGlobals code.now scratch.now }

    ensures exact { let place = last_place code.now.global.names name.now in
        result ≡ value_at (held_values scratch.now) place }
    ensures meaning { (subject : Subject) → IsCodeOf subject code.now →
        IsValueOf subject name.now result }
    ensures found { (subject : Subject) → IsCodeOf subject code.now →
        IsSome result ↔ IsTrue (is_among (names_in subject.sections.global) name.now) }
{
    let place = code.section(Section::Global).names().last(name);
    value_at(scratch.global.as_slice(), place)
}
