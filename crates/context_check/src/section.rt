//! The first thing at fault in a section.
ghost use Rattle.std.specs.Option.{option_or};
ghost use Rattle.std.specs.Prelude.{◌≡◌, [], map, IfOk};
ghost use Rattle.context_check.specs.Context.{context_of};
ghost use Rattle.context_check.specs.Effects.{global_names};
ghost use Rattle.context_check.specs.Refusal.{expr_refusal, name_refusal, names_in, section_refusal};
ghost use Rattle.context_check.specs.declared.error.CheckError.TheVariants.{NoMemory};
ghost use Rattle.item_list.specs.Answer.{Passes};
ghost use Rattle.profile_text.specs.Expr.{assignment_in, tree_of};
ghost use Rattle.profile_text.specs.Names.{is_among};

use crate::context::Context;
use crate::error::CheckError;
use crate::expr::expr_fault;
use profile_text::{Assign, Names, Section};
use std::alloc::Global;

/// The names that a section assigns, where nothing is at fault in it.
pub(crate) fn section_names(
    alloc: Global,
    context: &Context,
    assignments: &[Assign],
) -> Result<Names, CheckError>
    ensures value { IfOk result (λ names. names ≡ names_in (map assignment_in assignments.now)) }
    ensures exact { let assigned = map assignment_in assignments.now in
        Passes (section_refusal (context_of context.now) [] assigned) NoMemory result }
{
    let mut own = Names::new(alloc);
    'assignments: for assign in assignments {
        if let Some(fault) = assignment_fault(context, &own, assign) {
            return Err(fault);
        }
        own.push(alloc, assign.name.as_slice())?;
    }
    Ok(own)
}

/// The first thing at fault in an assignment: its own name is looked at before its expression.
fn assignment_fault(context: &Context, own: &Names, assign: &Assign) -> Option<CheckError>
    ensures exact { let name = name_refusal context.now.section (assignment_in assign.now) in
        let tree = tree_of assign.now.value in
        result ≡ option_or name (expr_refusal (context_of context.now) own.now tree) }
{
    match name_fault(context.section, assign) {
        Some(fault) => Some(fault),
        None => expr_fault(context, own, &assign.value),
    }
}

/// Why an assignment can't stand in a section: its name is one of the global section.
fn name_fault(section: Section, assign: &Assign) -> Option<CheckError>
    ensures exact { result ≡ name_refusal section (assignment_in assign.now) }
{
    match section {
        Section::Way => {
            if is_global_name(assign.name.as_slice()) {
                Some(CheckError::WrongSection { line: assign.line })
            } else {
                None
            }
        }
        Section::Global | Section::Node => None,
    }
}

/// Whether a name is one of the seven of the global section.
fn is_global_name(name: &[u8]) -> bool
    ensures exact { result ≡ is_among global_names name.now }
{
    name == b"uphillcost".as_slice()
        || name == b"downhillcost".as_slice()
        || name == b"uphillcutoff".as_slice()
        || name == b"downhillcutoff".as_slice()
        || name == b"elevationpenaltybuffer".as_slice()
        || name == b"elevationmaxbuffer".as_slice()
        || name == b"elevationbufferreduce".as_slice()
}
