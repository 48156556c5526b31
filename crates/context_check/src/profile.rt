//! Whether a profile may be used with a tag table and overrides.
ghost use Rattle.std.specs.Prelude.{◌≡◌, ◌<◌, ◌^◌, length, map, IfOk};
ghost use Rattle.context_check.specs.Checked.{IsDefined, Subject};
ghost use Rattle.context_check.specs.Refusal.{names_in, override_refusal, refusal_of, sections_refusal};
ghost use Rattle.context_check.specs.Subject.{subject_of};
ghost use Rattle.context_check.specs.declared.error.CheckError.TheVariants.{NoMemory};
ghost use Rattle.item_list.specs.Answer.{Passes};
ghost use Rattle.profile_text.specs.Expr.{assignment_in, sections_in};

use crate::checked::Checked;
use crate::context::Context;
use crate::error::CheckError;
use crate::overrides::Overrides;
use crate::section::section_names;
use fixed_num::Num;
use lookup_table::{Name, Table};
use profile_text::{Assign, Names, Profile, Section};
use std::alloc::{AllocError, Global};

/// The profile with the tag table and the overrides, or the first thing at fault: in the overrides,
/// then in the global section, that of the ways and that of the nodes.
#[tactic(auto, unfolding(crate::specs::Refusal::refusal_of))]
pub fn check<'a>(
    alloc: Global,
    profile: &'a Profile,
    table: &'a Table,
    overrides: &'a Overrides,
) -> Result<Checked<'a>, CheckError>
    ensures value { let subject : Subject = record {
      table = table.now;
      sections = sections_in profile.now;
      overrides = overrides.now;
    } in
        IfOk result (λ c. subject_of c ≡ subject) }
    ensures exact { Passes (refusal_of table.now (sections_in profile.now) overrides.now)
        NoMemory result }
    ensures sound { IfOk result (λ _. IsDefined table.now (sections_in profile.now)) }
{
    let global = names_of(alloc, profile.global.as_slice())?;
    if let Some(fault) = override_fault(overrides.as_slice(), &global) {
        return Err(fault);
    }
    check_sections(alloc, profile, table, &global)?;
    Ok(Checked {
        profile,
        table,
        overrides,
    })
}

/// The names of assignments.
fn names_of(alloc: Global, assignments: &[Assign]) -> Result<Names, AllocError>
    ensures exact { IfOk result (λ names. names ≡ names_in (map assignment_in assignments.now)) }
{
    let mut names = Names::new(alloc);
    'assignments: for assign in assignments {
        names.push(alloc, assign.name.as_slice())?;
    }
    Ok(names)
}

/// The first override whose name isn't one of these.
fn override_fault(overrides: &[(Name, Num)], names: &Names) -> Option<CheckError>
    requires fits { length overrides.now < 2 ^ 32 }
    ensures exact { result ≡ override_refusal 0 overrides.now names.now }
{
    'overrides: for (place, item) in overrides.iter().enumerate() {
        if names.last(item.0.as_slice()).is_none() {
            return Some(CheckError::UnknownOverride {
                place: place as u32,
            });
        }
    }
    None
}

/// Looks at the three sections, the global one first, and last whether ways have a cost factor.
fn check_sections(
    alloc: Global,
    profile: &Profile,
    table: &Table,
    global: &Names,
) -> Result<(), CheckError>
    requires names { global.now ≡ names_in (sections_in profile.now).global }
    ensures exact { Passes (sections_refusal table.now (sections_in profile.now)) NoMemory result }
{
    let none = Names::new(alloc);
    let first = Context {
        table,
        section: Section::Global,
        global: &none,
    };
    let _ = section_names(alloc, &first, profile.global.as_slice())?;
    let of_ways = Context {
        table,
        section: Section::Way,
        global,
    };
    let way = section_names(alloc, &of_ways, profile.way.as_slice())?;
    let of_nodes = Context {
        table,
        section: Section::Node,
        global,
    };
    let _ = section_names(alloc, &of_nodes, profile.node.as_slice())?;
    match way.last(b"costfactor".as_slice()) {
        None => Err(CheckError::NoCostfactor),
        Some(_) => Ok(()),
    }
}
