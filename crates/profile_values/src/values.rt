//! The values of a profile's sections for a way or a node.
ghost use Rattle.std.specs.Prelude.{◌≡◌, ◌⊎◌, [], map, length, Ok, IfOk, IfErr, MatchResult};
ghost use Rattle.lookup_table.specs.First.{rows_of};
ghost use Rattle.profile_values.specs.declared.value_error.ValueError.TheVariants.{NoMemory};
ghost use Rattle.profile_text.specs.Expr.{assignment_in, sections_in, tree_of};
ghost use Rattle.profile_text.specs.Meaning.{assignments_of, values_from};
ghost use Rattle.profile_values.specs.Evaluated.{value_in};
ghost use Rattle.profile_values.specs.Scope.{looks_among};
ghost use Rattle.profile_values.specs.Vars.{AreVarsOf, IsRefusedBy, IsSaidOf, both_values};

use crate::assigned::Assigned;
use crate::evaluate::evaluate;
use crate::fault::Fault;
use crate::scope::{Scope, Tagged};
use crate::value_error::ValueError;
use crate::vars::{Vars, copied, vars_of};
use fixed_num::Num;
use lookup_table::{Part, Table};
use profile_text::{Assign, Profile};
use std::alloc::Global;

/// The variables of a profile for the tag numbers of a way or a node: the global section is
/// evaluated, without overrides, and then the part's own. Of a name that is assigned more than once
/// the later value is kept.
pub fn section_values<'a>(
    alloc: Global,
    profile: &Profile,
    table: &'a Table,
    part: Part,
    numbers: &'a [u16],
) -> Result<Vars, ValueError>
    requires fits { length numbers.now ≡ length (rows_of table.now part) }
    ensures value { let all = both_values table.now (sections_in profile.now) part numbers.now in
        IfOk result (λ vars. AreVarsOf all vars) }

    ensures refused { let all = both_values table.now (sections_in profile.now) part numbers.now in
        IfErr result (λ e. (e ≡ NoMemory) ⊎ IsRefusedBy all e) }
{
    let tagged = Tagged::new(table, part, numbers);
    let none = Assigned::new(alloc);
    let global = assigned(alloc, &none, &tagged, false, profile.global.as_slice())?;
    let own = assigned(alloc, &global, &tagged, true, assignments(profile, part))?;
    let vars = vars_of(alloc, &global, &own)?;
    Ok(vars)
}

/// The assignments of the section that belongs to a part.
fn assignments(profile: &Profile, part: Part) -> &[Assign]
    ensures value { map assignment_in result.now
        ≡ assignments_of (sections_in profile.now) part }
{
    match part {
        Part::Way => profile.way.as_slice(),
        Part::Node => profile.node.as_slice(),
    }
}

/// The values of the assignments of a section, after those of the global one.
fn assigned<'s, 't>(
    alloc: Global,
    global: &'s Assigned,
    tagged: &'s Tagged<'t>,
    has_looks: bool,
    assignments: &[Assign],
) -> Result<Assigned, ValueError>
    ensures exact { let looks = looks_among has_looks tagged.now in
        let values = values_from looks global.now [] (map assignment_in assignments.now) in
        MatchResult result (λ own. values ≡ Ok own)
        (λ e. (e ≡ NoMemory) ⊎ IsRefusedBy values e) }
{
    let mut own = Assigned::new(alloc);
    'assignments: for assign in assignments {
        let scope = Scope {
            global,
            own: &own,
            tagged,
            has_looks,
        };
        let number = number_of(alloc, assign, &scope)?;
        own.push(alloc, assign.name.as_slice(), number)?;
    }
    Ok(own)
}

/// The value of an assignment.
fn number_of(alloc: Global, assign: &Assign, scope: &Scope) -> Result<Num, ValueError>
    ensures exact { let value = value_in scope.now (tree_of assign.now.value) in
        MatchResult result (λ n. value ≡ Ok n)
        (λ e. (e ≡ NoMemory) ⊎ IsSaidOf assign.now.name value e) }
{
    match evaluate(&assign.value, scope) {
        Ok(number) => Ok(number),
        Err(Fault::Unknown(line)) => Err(ValueError::Unbound { line }),
        Err(Fault::Faulty(kind)) => {
            let name = copied(alloc, assign.name.as_slice())?;
            Err(ValueError::Arith { name, kind })
        }
    }
}
