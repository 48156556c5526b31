//! The variables that assigned values leave.
ghost use Rattle.std.specs.Prelude.{◌≡◌, ℕ, ℤ, List, [], ◌++◌, IfOk, OnOk};
ghost use Rattle.profile_values.specs.Vars.{AreVars, by_bytes};

use crate::assigned::Assigned;
use fixed_num::Num;
use indexmap::IndexMap;
use item_list::{Items, Name, bytes_of};
use std::alloc::{AllocError, Global};

/// Names with their values.
pub type Vars = Items<(Name, Num)>;

/// The variables that the values of the global section and then those of another leave.
pub(crate) fn vars_of(alloc: Global, global: &Assigned, own: &Assigned) -> Result<Vars, AllocError>
    ensures value { IfOk result (λ vars. AreVars (global.now ++ own.now) vars) }
{
    let mut index = IndexMap::new(alloc);
    gathered(alloc, &mut index, global, own)
}

/// The variables of the values of two sections, gathered in an empty index.
fn gathered(
    alloc: Global,
    index: &mut IndexMap<Vec<u8>, Num>,
    global: &Assigned,
    own: &Assigned,
) -> Result<Vars, AllocError>
    requires empty { index.now.entries ≡ [] }
    ensures value { IfOk result (λ vars. AreVars (global.now ++ own.now) vars) }
{
    put_all(alloc, index, global)?;
    put_all(alloc, index, own)?;
    listed(alloc, index)
}

/// Puts values into an index one after the other.
fn put_all(
    alloc: Global,
    index: &mut IndexMap<Vec<u8>, Num>,
    values: &Assigned,
) -> Result<(), AllocError>
    ensures value { OnOk result
        ((before : List (List ℕ × ℤ))
        → AreVars before (by_bytes index.old.entries)
        → AreVars (before ++ values.now) (by_bytes index.new.entries)) }
{
    'values: for place in 0..values.len() {
        let (name, number) = values.at(place);
        let key = Vec::from_slice(alloc, name.as_slice())?;
        index.insert(key, number)?;
    }
    Ok(())
}

/// The entries of an index.
fn listed(alloc: Global, index: &IndexMap<Vec<u8>, Num>) -> Result<Vars, AllocError>
    ensures value { IfOk result (λ vars. vars ≡ by_bytes index.now.entries) }
{
    let mut vars = Items::new(alloc);
    'entries: for place in 0..index.len() {
        if let Some(found) = index.get_index(place) {
            let name = copied(alloc, found.0.as_slice())?;
            vars.push((name, *found.1))?;
        }
    }
    Ok(vars)
}

/// A name with these bytes.
pub(crate) fn copied(alloc: Global, bytes: &[u8]) -> Result<Name, AllocError>
    ensures value { IfOk result (λ n. n ≡ bytes.now) }
{
    Ok(Items::from_vec(bytes_of(alloc, bytes)?))
}
