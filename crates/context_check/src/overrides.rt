//! Numbers that take the place of values of the global section.
ghost use Rattle.std.specs.Prelude.{◌≡◌, ◌<◌, ◌^◌, [], ◌∷◌, ◌++◌, IfOk, OnOk, OnErr, false, length};
ghost use Rattle.std.specs.Map.{lookup};
ghost use Rattle.std.specs.Str.{bytes_eq};
ghost use Rattle.context_check.specs.Overrides.{is_overridden};

use fixed_num::Num;
use item_list::{Items, TryClone};
use lookup_table::Name;
use std::alloc::{AllocError, Global};
use std::marker::Model;

/// The most overrides: places are 32-bit numbers.
const MOST_OVERRIDES: usize = 0xffff_ffff;

/// Names of the global section with the numbers that replace their values. No name comes twice.
/// They can be a key of a map.
#[derive(PartialEq, Eq, Hash, Drop)]
pub struct Overrides {
    items: Items<(Name, Num)>,
}

impl Model for Overrides {
    ghost use Rattle.std.specs.Prelude.{List, ℕ, ℤ};
    ghost use Rattle.context_check.specs.Overrides.{AreOverrides};

    ghost Value = { List (List ℕ × ℤ) };

    ghost view = { λ o. o.items };

    ghost invariant = { λ o. AreOverrides o.items };

    ghost inverse = { λ o. record { items = o } };
}

impl Overrides {
    /// No overrides; the list will grow with `alloc`.
    pub fn new(alloc: Global) -> Self
        ensures value { result ≡ [] }
    {
        Overrides {
            items: Items::new(alloc),
        }
    }

    /// How many overrides there are.
    pub fn len(&self) -> usize
        ensures value { result ≡ length self.now }
        ensures fits { length self.now < 2 ^ 32 }
    {
        self.items.len()
    }

    /// The overrides in their order.
    pub fn as_slice(&self) -> &[(Name, Num)]
        ensures value { result.now ≡ self.now }
        ensures fits { length self.now < 2 ^ 32 }
    {
        self.items.as_slice()
    }

    /// The number that replaces the value of a name, if there is one.
    pub fn find(&self, name: &[u8]) -> Option<Num>
        ensures exact { result ≡ lookup (bytes_eq name.now) self.now }
    {
        found(self.items.as_slice(), name)
    }

    /// Puts an override at the end. Where memory runs out, nothing changes; 2^32 - 1 are the most,
    /// and one more is answered as want of memory.
    pub fn push(&mut self, item: (Name, Num)) -> Result<(), AllocError>
        requires new { is_overridden self.old item.0 ≡ false }
        ensures value { OnOk result (self.new ≡ self.old ++ item ∷ []) }
        ensures same { OnErr result (self.new ≡ self.old) }
    {
        if self.items.len() >= MOST_OVERRIDES {
            return Err(AllocError);
        }
        self.items.push(item)
    }
}

impl TryClone for Overrides {
    fn try_clone(&self, alloc: Global) -> Result<Overrides, AllocError> {
        let items = copied(alloc, self.items.as_slice())?;
        Ok(Overrides { items })
    }
}

/// The number of the first of these overrides that has a name.
fn found(items: &[(Name, Num)], name: &[u8]) -> Option<Num>
    ensures exact { result ≡ lookup (bytes_eq name.now) items.now }
{
    'items: for item in items {
        if name == item.0.as_slice() {
            return Some(item.1);
        }
    }
    None
}

/// A copy of a list of overrides.
fn copied(alloc: Global, items: &[(Name, Num)]) -> Result<Items<(Name, Num)>, AllocError>
    ensures exact { IfOk result (λ copy. copy ≡ items.now) }
{
    let mut copy = Items::new(alloc);
    'items: for item in items {
        let name = item.0.try_clone(alloc)?;
        copy.push((name, item.1))?;
    }
    Ok(copy)
}
