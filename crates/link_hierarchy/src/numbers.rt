//! Numbers by place that are put back where they were set.

ghost use Rattle.std.specs.Prelude.{◌≡◌, ◌<◌, IfOk, OnErr, OnOk, get_or, length, replicate, set};
ghost use Rattle.link_hierarchy.specs.Numbers.{AreTouched};

use std::alloc::{AllocError, Global};
use std::marker::Model;

/// So many numbers, all of them one number at first. To put them back takes as long as was set, and
/// not as long as there are.
pub struct Numbers {
    items: Vec<u32>,
    /// What stands where nothing was set.
    rest: u32,
    /// Where something was set.
    touched: Vec<usize>,
}

impl Drop for Numbers {
    fn drop(self) {
        let Numbers {
            items: _,
            rest: _,
            touched: _,
        } = self;
    }
}

impl Model for Numbers {
    ghost use Rattle.std.specs.Prelude.{ℕ, List};
    ghost use Rattle.link_hierarchy.specs.Numbers.{AreTouched};

    ghost Value = { List ℕ };

    ghost view = { λ n. n.items.items };

    ghost invariant = { λ n. AreTouched n.rest n.items.items n.touched.items };
}

impl Numbers {
    /// So many numbers, each of them this one.
    pub(crate) fn new(alloc: Global, rest: u32, count: usize) -> Result<Numbers, AllocError>
        ensures value { IfOk result (λ n. n ≡ replicate count rest) }
    {
        let items = filled(alloc, rest, count)?;
        Ok(Numbers {
            items,
            rest,
            touched: Vec::new(alloc),
        })
    }

    /// How many numbers there are.
    pub(crate) fn len(&self) -> usize
        ensures value { result ≡ length self.now }
    {
        self.items.len()
    }

    /// The number at a place.
    pub(crate) fn get(&self, place: usize) -> u32
        requires in_range { place < length self.now }
        ensures value { result ≡ get_or self.now place result }
    {
        self.items[place]
    }

    /// Sets the number at a place. Nothing changes where memory runs out.
    pub(crate) fn set(&mut self, place: usize, number: u32) -> Result<(), AllocError>
        requires in_range { place < length self.old }
        ensures value { OnOk result (self.new ≡ set self.old place number) }
        ensures kept { OnErr result (self.new ≡ self.old) }
    {
        if self.items[place] == self.rest {
            self.touched.push(place)?;
        }
        self.items[place] = number;
        Ok(())
    }

    /// Each number is this one again. Where that stood there at first, those alone are put back that
    /// were set.
    pub(crate) fn renew(&mut self, rest: u32)
        ensures value { self.new ≡ replicate (length self.old) rest }
    {
        if rest == self.rest {
            put_back(&mut self.items, self.touched.as_slice(), rest);
        } else {
            fill(&mut self.items, rest);
            self.rest = rest;
        }
        self.touched.clear();
    }
}

/// So many times a number.
pub(crate) fn filled(alloc: Global, number: u32, count: usize) -> Result<Vec<u32>, AllocError>
    ensures value { IfOk result (λ made. made.items ≡ replicate count number) }
{
    let mut made: Vec<u32> = Vec::with_capacity(alloc, count)?;
    'places: for place in 0..count {
        let _ = place;
        made.push(number)?;
    }
    Ok(made)
}

/// The numbers at these places are this one again.
fn put_back(items: &mut Vec<u32>, touched: &[usize], rest: u32)
    requires touched { AreTouched rest items.old.items touched.now }
    ensures value { items.new.items ≡ replicate (length items.old.items) rest }
{
    'places: for place in 0..touched.len() {
        items[touched[place]] = rest;
    }
}

/// All numbers are this one.
fn fill(items: &mut Vec<u32>, number: u32)
    ensures value { items.new.items ≡ replicate (length items.old.items) number }
{
    'places: for place in 0..items.len() {
        items[place] = number;
    }
}
