//! The one error of the outside, and the counts that stand still at their last value.

ghost use Rattle.std.specs.Prelude.{◌≡◌, OnOk, OnErr, is_ok, if◌then◌else◌};
ghost use Rattle.edge_io.specs.Faults.{CountRose, next_count};

/// A call on the outside failed, and the object that it was made on has counted it.
#[derive(Clone, Copy, Debug, PartialEq, Eq)]
pub struct Failed;

/// A count after one more, which stands still at its last value.
pub fn next_count(count: u64) -> u64
    ensures value { result ≡ next_count count }
{
    count.saturating_add(1)
}

/// An answer, of which it is counted that it failed.
pub(crate) fn counted<T>(answer: Result<T, Failed>, count: &mut u64) -> Result<T, Failed>
    ensures exact { result ≡ answer }
    ensures counts { count.new ≡ (if is_ok answer then count.old else next_count count.old) }
    ensures kept { OnOk result (count.new ≡ count.old) }
    ensures rose { OnErr result (CountRose count.old count.new) }
{
    if answer.is_err() {
        *count = next_count(*count);
    }
    answer
}
