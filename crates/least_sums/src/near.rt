//! How far from a target sums are found.

ghost use Rattle.std.specs.Prelude.{◌≡◌, false, None};

/// What is added to the radius besides, so that very short rides look far enough for turns and
/// climbs: the price of 100 metres at costfactor 1.
const MORE: u128 = 100000000;

/// How far from a target sums are found.
#[derive(Clone, Copy, Drop)]
pub enum Near {
    /// A little farther than the sum of this node.
    Node(u32),
    /// As far as this sum.
    Sum(u128),
}

/// Whether a sum is so far that none beyond it is needed.
pub(crate) fn is_far(near: Option<Near>, sum: u128) -> bool
    ensures whole { near ≡ None → result ≡ false }
{
    match near {
        Some(Near::Sum(most)) => most <= sum,
        _ => false,
    }
}

/// How far sums are found once a node has its least sum: by that sum where it is the node that was
/// looked for, a thirty-second more and a little.
pub(crate) fn near_behind(near: Option<Near>, node: u32, sum: u128) -> Option<Near>
    ensures whole { near ≡ None → result ≡ None }
{
    match near {
        Some(Near::Node(start)) => {
            if node == start {
                let radius = sum.saturating_add(sum / 32).saturating_add(MORE);
                Some(Near::Sum(radius))
            } else {
                near
            }
        }
        _ => near,
    }
}
