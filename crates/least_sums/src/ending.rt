//! The end of a finding in each width.

ghost use Rattle.std.specs.Prelude.{◌≡◌, ℕ, ◌<◌, IfOk, IfSome, None, length, option_map};
ghost use Rattle.least_sums.specs.Prices.{Prices};
ghost use Rattle.least_sums.specs.States.{IsEnded, IsFinal, IsOpen, state_of};
ghost use Rattle.least_sums.specs.Sums.{AreBelow, AreLeastSumsUpTo};
ghost use Rattle.least_sums.specs.declared.amount.TheConstants.{NARROW_FAR, WIDE_FAR};
ghost use Rattle.overpass_graph.specs.Maps.{roads_of};
ghost use Rattle.overpass_graph.specs.Roads.{Roads};

use crate::amount::Amount;
use crate::board::Board;
use crate::sums::{Kept, Sums};
use overpass_graph::Map;
use std::alloc::{AllocError, Global};

/// A board of this width on which the target alone waits.
pub(crate) fn begun<N: Amount>(
    alloc: Global,
    map: &Map,
    target: u32,
) -> Result<Board<N>, AllocError>
    requires in_range { target < length map.now.nodes }
    ensures state { IfOk result (λ board. (prices : Prices) →
        IsOpen (roads_of map.now) prices target N.FAR (state_of N.number board)) }
{
    let mut board = Board::new(alloc, map.nodes())?;
    board.lower(target, 0)?;
    Ok(board)
}

/// What was found in 64 bits, up to a radius where there is one; or none where some sum doesn't fit.
pub(crate) fn narrow_end(board: Board<u64>, radius: Option<u64>) -> Option<Sums>
    requires ended { (roads : Roads) × (prices : Prices) × (target : ℕ) × IsEnded roads prices target NARROW_FAR
        (option_map (λ n. n) radius) (state_of (λ n. n) board) }
    ensures exact { (roads : Roads) (prices : Prices) (target : ℕ) → IsEnded roads prices target NARROW_FAR
        (option_map (λ n. n) radius) (state_of (λ n. n) board) →
        IfSome result (AreLeastSumsUpTo roads prices target) }
    ensures small { IfSome result (λ found. AreBelow found.sums) }
    ensures whole { radius ≡ None → IfSome result (λ found. found.radius ≡ None) }
    ensures left { result ≡ None → radius ≡ None }
{
    match radius {
        Some(radius) => Some(Sums {
            kept: Kept::Near {
                sums: board.sums,
                radius,
            },
        }),
        None => {
            if board.cut {
                return None;
            }
            Some(Sums {
                kept: Kept::Narrow(board.sums),
            })
        }
    }
}

/// What was found in 128 bits.
pub(crate) fn wide_end(board: Board<u128>) -> Sums
    requires ended { (roads : Roads) × (prices : Prices) × (target : ℕ) × IsFinal roads prices target WIDE_FAR (state_of (λ n. n) board) }
    ensures exact { (roads : Roads) (prices : Prices) (target : ℕ) → IsFinal roads prices target WIDE_FAR (state_of (λ n. n) board) →
        AreLeastSumsUpTo roads prices target result }
    ensures small { AreBelow result.sums }
    ensures whole { result.radius ≡ None }
{
    Sums {
        kept: Kept::Wide(board.sums),
    }
}
