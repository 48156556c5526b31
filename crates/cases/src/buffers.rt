//! Cases on elevation buffers.

ghost use Rattle.std.specs.Prelude.{IfSome};
ghost use Rattle.elev_buffer.specs.Covers.{IsPair};

use crate::texts::{NO_CALL, OUTSIDE, truth};
use case_inputs::{Case, place_of};
use elev_buffer::{Limits, Mode, Modes, Pair, covers, step, sums_of, supersedes};
use std::alloc::{AllocError, Global};

const MOST: i64 = 1_000_000_000_000_000;

const FAR: i64 = 2_000_000_000_000_000_000;

/// The calls on buffers.
pub(crate) const CALLS: [&str; 4] = ["step", "covers", "supersedes", "sums"];

/// The answer to a case on buffers.
pub(crate) fn answer(alloc: Global, case: &Case) -> Result<String, AllocError> {
    match place_of(&CALLS, case.word(0)) {
        0 => stepped(alloc, case),
        1 => comparing(alloc, case, false),
        2 => comparing(alloc, case, true),
        3 => summed(alloc, case),
        _ => String::from_str(alloc, NO_CALL),
    }
}

/// What a step from a buffer leaves, pays and weighs: the buffer, what is added, the reduction, the
/// penalty, the most.
fn stepped(alloc: Global, case: &Case) -> Result<String, AllocError> {
    let (e, a, r) = (case.signed(1), case.signed(2), case.signed(3));
    let (penalty, most) = (case.signed(4), case.signed(5));
    if penalty < 0 || penalty > most || most > MOST || e < 0 || e > most {
        return String::from_str(alloc, OUTSIDE);
    }
    if a < -FAR || a > FAR || r < 0 || r > FAR {
        return String::from_str(alloc, OUTSIDE);
    }
    let left = step(e, a, r, &Limits { penalty, most });
    format!(in alloc; "{} {} {}", left.e, left.paid, left.weight)
}

/// The two buffers, if they are buffers.
fn pair_of(down: i64, up: i64) -> Option<Pair>
    ensures found { IfSome result (λ pair. IsPair pair) }
{
    if down < 0 || down > MOST || up < 0 || up > MOST {
        return None;
    }
    Some(Pair { down, up })
}

/// The mode of a word.
fn mode_of(word: &[u8]) -> Mode {
    match place_of(&["compensated", "ordered"], word) {
        0 => Mode::Compensated,
        1 => Mode::Ordered,
        _ => Mode::Equal,
    }
}

/// Whether a label covers another, or supersedes it: the buffers and the cost of both, the two
/// rates, the two modes.
fn comparing(alloc: Global, case: &Case, superseding: bool) -> Result<String, AllocError> {
    let first = pair_of(case.signed(1), case.signed(2));
    let second = pair_of(case.signed(4), case.signed(5));
    let (Some(a), Some(b)) = (first, second) else {
        return String::from_str(alloc, OUTSIDE);
    };
    let (kd, ku) = (case.signed(7), case.signed(8));
    if kd < 0 || kd > MOST || ku < 0 || ku > MOST {
        return String::from_str(alloc, OUTSIDE);
    }
    let (first_cost, second_cost) = (case.size(3), case.size(6));
    if first_cost >= 1 << 126 || second_cost >= 1 << 126 {
        return String::from_str(alloc, OUTSIDE);
    }
    let modes = Modes {
        down: mode_of(case.word(9)),
        up: mode_of(case.word(10)),
    };
    if superseding {
        truth(
            alloc,
            supersedes(&a, first_cost, &b, second_cost, kd, ku, &modes),
        )
    } else {
        truth(
            alloc,
            covers(&a, first_cost, &b, second_cost, kd, ku, &modes),
        )
    }
}

/// The three numbers of a label: its buffers and its cost, the two rates, the two modes.
fn summed(alloc: Global, case: &Case) -> Result<String, AllocError> {
    let Some(pair) = pair_of(case.signed(1), case.signed(2)) else {
        return String::from_str(alloc, OUTSIDE);
    };
    let (cost, kd, ku) = (case.size(3), case.signed(4), case.signed(5));
    if cost >= 1 << 126 || kd < 0 || kd > MOST || ku < 0 || ku > MOST {
        return String::from_str(alloc, OUTSIDE);
    }
    let modes = Modes {
        down: mode_of(case.word(6)),
        up: mode_of(case.word(7)),
    };
    let sums = sums_of(&pair, cost, kd, ku, &modes);
    format!(in alloc; "{} {} {}", sums.down, sums.up, sums.both)
}
