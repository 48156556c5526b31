//! What a step over a link pays out of a buffer, and what it keeps.

ghost use Rattle.std.specs.Prelude.{◌≡◌, ℤ, pos, ◌+ℤ◌, ◌-ℤ◌, ◌*ℤ◌, ◌≤ℤ◌, ◌<ℤ◌, ◌≤◌, unsigned_abs};
ghost use Rattle.std.specs.Int.{int_max, int_div_euclid};
ghost use Rattle.elev_buffer.specs.Step.{IsLimits, IsNoMore, step_of, settled_of, paid_of, weight_of};

/// The buffer above which is paid, and the most that is kept, in micrometres.
#[derive(Clone, Copy)]
pub struct Limits {
    pub penalty: i64,
    pub most: i64,
}

/// What a step leaves.
#[derive(Clone, Copy)]
pub struct Stepped {
    /// The new buffer in micrometres.
    pub e: i64,
    /// What is paid in micrometres.
    pub paid: i64,
    /// How far the buffer reached into the reduction, in millionths.
    pub weight: i64,
}

/// A step from the buffer `e`, to which `a` is added and of which up to `r` is paid above the
/// penalty, all in micrometres.
pub fn step(e: i64, a: i64, r: i64, limits: &Limits) -> Stepped
    requires limits { IsLimits limits.now }
    requires low { pos 0 ≤ℤ e }
    requires high { e ≤ℤ limits.now.most }
    requires added { unsigned_abs a ≤ 2000000000000000000 }
    requires positive { pos 0 ≤ℤ r }
    requires reduction { r ≤ℤ pos 2000000000000000000 }
    ensures exact { result ≡ step_of limits.now a r e }

    // The buffer stays one, a weight is a part of a million, and what is paid and what is left make
    // up the full buffer.
    ensures positive { pos 0 ≤ℤ result.e }
    ensures within { result.e ≤ℤ limits.now.most }
    ensures paid { pos 0 ≤ℤ result.paid }
    ensures light { pos 0 ≤ℤ result.weight }
    ensures heavy { result.weight ≤ℤ pos 1000000 }
    ensures sum { result.e +ℤ result.paid ≡ int_max (e +ℤ a) (pos 0) }

    // From a larger buffer no part is less, and both together are more by no more than the buffer
    // is.
    ensures grows { (more : ℤ) → e ≤ℤ more → IsNoMore result (step_of limits.now a r more) }
    ensures slowly { (more : ℤ) → e ≤ℤ more → let other = step_of limits.now a r more in
        (other.e +ℤ other.paid -ℤ (result.e +ℤ result.paid)) ≤ℤ (more -ℤ e) }
{
    settled(e + a, r, limits)
}

/// What is made of a full buffer.
fn settled(full: i64, r: i64, limits: &Limits) -> Stepped
    requires limits { IsLimits limits.now }
    requires full { unsigned_abs full ≤ 2001000000000000000 }
    requires positive { pos 0 ≤ℤ r }
    ensures exact { result ≡ settled_of limits.now r full }
{
    let paid = paid_from(full, r, limits);
    Stepped {
        e: full.max(0) - paid,
        paid,
        weight: weight_from(full, r, limits),
    }
}

/// What is paid of a full buffer.
fn paid_from(full: i64, r: i64, limits: &Limits) -> i64
    requires limits { IsLimits limits.now }
    requires full { unsigned_abs full ≤ 2001000000000000000 }
    requires positive { pos 0 ≤ℤ r }
    ensures exact { result ≡ paid_of limits.now r full }
    ensures within { result ≤ℤ int_max full (pos 0) }
    ensures positive { pos 0 ≤ℤ result }
{
    if full <= limits.penalty {
        0
    } else {
        r.min(full - limits.penalty).max(full - limits.most)
    }
}

/// How far a full buffer reaches into the reduction, in millionths.
fn weight_from(full: i64, r: i64, limits: &Limits) -> i64
    requires limits { IsLimits limits.now }
    requires full { unsigned_abs full ≤ 2001000000000000000 }
    requires positive { pos 0 ≤ℤ r }
    ensures exact { result ≡ weight_of limits.now r full }
{
    if full <= limits.penalty {
        0
    } else if r <= full - limits.penalty {
        1_000_000
    } else {
        share(full - limits.penalty, r)
    }
}

/// A part in millionths, rounded down. Products of 128 bits are divided only above nine kilometres:
/// that is much slower.
fn share(part: i64, whole: i64) -> i64
    requires part { pos 0 ≤ℤ part }
    requires less { part <ℤ whole }
    ensures exact { result ≡ int_div_euclid (pos 1000000 *ℤ part) whole }
{
    if part <= 9_000_000_000_000 {
        1_000_000 * part / whole
    } else {
        share_wide(part, whole)
    }
}

/// A part in millionths, rounded down, by products of 128 bits. It is asked for seldom, so it stands
/// apart.
#[cold]
#[inline(never)]
fn share_wide(part: i64, whole: i64) -> i64
    requires part { pos 0 ≤ℤ part }
    requires less { part <ℤ whole }
    ensures exact { result ≡ int_div_euclid (pos 1000000 *ℤ part) whole }
{
    (1_000_000 * part as i128 / whole as i128) as i64
}
