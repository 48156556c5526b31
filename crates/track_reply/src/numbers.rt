//! Numbers and separators.

ghost use Rattle.std.specs.Prelude.{◌≡◌, ◌++◌, pos, OnOk};
ghost use Rattle.fixed_num.specs.Text.{mil6};
ghost use Rattle.track_reply.specs.Joined.{comma_before};

use fixed_num::SixDecimals;
use item_list::append_wide;
use std::alloc::AllocError;

/// Appends a count of millionths with six decimals.
pub(crate) fn append_millionths(out: &mut Vec<u8>, millionths: i128) -> Result<(), AllocError>
    ensures exact { OnOk result (out.new.items ≡ out.old.items ++ mil6 millionths) }
{
    let text = SixDecimals::of(millionths);
    out.extend_from_slice(text.as_slice())
}

/// Appends a sum of millionths with six decimals.
pub fn append_sum(out: &mut Vec<u8>, millionths: u128) -> Result<(), AllocError>
    ensures exact { OnOk result (out.new.items ≡ out.old.items ++ mil6 (pos millionths)) }
{
    append_wide(out, millionths / 1_000_000)?;
    let decimals = SixDecimals::of((millionths % 1_000_000) as i128);
    out.extend_from_slice(&decimals.as_slice()[1..])
}

/// Appends the comma before the item of a number: none before the first.
pub fn append_comma(out: &mut Vec<u8>, place: usize) -> Result<(), AllocError>
    ensures exact { OnOk result (out.new.items ≡ out.old.items ++ comma_before place) }
{
    out.extend_from_slice(comma_before(place))
}

/// A comma, or nothing before the first item.
fn comma_before(place: usize) -> &'static [u8]
    ensures exact { result.now ≡ comma_before place }
{
    if place == 0 { b"" } else { b"," }
}
