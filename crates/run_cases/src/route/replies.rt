//! Replies to requests, made in turns.

ghost use Rattle.std.specs.Prelude.{◌≡◌, ◌≤◌, length};
ghost use Rattle.route_engine.specs.Jobs.{IsWithin};
ghost use Rattle.route_engine.specs.Pendings.{IsPendingOver};
ghost use Rattle.route_http.specs.Seen.{asked};
ghost use Rattle.route_ready.specs.Fits.{FitsMap};
ghost use Rattle.route_ready.specs.World.{world_of};

use crate::route::call_of;
use crate::route::inputs::quota;
use crate::route::steps::MOST_STEPS;
use crate::told::outside;
use case_inputs::Case;
use item_list::{Turn, append_bytes, append_named, append_number};
use route_engine::{Aim, Pending};
use route_http::Request;
use route_ready::{Ready, World, line};
use std::alloc::{AllocError, Global};
use std::rc::Rc;
use tasks::Task;

/// How long the reply to a request is that is answered in turns of the quota of a case, or the line
/// of its refusal.
pub(crate) fn in_replies(
    alloc: Global,
    case: &Case,
    world: &World,
    ready: Rc<Ready>,
    request: Request,
) -> Result<Vec<u8>, AllocError>
    requires fits { FitsMap (world_of world.now).map ready.value }
    requires within { IsWithin (asked request) }
{
    let pending = Pending::new(alloc, world, ready, aim_of(case), request)?;
    by_quota(alloc, case, world, pending)
}

/// What a case asks for.
fn aim_of(case: &Case) -> Aim {
    match call_of(case) {
        6 => Aim::Within,
        _ => Aim::Track,
    }
}

/// The same with the quota of a case.
fn by_quota(
    alloc: Global,
    case: &Case,
    world: &World,
    pending: Pending,
) -> Result<Vec<u8>, AllocError>
    requires over { IsPendingOver (world_of world.now) pending }
{
    let quota = quota(case);
    if quota > 0 {
        return turned(alloc, case, world, pending, quota);
    }
    outside(alloc)
}

/// The same in turns of a quota.
fn turned(
    alloc: Global,
    case: &Case,
    world: &World,
    pending: Pending,
    quota: u32,
) -> Result<Vec<u8>, AllocError>
    requires over { IsPendingOver (world_of world.now) pending }
    requires some { 1 ≤ quota }
{
    let mut pending = pending;
    'turns: for turn in 0..MOST_STEPS {
        match pending.take_turn(alloc, world, quota) {
            Turn::More(next) => pending = next,
            Turn::Done(Ok(bytes)) => return told(alloc, case, turn, bytes.len()),
            Turn::Done(Err(error)) => return line(alloc, &error, None),
        }
    }
    Vec::from_slice(alloc, b"not at its end")
}

/// A length in words; where what lies within a cost is asked for behind how many turns went on.
fn told(alloc: Global, case: &Case, turns: u64, long: usize) -> Result<Vec<u8>, AllocError> {
    let mut text = Vec::new(alloc);
    if call_of(case) == 6 {
        append_named(&mut text, b"more ", turns)?;
        append_bytes(&mut text, b" ")?;
    }
    append_number(&mut text, long as u64)?;
    append_bytes(&mut text, b" bytes")?;
    Ok(text)
}
