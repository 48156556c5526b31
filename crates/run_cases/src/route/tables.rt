//! Tables of costs, found in turns.

ghost use Rattle.std.specs.Prelude.{◌≡◌, ◌≤◌, length};
ghost use Rattle.route_engine.specs.Jobs.{IsWithin};
ghost use Rattle.route_engine.specs.TableJobs.{IsTableOn};
ghost use Rattle.route_http.specs.Seen.{asked};
ghost use Rattle.route_ready.specs.Fits.{FitsMap};
ghost use Rattle.route_ready.specs.World.{world_of};

use crate::route::inputs::quota;
use crate::route::steps::{Ended, append_counts, stepped};
use crate::route::turns::append_line;
use crate::told::outside;
use case_inputs::Case;
use item_list::{append_bytes, append_wide};
use route_engine::{CostRows, TableJob};
use route_http::Request;
use route_ready::{Ready, World, line};
use std::alloc::{AllocError, Global};
use std::rc::Rc;

/// The table of a request found in turns, or the line of a waypoint without a node.
pub(crate) fn in_table(
    alloc: Global,
    case: &Case,
    world: &World,
    ready: Rc<Ready>,
    request: Request,
) -> Result<Vec<u8>, AllocError>
    requires fits { FitsMap (world_of world.now).map ready.value }
    requires within { IsWithin (asked request) }
{
    match TableJob::new(alloc, world, ready, request) {
        Ok(job) => by_quota(alloc, case, world, job),
        Err(error) => line(alloc, &error, None),
    }
}

/// The same with the quota of a case.
fn by_quota(alloc: Global, case: &Case, world: &World, job: TableJob) -> Result<Vec<u8>, AllocError>
    requires on { IsTableOn (world_of world.now) job }
{
    let quota = quota(case);
    if quota > 0 {
        return turned(alloc, world, job, quota);
    }
    outside(alloc)
}

/// The same in turns of a quota, behind its counts.
fn turned(alloc: Global, world: &World, job: TableJob, quota: u32) -> Result<Vec<u8>, AllocError>
    requires on { IsTableOn (world_of world.now) job }
    requires some { 1 ≤ quota }
{
    match stepped(alloc, world, job, quota) {
        Some(ended) => told(alloc, &ended),
        None => Vec::from_slice(alloc, b"not at its end"),
    }
}

/// The rows of a job, or the line of its refusal, behind its counts.
fn told(alloc: Global, ended: &Ended<CostRows>) -> Result<Vec<u8>, AllocError> {
    let mut text = Vec::new(alloc);
    append_counts(&mut text, ended.turns, ended.spent)?;
    match &ended.end {
        Ok(table) => append_table(&mut text, table)?,
        Err(error) => {
            append_bytes(&mut text, b" ")?;
            append_line(alloc, &mut text, error)?;
        }
    }
    Ok(text)
}

/// Appends the rows of a table, each behind a space.
fn append_table(text: &mut Vec<u8>, table: &CostRows) -> Result<(), AllocError> {
    'rows: for place in 0..table.rows.len() {
        append_bytes(text, b" ")?;
        append_row(text, table.rows[place].as_slice())?;
    }
    Ok(())
}

/// Appends the costs of a row, with a comma between each two.
fn append_row(text: &mut Vec<u8>, row: &[Option<u128>]) -> Result<(), AllocError> {
    'costs: for place in 0..row.len() {
        if place > 0 {
            append_bytes(text, b",")?;
        }
        append_cost(text, row[place])?;
    }
    Ok(())
}

/// Appends a cost in millionths, or that there is none.
fn append_cost(text: &mut Vec<u8>, cost: Option<u128>) -> Result<(), AllocError> {
    match cost {
        Some(cost) => append_wide(text, cost),
        None => append_bytes(text, b"-"),
    }
}
