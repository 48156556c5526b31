//! The stage of a query.

ghost use Rattle.std.specs.Prelude.{IfOk};
ghost use Rattle.item_list.specs.Answer.{Answers};
ghost use Rattle.route_engine.specs.Jobs.{IsWithin};
ghost use Rattle.route_http.specs.Seen.{asked};
ghost use Rattle.run_files.specs.Query.{lined_in, query_in, tabled_in};

use crate::status::Status;
use route_http::{Request, RequestError, lined_request, request, tabled_request};
use std::alloc::Global;

/// The request of a query.
pub fn query_in(alloc: Global, text: &[u8]) -> Result<Request, Status>
    ensures exact { Answers asked (query_in text.now) Status.NoMemory result }
    ensures within { IfOk result (λ r. IsWithin (asked r)) }
{
    match request(alloc, text) {
        Ok(request) => Ok(request),
        Err(RequestError::NoMemory) => Err(Status::NoMemory),
        Err(error) => Err(Status::Query { error }),
    }
}

/// The same, as lines where no form is asked for.
pub fn lined_in(alloc: Global, text: &[u8]) -> Result<Request, Status>
    ensures exact { Answers asked (lined_in text.now) Status.NoMemory result }
    ensures within { IfOk result (λ r. IsWithin (asked r)) }
{
    match lined_request(alloc, text) {
        Ok(request) => Ok(request),
        Err(RequestError::NoMemory) => Err(Status::NoMemory),
        Err(other) => Err(Status::Query { error: other }),
    }
}

/// The request of a query for costs between waypoints.
pub fn tabled_in(alloc: Global, text: &[u8]) -> Result<Request, Status>
    ensures exact { Answers asked (tabled_in text.now) Status.NoMemory result }
    ensures within { IfOk result (λ r. IsWithin (asked r)) }
{
    match tabled_request(alloc, text) {
        Ok(request) => Ok(request),
        Err(RequestError::NoMemory) => Err(Status::NoMemory),
        Err(refusal) => Err(Status::Query { error: refusal }),
    }
}
