//! The request of a query.
ghost use Rattle.std.specs.Prelude.{◌≡◌};
ghost use Rattle.item_list.specs.Answer.{Answers};
ghost use Rattle.route_http.specs.Parts.{take_pairs};
ghost use Rattle.route_http.specs.Request.{costed_of, finish, lined_of, pairs_of, request_by, request_of, tabled_of, whole, with_cost, with_form, with_numbers};
ghost use Rattle.route_http.specs.Seen.{asked, parts_seen};
ghost use Rattle.route_http.specs.declared.error.RequestError.TheVariants.{NoMemory};

use crate::asked::Request;
use crate::draft::Draft;
use crate::error::RequestError;
use crate::form::Form;
use crate::key::Key;
use crate::numbers::all_below;
use item_list::Items;
use std::alloc::Global;

/// The request of a query, which is read as form data, or its first refusal. A cost,
/// sources and destinations may not come.
pub fn request(alloc: Global, query: &[u8]) -> Result<Request, RequestError>
    ensures exact { Answers asked (request_of query.now) NoMemory result }
{
    request_by(alloc, false, false, Form::GeoJson, query)
}

/// The same, as lines where no form is asked for.
pub fn lined_request(alloc: Global, query: &[u8]) -> Result<Request, RequestError>
    ensures exact { Answers asked (lined_of query.now) NoMemory result }
{
    request_by(alloc, false, false, Form::Csv, query)
}

/// The request of a query that asks for what lies within a cost, or its first refusal.
pub fn costed_request(alloc: Global, query: &[u8]) -> Result<Request, RequestError>
    ensures exact { Answers asked (costed_of query.now) NoMemory result }
{
    request_by(alloc, true, false, Form::GeoJson, query)
}

/// The request of a query that asks for costs between waypoints, or its first refusal. Sources and
/// destinations may come.
pub fn tabled_request(alloc: Global, query: &[u8]) -> Result<Request, RequestError>
    ensures exact { Answers asked (tabled_of query.now) NoMemory result }
{
    request_by(alloc, false, true, Form::GeoJson, query)
}

/// The request of a query in which a cost is asked for, or may not come, and in which sources and
/// destinations may come or not; in this form where none is asked for.
#[tactic(auto, unfolding(crate::specs::Request::request_by))]
fn request_by(
    alloc: Global,
    costed: bool,
    tabled: bool,
    form: Form,
    query: &[u8],
) -> Result<Request, RequestError>
    ensures exact { Answers asked (request_by costed tabled form query.now) NoMemory result }
{
    let mut draft = Draft::new(alloc, costed, tabled);
    take_all(alloc, &mut draft, query)?;
    finish(alloc, with_form(form, draft))
}

/// Pairs with this form, where none came.
fn with_form(form: Form, draft: Draft) -> Draft
    ensures value { parts_seen result ≡ with_form form (parts_seen draft) }
{
    let mut draft = draft;
    draft.form = Some(draft.form.unwrap_or(form));
    draft
}

/// Takes all pairs of a query.
fn take_all(alloc: Global, draft: &mut Draft, query: &[u8]) -> Result<(), RequestError>
    ensures exact { let taken = take_pairs 0 (pairs_of query.now) (parts_seen draft.old) in
        Answers (λ _. parts_seen draft.new) taken NoMemory result }
{
    let mut place = 0u64;
    'pairs: for pair in form_urlencoded::parse(alloc, query) {
        let (name, value) = pair?;
        draft.take(alloc, place, name.as_bytes(), value.as_bytes())?;
        place += 1;
    }
    Ok(())
}

/// The request of all pairs, or which key is missing.
#[tactic(auto, unfolding(crate::specs::Request::finish))]
fn finish(alloc: Global, draft: Draft) -> Result<Request, RequestError>
    ensures exact { Answers asked (finish (parts_seen draft)) NoMemory result }
{
    if draft.waypoints.is_none() {
        return Err(RequestError::Missing { key: Key::Lonlats });
    }
    if draft.profile.is_none() {
        return Err(RequestError::Missing { key: Key::Profile });
    }
    with_cost(alloc, draft)
}

/// The request of pairs in which a cost is there, where one is asked for.
fn with_cost(alloc: Global, draft: Draft) -> Result<Request, RequestError>
    ensures exact { Answers asked (with_cost (parts_seen draft)) NoMemory result }
{
    if draft.costed && draft.cost.is_none() {
        return Err(RequestError::Missing { key: Key::Cost });
    }
    with_numbers(whole(alloc, draft))
}

/// A request whose sources and destinations are numbers of its waypoints, or which of them aren't.
fn with_numbers(request: Request) -> Result<Request, RequestError>
    ensures exact { Answers asked (with_numbers (asked request)) NoMemory result }
{
    let count = request.waypoints.len();
    if !all_below(request.sources.as_slice(), count) {
        return Err(RequestError::BadValue { key: Key::Sources });
    }
    if !all_below(request.destinations.as_slice(), count) {
        return Err(RequestError::BadValue {
            key: Key::Destinations,
        });
    }
    Ok(request)
}

/// The request of all pairs, with the values that stand for keys that didn't come.
fn whole(alloc: Global, draft: Draft) -> Request
    ensures value { asked result ≡ whole (parts_seen draft) }
{
    Request {
        waypoints: draft.waypoints.unwrap_or(Items::new(alloc)),
        circles: draft.circles.unwrap_or(Items::new(alloc)),
        profile: draft.profile.unwrap_or(Items::new(alloc)),
        alternative: draft.alternative.unwrap_or(0),
        form: draft.form.unwrap_or(Form::GeoJson),
        labels: draft.labels.unwrap_or(10_000_000),
        overrides: draft.overrides,
        runs: draft.runs.unwrap_or(false),
        cost: draft.cost.unwrap_or(0),
        sources: draft.sources.unwrap_or(Items::new(alloc)),
        destinations: draft.destinations.unwrap_or(Items::new(alloc)),
    }
}
