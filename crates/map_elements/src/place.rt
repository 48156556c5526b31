//! Where the steps of a map's text have led so far, and where one more leads.

ghost use Rattle.std.specs.Prelude.{◌≡◌, ℕ, Bool, true, false, List, [], ◌∷◌, ◌++◌, IfSome};
ghost use Rattle.json_text.specs.Marks.{Step};
ghost use Rattle.json_text.specs.Steps.{step_for};
ghost use Rattle.map_elements.specs.Entries.{depth_after};
ghost use Rattle.map_elements.specs.Reader.{IsAt, IsTop, goes_on, has_list};

use json_text::JsonStep;

/// Where the steps of a text have led.
#[derive(Clone, Copy)]
pub(crate) enum Place {
    /// Nothing has come.
    Start,
    /// Into the top object, before any member `elements`; the value that has come so far has so
    /// many open brackets, or `is_named` tells that the value of `elements` is next.
    Top { depth: u32, is_named: bool },
    /// Into the list of elements, where so many brackets of an element are open.
    Elements { depth: u32 },
    /// Behind the list of elements.
    Past,
    /// There is no list of elements, whatever comes.
    Never,
}

/// How many brackets are open behind a step; none where they can't be counted any more.
pub(crate) fn depth_behind(depth: u32, step: JsonStep) -> Option<u32>
    ensures value { (text : List ℕ) →
        IfSome result (λ after. after ≡ depth_after depth (step_for step text)) }
{
    match step {
        JsonStep::Open | JsonStep::ListOpen => depth.checked_add(1),
        JsonStep::Close | JsonStep::ListClose => Some(depth.saturating_sub(1)),
        _ => Some(depth),
    }
}

/// Whether a step is neither a name nor an end between entries.
pub(crate) fn goes_on(depth: u32, step: JsonStep) -> bool
    ensures value { (text : List ℕ) → result ≡ goes_on depth (step_for step text) }
{
    match step {
        JsonStep::Close | JsonStep::ListClose | JsonStep::Key => depth != 0,
        _ => true,
    }
}

/// Where the first step leads.
pub(crate) fn first_place(step: JsonStep) -> Place
    ensures value { (text : List ℕ) → IsAt result [] (step_for step text ∷ []) [] }
{
    match step {
        JsonStep::Open => Place::Top {
            depth: 0,
            is_named: false,
        },
        _ => Place::Never,
    }
}

/// Where a name between the members of the top object leads, or its end.
fn entry_place(step: JsonStep, text: &[u8]) -> Place
    requires between { goes_on 0 (step_for step text.now) ≡ false }
    ensures value { (steps : List Step) (is_named : Bool) → IsTop steps 0 is_named →
        IsAt result [] (steps ++ step_for step text.now ∷ []) [] }
{
    match step {
        JsonStep::Key => Place::Top {
            depth: 0,
            is_named: text == b"elements".as_slice(),
        },
        _ => Place::Never,
    }
}

/// Where the first step of the value of `elements` leads.
fn list_place(step: JsonStep) -> Place
    ensures value { (steps : List Step) (text : List ℕ) → goes_on 0 (step_for step text) ≡ true →
        IsTop steps 0 true → IsAt result [] (steps ++ step_for step text ∷ []) [] }
{
    match step {
        JsonStep::ListOpen => Place::Elements { depth: 0 },
        _ => Place::Never,
    }
}

/// Where a step in the top object leads; none where brackets can't be counted any more.
pub(crate) fn top_place(depth: u32, is_named: bool, step: JsonStep, text: &[u8]) -> Option<Place>
    ensures value { (steps : List Step) → IsTop steps depth is_named →
        IfSome result (λ place. IsAt place [] (steps ++ step_for step text.now ∷ []) []) }
{
    if !goes_on(depth, step) {
        return Some(entry_place(step, text));
    }
    if is_named {
        return Some(list_place(step));
    }
    let after = depth_behind(depth, step)?;
    Some(Place::Top {
        depth: after,
        is_named: false,
    })
}

/// Whether there is a list of elements.
pub(crate) fn has_list(place: Place) -> bool
    ensures value { result ≡ has_list place }
{
    match place {
        Place::Start => false,
        Place::Top { .. } => false,
        Place::Elements { .. } => true,
        Place::Past => true,
        Place::Never => false,
    }
}
