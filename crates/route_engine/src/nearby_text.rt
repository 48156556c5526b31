//! The text of what lies within a cost, written in steps.

ghost use Rattle.std.specs.Prelude.{◌≡◌, ◌≤◌, IfOk, Some, None, length};
ghost use Rattle.item_list.specs.declared.turn.Turn.TheVariants.{More};
ghost use Rattle.route_engine.specs.Nearby.{lists_in};
ghost use Rattle.route_engine.specs.NearbyAnswers.{nearby_reply};
ghost use Rattle.route_engine.specs.NearbyTexts.{FitMap, IsNearbyText, nearby_comes_to, nearby_to_write, text_left};
ghost use Rattle.route_engine.specs.Texts.{StepsText};
ghost use Rattle.route_engine.specs.Told.{source_by};
ghost use Rattle.route_ready.specs.World.{world_of};

use crate::nearby_parts::{
    Part, append_end, append_head, append_rows, first_part, next_part, reply_head,
};
use crate::told::Told;
use crate::within::Nearby;
use item_list::Turn;
use route_ready::{Ready, World};
use std::alloc::{AllocError, Global};
use std::vec::IntoIter;
use tasks::Stepped;

/// How many rows a step writes.
const ROWS: usize = 512;

/// The list of a waypoint that is written.
#[derive(Drop)]
pub(crate) struct Rows {
    pub(crate) list: Vec<(u32, u128)>,
    pub(crate) part: Part,
    /// The row of the part that is next.
    pub(crate) place: usize,
}

/// The lists that are still to be written.
#[derive(Drop)]
pub(crate) struct Lists {
    /// The cost that is asked for, in millionths.
    pub(crate) cost: u64,
    /// The number of the waypoint whose list is written, or is next.
    pub(crate) number: usize,
    pub(crate) rest: IntoIter<Vec<(u32, u128)>, Global>,
}

/// The text of what lies within a cost, as far as it is written. A list that is written is gone.
pub struct NearbyText {
    pub(crate) text: Vec<u8>,
    /// The list that is being written; none between two.
    pub(crate) rows: Option<Rows>,
    pub(crate) lists: Lists,
}

impl Drop for NearbyText {
    fn drop(self) {
        let NearbyText {
            text: _,
            rows: _,
            lists: _,
        } = self;
    }
}

impl NearbyText {
    /// The text of what was found, up to the first list.
    pub(crate) fn new(
        alloc: Global,
        found: Nearby,
        _world: &World,
        _ready: &Ready,
        told: &Told,
    ) -> Result<NearbyText, AllocError>
        requires fit { FitMap (world_of _world.now).map (lists_in found.lists.items) }
        ensures on { IfOk result (IsNearbyText (world_of _world.now)) }
        ensures comes { IfOk result (λ text.
            nearby_comes_to (world_of _world.now) _ready.now told.now text ≡
            nearby_reply told.now.form (source_by (world_of _world.now) _ready.now told.now) found) }
        ensures left { IfOk result (λ text.
            text_left (world_of _world.now) text ≡ nearby_to_write (world_of _world.now) found) }
    {
        let (cost, lists) = found.into_parts();
        let text = reply_head(alloc, told.form)?;
        Ok(NearbyText {
            text,
            rows: None,
            lists: Lists {
                cost,
                number: 0,
                rest: lists.into_iter(),
            },
        })
    }

    /// Goes on by a step: by rows of a list, of which each counts one, or by what stands between two
    /// of its parts or two lists, which counts one too.
    pub(crate) fn stepped(
        self,
        world: &World,
        ready: &Ready,
        told: &Told,
        budget: u32,
    ) -> Result<Stepped<NearbyText, Vec<u8>>, AllocError>
        requires on { IsNearbyText (world_of world.now) self }
        requires some { 1 ≤ budget }
        ensures steps { IfOk result (StepsText (IsNearbyText (world_of world.now))
            (nearby_comes_to (world_of world.now) ready.now told.now) (text_left (world_of world.now))
            budget self) }
    {
        let NearbyText { text, rows, lists } = self;
        match rows {
            Some(rows) => next_rows(text, rows, lists, world, ready, told, budget),
            None => next_list(text, lists, world, ready, told, budget),
        }
    }
}

/// A text goes on by the beginning of the next list; or it is at its end.
fn next_list(
    text: Vec<u8>,
    lists: Lists,
    world: &World,
    ready: &Ready,
    told: &Told,
    _budget: u32,
) -> Result<Stepped<NearbyText, Vec<u8>>, AllocError>
    requires on { IsNearbyText (world_of world.now)
        (record { text = text; rows = None; lists = lists }) }
    requires some { 1 ≤ _budget }
    ensures steps { IfOk result (StepsText (IsNearbyText (world_of world.now))
        (nearby_comes_to (world_of world.now) ready.now told.now) (text_left (world_of world.now))
        _budget (record { text = text; rows = None; lists = lists })) }
{
    let mut text = text;
    let Lists {
        cost,
        number,
        mut rest,
    } = lists;
    match rest.next() {
        Some(list) => {
            append_head(&mut text, world, ready, told, cost, number)?;
            let rows = Rows {
                list,
                part: first_part(told.form),
                place: 0,
            };
            let lists = Lists { cost, number, rest };
            Ok(later(1, text, Some(rows), lists))
        }
        None => {
            append_end(&mut text, told.form)?;
            Ok(Stepped {
                spent: 0,
                turn: Turn::Done(text),
            })
        }
    }
}

/// A step that spent so much, behind which a text goes on so.
fn later(
    spent: u32,
    text: Vec<u8>,
    rows: Option<Rows>,
    lists: Lists,
) -> Stepped<NearbyText, Vec<u8>>
    ensures exact { result ≡ record {
      spent = spent;
      turn = More (record { text = text; rows = rows; lists = lists });
    } }
{
    Stepped {
        spent,
        turn: Turn::More(NearbyText { text, rows, lists }),
    }
}

/// A text goes on by rows of a list, or by what stands behind a part of it.
fn next_rows(
    text: Vec<u8>,
    rows: Rows,
    lists: Lists,
    world: &World,
    ready: &Ready,
    told: &Told,
    budget: u32,
) -> Result<Stepped<NearbyText, Vec<u8>>, AllocError>
    requires on { IsNearbyText (world_of world.now)
        (record { text = text; rows = Some rows; lists = lists }) }
    requires some { 1 ≤ budget }
    ensures steps { IfOk result (StepsText (IsNearbyText (world_of world.now))
        (nearby_comes_to (world_of world.now) ready.now told.now) (text_left (world_of world.now))
        budget (record { text = text; rows = Some rows; lists = lists })) }
{
    if rows.place == rows.list.len() {
        return behind_part(text, rows, lists, world, ready, told, budget);
    }
    let mut text = text;
    let Rows { list, part, place } = rows;
    let count = (list.len() - place).min(ROWS).min(budget as usize);
    let end = place + count;
    let number = lists.number;
    append_rows(
        &mut text,
        world,
        ready,
        told,
        number,
        part,
        list.as_slice(),
        place,
        end,
    )?;
    let rows = Rows {
        list,
        part,
        place: end,
    };
    Ok(later(count as u32, text, Some(rows), lists))
}

/// A text goes on by what stands behind a part of a list, all rows of which are written.
fn behind_part(
    text: Vec<u8>,
    rows: Rows,
    lists: Lists,
    _world: &World,
    _ready: &Ready,
    _told: &Told,
    _budget: u32,
) -> Result<Stepped<NearbyText, Vec<u8>>, AllocError>
    requires on { IsNearbyText (world_of _world.now)
        (record { text = text; rows = Some rows; lists = lists }) }
    requires whole { rows.place ≡ length rows.list.items }
    requires some { 1 ≤ _budget }
    ensures steps { IfOk result (StepsText (IsNearbyText (world_of _world.now))
        (nearby_comes_to (world_of _world.now) _ready.now _told.now)
        (text_left (world_of _world.now)) _budget
        (record { text = text; rows = Some rows; lists = lists })) }
{
    let mut text = text;
    let Rows {
        list,
        part,
        place: _,
    } = rows;
    match next_part(&mut text, part)? {
        Some(part) => {
            let rows = Rows {
                list,
                part,
                place: 0,
            };
            Ok(later(1, text, Some(rows), lists))
        }
        None => {
            let Lists { cost, number, rest } = lists;
            let lists = Lists {
                cost,
                number: number + 1,
                rest,
            };
            Ok(later(1, text, None, lists))
        }
    }
}
