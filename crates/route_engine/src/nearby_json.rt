//! What lies within a cost, as GeoJSON.

ghost use Rattle.std.specs.Prelude.{◌≡◌, ◌++◌, ◌≤◌, OnOk, length};
ghost use Rattle.route_engine.specs.NearbyAnswers.{AreOnMap, asked_part, feature_head, feature_name, near_cost, near_id, near_position};
ghost use Rattle.route_engine.specs.NearbyTexts.{feature_begin, items_behind};
ghost use Rattle.route_engine.specs.Told.{source_by};
ghost use Rattle.route_ready.specs.World.{world_of};

use crate::told::Told;
use item_list::{append_number, append_signed};
use overpass_graph::Map;
use route_ready::{Ready, World};
use std::alloc::AllocError;
use track_reply::{append_comma, append_escaped, append_position, append_sum};

/// Appends what stands before the ids of the nodes of a waypoint, behind a comma but where it is the
/// first.
#[tactic(auto, unfolding(crate::specs::NearbyTexts::feature_begin))]
pub(crate) fn append_feature_head(
    text: &mut Vec<u8>,
    world: &World,
    _ready: &Ready,
    told: &Told,
    cost: u64,
    number: usize,
) -> Result<(), AllocError>
    ensures exact { let source = source_by (world_of world.now) _ready.now told.now in
        OnOk result (text.new.items ≡ text.old.items ++ feature_begin source cost number) }
{
    append_comma(text, number)?;
    append_name(text, world, _ready, told)?;
    append_asked(text, cost)?;
    text.extend_from_slice(b"\",\"nodes\":[")
}

/// Appends what stands up to the name: that of the profile, and the number of the alternative.
#[tactic(auto, unfolding(crate::specs::NearbyAnswers::feature_name))]
fn append_name(
    text: &mut Vec<u8>,
    _world: &World,
    _ready: &Ready,
    told: &Told,
) -> Result<(), AllocError>
    ensures exact { let source = source_by (world_of _world.now) _ready.now told.now in
        OnOk result (text.new.items ≡ text.old.items ++ feature_name source) }
{
    text.extend_from_slice(feature_head())?;
    append_escaped(text, told.name.as_slice())?;
    text.extend_from_slice(b"_")?;
    append_number(text, u64::from(told.alternative))
}

/// What stands before the name.
#[tactic(auto, unfolding(crate::specs::NearbyAnswers::feature_head))]
fn feature_head() -> &'static [u8]
    ensures exact { result.now ≡ feature_head }
{
    b"{\"type\":\"Feature\",\"properties\":{\"creator\":\"route_serve\",\"name\":\""
}

/// Appends the cost that is asked for.
#[tactic(auto, unfolding(crate::specs::NearbyAnswers::asked_part))]
fn append_asked(text: &mut Vec<u8>, cost: u64) -> Result<(), AllocError>
    ensures exact { OnOk result (text.new.items ≡ text.old.items ++ asked_part cost) }
{
    text.extend_from_slice(b"\",\"cost\":\"")?;
    append_sum(text, u128::from(cost))
}

/// Appends ids from a place up to another, each behind a comma but the first of all.
pub(crate) fn append_ids(
    text: &mut Vec<u8>,
    map: &Map,
    list: &[(u32, u128)],
    place: usize,
    end: usize,
) -> Result<(), AllocError>
    requires there { AreOnMap map.now list.now }
    requires rising { place ≤ end }
    requires within { end ≤ length list.now }
    ensures exact { OnOk result (text.new.items ++ items_behind (near_id map.now) end list.now ≡
        text.old.items ++ items_behind (near_id map.now) place list.now) }
{
    'nodes: for at in place..end {
        append_comma(text, at)?;
        let entry = list[at];
        append_signed(text, map.node_id(entry.0))?;
    }
    Ok(())
}

/// Appends costs in quotation marks, from a place up to another.
pub(crate) fn append_sums(
    text: &mut Vec<u8>,
    list: &[(u32, u128)],
    place: usize,
    end: usize,
) -> Result<(), AllocError>
    requires rising { place ≤ end }
    requires within { end ≤ length list.now }
    ensures exact { OnOk result (text.new.items ++ items_behind near_cost end list.now ≡
        text.old.items ++ items_behind near_cost place list.now) }
{
    'costs: for at in place..end {
        append_comma(text, at)?;
        let entry = list[at];
        append_cost(text, entry.1)?;
    }
    Ok(())
}

/// Appends a cost in quotation marks.
fn append_cost(text: &mut Vec<u8>, cost: u128) -> Result<(), AllocError>
    ensures exact { OnOk result (text.new.items ≡ text.old.items ++ near_cost (0, cost)) }
{
    text.extend_from_slice(b"\"")?;
    append_sum(text, cost)?;
    text.extend_from_slice(b"\"")
}

/// Appends positions from a place up to another.
pub(crate) fn append_places(
    text: &mut Vec<u8>,
    world: &World,
    _ready: &Ready,
    _told: &Told,
    list: &[(u32, u128)],
    place: usize,
    end: usize,
) -> Result<(), AllocError>
    requires there { AreOnMap (world_of world.now).map list.now }
    requires rising { place ≤ end }
    requires within { end ≤ length list.now }
    ensures exact { let source = source_by (world_of world.now) _ready.now _told.now in
        OnOk result (text.new.items ++ items_behind (near_position source) end list.now ≡
        text.old.items ++ items_behind (near_position source) place list.now) }
{
    'places: for at in place..end {
        append_comma(text, at)?;
        let entry = list[at];
        append_position(text, world.tiles(), world.map().node_spot(entry.0))?;
    }
    Ok(())
}
