//! Certificates written as texts.

ghost use Rattle.std.specs.Prelude.{◌≡◌, ◌∷◌, ◌++◌, [], IfOk, OnOk};
ghost use Rattle.overpass_graph.specs.Names.{letter_of, step_text};
ghost use Rattle.certificate_text.specs.Lines.{AreLinks, IsEntry, IsLink, buffers_text, entry_text, head_text, lines_of, link_text, walk_text, weights_text};
ghost use Rattle.certificate_text.specs.Lines.{Label};
ghost use Rattle.certificate_text.specs.Texts.{AreLegs, IsLeg, certificate_text, labels_of, leg_forms, leg_of, legs_of, value_of};
ghost use Rattle.std.specs.List.{AllByRecursion};

use crate::certificate::{Certificate, Entry, LowerBound, Proof};
use item_list::{append_bytes, append_number, append_signed, append_wide, bytes_of};
use overpass_graph::{Link, Map};
use std::alloc::{AllocError, Global};

/// The text of a certificate.
pub fn write(alloc: Global, certificate: &Certificate, map: &Map) -> Result<Vec<u8>, AllocError>
    requires legs { AreLegs map.now (legs_of certificate.now) }
    ensures exact { IfOk result
        (λ text. text.items ≡ certificate_text map.now (value_of certificate.now)) }
{
    let mut text = bytes_of(alloc, first_line(certificate.bound))?;
    'legs: for place in 0..certificate.legs.len() {
        append_leg(&mut text, map, &certificate.legs[place])?;
    }
    append_bytes(&mut text, b"end\n")?;
    Ok(text)
}

/// The first line of a certificate's text, which says its lower bound.
fn first_line(bound: LowerBound) -> &'static [u8]
    ensures exact { result.now ≡ head_text bound ++ (10 ∷ []) }
{
    match bound {
        LowerBound::Zero => b"certificate 1\n",
        LowerBound::Least => b"certificate 2\n",
    }
}

/// Appends the lines of a leg.
fn append_leg(text: &mut Vec<u8>, map: &Map, proof: &Proof) -> Result<(), AllocError>
    requires leg { IsLeg map.now (leg_of proof.now) }
    ensures exact { OnOk result
        (text.new.items ≡ text.old.items ++ lines_of map.now (leg_forms (leg_of proof.now))) }
{
    append_bytes(text, b"leg")?;
    append_walk(text, map, proof.walk.as_slice())?;
    append_bytes(text, b"\ncost ")?;
    append_wide(text, proof.cost)?;
    append_bytes(text, b"\n")?;
    append_labels(text, map, proof.entries.as_slice())
}

/// Appends each link of a walk behind a space.
fn append_walk(text: &mut Vec<u8>, map: &Map, walk: &[u32]) -> Result<(), AllocError>
    requires links { AreLinks map.now walk.now }
    ensures exact { OnOk result (text.new.items ≡ text.old.items ++ walk_text map.now walk.now) }
{
    'links: for place in 0..walk.len() {
        append_bytes(text, b" ")?;
        append_link(text, map, walk[place])?;
    }
    Ok(())
}

/// Appends the name of a link.
#[tactic(auto, unfolding(overpass_graph::specs::Names::name_text))]
fn append_link(text: &mut Vec<u8>, map: &Map, link: u32) -> Result<(), AllocError>
    requires in_range { IsLink map.now link }
    ensures exact { OnOk result (text.new.items ≡ text.old.items ++ link_text map.now link) }
{
    let _count = map.links();
    let taken = map.link(link);
    append_signed(text, map.way_id(taken.way))?;
    append_bytes(text, b"/")?;
    append_step(text, &taken)
}

/// Appends the segment and the direction of a link.
fn append_step(text: &mut Vec<u8>, link: &Link) -> Result<(), AllocError>
    ensures exact { OnOk result
        (text.new.items ≡ text.old.items ++ step_text link.now.segment link.now.back) }
{
    append_number(text, u64::from(link.segment))?;
    append_bytes(text, direction(link))
}

/// A link's direction, behind a slash.
fn direction(link: &Link) -> &'static [u8]
    ensures exact { result.now ≡ 47 ∷ letter_of link.now.back }
{
    if link.back { b"/b" } else { b"/f" }
}

/// Appends the lines of labels.
fn append_labels(text: &mut Vec<u8>, map: &Map, entries: &[Entry]) -> Result<(), AllocError>
    requires entries { AllByRecursion (IsEntry map.now) entries.now }
    ensures exact { OnOk result
        (text.new.items ≡ text.old.items ++ lines_of map.now (labels_of entries.now)) }
{
    'entries: for place in 0..entries.len() {
        append_label(text, map, entries[place])?;
    }
    Ok(())
}

/// Appends the line of a label.
fn append_label(text: &mut Vec<u8>, map: &Map, entry: Entry) -> Result<(), AllocError>
    requires entry { IsEntry map.now entry }
    ensures exact { OnOk result
        (text.new.items ≡ text.old.items ++ lines_of map.now (Label entry ∷ [])) }
{
    append_bytes(text, b"label ")?;
    append_entry(text, map, entry)?;
    append_bytes(text, b"\n")
}

/// Appends a label.
fn append_entry(text: &mut Vec<u8>, map: &Map, entry: Entry) -> Result<(), AllocError>
    requires entry { IsEntry map.now entry }
    ensures exact { OnOk result (text.new.items ≡ text.old.items ++ entry_text map.now entry) }
{
    append_link(text, map, entry.link)?;
    append_bytes(text, b" ")?;
    append_weights(text, entry)
}

/// Appends the cost and the buffers of a label.
fn append_weights(text: &mut Vec<u8>, entry: Entry) -> Result<(), AllocError>
    ensures exact { OnOk result
        (text.new.items ≡ text.old.items ++ weights_text entry.cost entry.down entry.up) }
{
    append_wide(text, entry.cost)?;
    append_bytes(text, b" ")?;
    append_buffers(text, entry.down, entry.up)
}

/// Appends two buffers.
fn append_buffers(text: &mut Vec<u8>, down: i64, up: i64) -> Result<(), AllocError>
    ensures exact { OnOk result (text.new.items ≡ text.old.items ++ buffers_text down up) }
{
    append_signed(text, down)?;
    append_bytes(text, b" ")?;
    append_signed(text, up)
}
