//! Sessions that are read.

ghost use Rattle.std.specs.Prelude.{◌≡◌, ◌⊎◌, false};
ghost use Rattle.hall.specs.Parts.{AreReadied, IsHeld, Settles, answered_by, connection_of, frame_in, service_in, state_in};
ghost use Rattle.hall.specs.State.{Connection};
ghost use Rattle.hall.specs.Steps.{Hears, memory_frame, with_bytes, with_end};
ghost use Rattle.hall.specs.declared.peer.Frame.{Frame};
ghost use Rattle.hall.specs.declared.peer.Phase.TheVariants as phases;
ghost use Rattle.session_answers.specs.Frames.{refusal_frame};
ghost use Rattle.session_answers.specs.Received.{received_of};
ghost use Rattle.session_answers.specs.Verdicts.{IsVerdict, IsVerdictIn};
ghost use Rattle.session_answers.specs.declared.verdict.Verdict.TheVariants.{Query, Upload};

use crate::changes::{answered, silent, whole};
use crate::desk::Desk;
use crate::peer::{Frame, Peer};
use crate::peers::reader_of;
use crate::queue::joined;
use crate::room::Room;
use route_engine::Aim;
use route_http::Span;
use session_answers::{Begun, Refusal, Verdict, begin, refusal_frame, upload};
use std::alloc::Global;

/// Takes bytes that came from a connection.
pub(crate) fn came(room: &mut Room, id: u64, bytes: &[u8])
    requires held { IsHeld room.old }
    ensures hears { Hears (service_in room.old) (state_in room.old) id (with_bytes bytes.now)
        (state_in room.new) }
    ensures held { IsHeld room.new }
    ensures same { service_in room.new ≡ service_in room.old }
{
    if let Some(k) = reader_of(room, id) {
        read(&mut room.desk, &mut room.peers[k], bytes);
    }
}

/// Takes the end of a peer.
pub(crate) fn ended(room: &mut Room, id: u64)
    requires held { IsHeld room.old }
    ensures hears { Hears (service_in room.old) (state_in room.old) id with_end
        (state_in room.new) }
    ensures held { IsHeld room.new }
    ensures same { service_in room.new ≡ service_in room.old }
{
    if let Some(k) = reader_of(room, id) {
        read_to_end(&mut room.desk, &mut room.peers[k]);
    }
}

/// Takes bytes that came from a session that is read.
fn read(desk: &mut Desk, peer: &mut Peer, bytes: &[u8])
    requires kept { AreReadied desk.old }
    requires read { peer.old.phase ≡ phases.Reading }
    requires unended { peer.old.ended ≡ false }
    ensures settles { Settles desk.old desk.new (connection_of peer.old)
        (with_bytes bytes.now (connection_of peer.old)) peer.old.id peer.old.away peer.new }
{
    match peer.received.add(bytes) {
        Ok(verdict) => settled(desk, peer, verdict),
        Err(_) => answered(peer, Frame::Memory),
    }
}

/// Takes the end of the peer of a session that is read.
fn read_to_end(desk: &mut Desk, peer: &mut Peer)
    requires kept { AreReadied desk.old }
    requires read { peer.old.phase ≡ phases.Reading }
    ensures settles { Settles desk.old desk.new (connection_of peer.old)
        (with_end (connection_of peer.old)) peer.old.id peer.old.away peer.new }
{
    peer.ended = true;
    let verdict = peer.received.end();
    settled(desk, peer, verdict)
}

/// Gives a session what is fixed for it.
fn settled(desk: &mut Desk, peer: &mut Peer, verdict: Verdict)
    requires kept { AreReadied desk.old }
    requires read { peer.old.phase ≡ phases.Reading }
    requires verdict { IsVerdict (received_of peer.old.received) peer.old.ended verdict }
    requires within { IsVerdictIn (received_of peer.old.received) verdict }
    ensures settles { (old : Connection) →
        Settles desk.old desk.new old (connection_of peer.old) peer.old.id peer.old.away peer.new }
{
    match verdict {
        Verdict::Undecided => {}
        Verdict::NoByte => silent(peer),
        Verdict::Refused(refusal) => refused(desk.alloc, peer, refusal),
        Verdict::Upload(span) => uploaded(desk, peer, span),
        Verdict::Query(aim, span) => asked(desk, peer, aim, span),
    }
}

/// Answers a session that is refused.
fn refused(alloc: Global, peer: &mut Peer, refusal: Refusal)
    ensures value { (frame : Frame) × (peer.new ≡ answered_by peer.old frame)
        × ((frame_in frame ≡ refusal_frame refusal) ⊎ (frame_in frame ≡ memory_frame)) }
{
    match refusal_frame(alloc, refusal) {
        Ok(frame) => answered(peer, Frame::Own(frame)),
        Err(_) => answered(peer, Frame::Memory),
    }
}

/// Answers a session that uploads a profile.
fn uploaded(desk: &mut Desk, peer: &mut Peer, span: Span)
    requires kept { AreReadied desk.old }
    requires verdict { IsVerdict (received_of peer.old.received) peer.old.ended (Upload span) }
    requires within { IsVerdictIn (received_of peer.old.received) (Upload span) }
    ensures settles { (old : Connection) →
        Settles desk.old desk.new old (connection_of peer.old) peer.old.id peer.old.away peer.new }
{
    let before = desk.profiles.len();
    let text = peer.received.part(span);
    match upload(desk.alloc, desk.world.table(), &mut desk.profiles, text) {
        Ok(frame) => {
            whole(peer, before);
            answered(peer, Frame::Own(frame));
        }
        Err(_) => answered(peer, Frame::Memory),
    }
}

/// Begins what a session asks for: a route or a table.
fn asked(desk: &mut Desk, peer: &mut Peer, aim: Aim, span: Span)
    requires kept { AreReadied desk.old }
    requires verdict { IsVerdict (received_of peer.old.received) peer.old.ended (Query aim span) }
    requires within { IsVerdictIn (received_of peer.old.received) (Query aim span) }
    ensures settles { (old : Connection) →
        Settles desk.old desk.new old (connection_of peer.old) peer.old.id peer.old.away peer.new }
{
    let before = desk.profiles.len();
    let query = peer.received.part(span);
    match begin(
        desk.alloc,
        &desk.world,
        desk.labels,
        &desk.profiles,
        &mut desk.kept,
        aim,
        query,
    ) {
        Ok(Begun::Frame(frame)) => {
            whole(peer, before);
            answered(peer, Frame::Own(frame));
        }
        Ok(Begun::Job(pending)) => {
            whole(peer, before);
            joined(&mut desk.queue, peer, pending);
        }
        Err(_) => answered(peer, Frame::Memory),
    }
}
