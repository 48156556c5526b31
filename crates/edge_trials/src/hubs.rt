//! The network over the loopback, in one thread.

use crate::heard::Heard;
use edge_io::{Event, Failed, Hub, TcpHub};
use std::alloc::{AllocError, Global};
use std::collections::VecDeque;
use std::io;
use std::io::{Read, Write};
use std::net::{Ipv4Addr, Net, Shutdown, TcpStream};
use std::test::Fail;

/// Whether the hub opens on this port of the loopback, with an end of a peer as a loss or not.
fn opens_at<H: Hub>(
    alloc: Global,
    hub: &mut H,
    port: u16,
    hangup: bool,
) -> Result<bool, AllocError> {
    let address = format!(in alloc; "127.0.0.1:{port}")?;
    Ok(hub.open(address.as_str(), hangup).is_ok())
}

/// Opens the hub on a free port of the loopback, and tells it; 0 where none is free.
fn opened<H: Hub>(alloc: Global, hub: &mut H, hangup: bool) -> Result<u16, AllocError> {
    for port in 42_101u16..42_161 {
        if opens_at(alloc, hub, port, hangup)? {
            return Ok(port);
        }
    }
    Ok(0)
}

/// Takes the hub's next event, while nobody waits for an answer.
fn hear<H: Hub>(alloc: Global, heard: &mut Heard, hub: &mut H) -> Result<(), AllocError> {
    let mut buf = [0u8; 16];
    let nobody = VecDeque::new(alloc);
    match hub.next(&mut buf, &nobody, false) {
        Ok(event) => heard.take(event, &buf),
        Err(Failed) => Ok(()),
    }
}

/// Hears until so many bytes came and so many connections ended or were lost, at most a thousand
/// events.
fn hear_until<H: Hub>(
    alloc: Global,
    heard: &mut Heard,
    hub: &mut H,
    bytes: usize,
    ended: u64,
) -> Result<(), AllocError> {
    for _ in 0..1000 {
        if !heard.has(bytes, ended) {
            hear(alloc, heard, hub)?;
        }
    }
    Ok(())
}

/// What the hub told of a peer that sent a head: how many opened, and the bytes.
fn head_comes<H: Hub>(
    alloc: Global,
    hub: &mut H,
    peer: &mut TcpStream,
    heard: &mut Heard,
) -> io::Result<bool> {
    let head = b"GET /brouter HTTP/1.1\r\nHost: here\r\n\r\n".as_slice();
    peer.write_all(head)?;
    hear_until(alloc, heard, hub, head.len(), 0)?;
    Ok(heard.has_message(head))
}

/// Whether a peer gets the bytes that are sent to it.
fn answer_goes_back<H: Hub>(hub: &mut H, peer: &mut TcpStream, id: u64) -> io::Result<bool> {
    let text = b"HTTP/1.1 404 Not Found".as_slice();
    let sent = hub.send(id, text);
    let mut answer = [0u8; 22];
    peer.read_exact(&mut answer)?;
    Ok(sent == Ok(22) && answer.as_slice() == text)
}

/// Whether the end of a peer is told, and whether after a close it reads its end and nothing is
/// sent to it.
fn peer_ends<H: Hub>(
    alloc: Global,
    hub: &mut H,
    peer: &mut TcpStream,
    heard: &mut Heard,
) -> io::Result<bool> {
    peer.shutdown(Shutdown::Write)?;
    hear_until(alloc, heard, hub, 0, 1)?;
    hub.close(heard.last);
    let more = peer.read(&mut [0u8; 22])?;
    Ok(heard.ended == 1 && more == 0 && hub.send(heard.last, b"late").is_err())
}

/// A peer of the hub, from its head to its end.
fn a_whole_exchange<H: Hub>(
    alloc: Global,
    hub: &mut H,
    peer: &mut TcpStream,
    heard: &mut Heard,
) -> io::Result<bool> {
    let came = head_comes(alloc, hub, peer, heard)?;
    let went = answer_goes_back(hub, peer, heard.last)?;
    let ends = peer_ends(alloc, hub, peer, heard)?;
    Ok(came && went && ends)
}

/// The same of a peer that is made for it at a port.
fn exchanges<H: Hub>(rt: &HostRuntime, hub: &mut H, port: u16) -> io::Result<bool> {
    let mut peer = TcpStream::connect(rt, (Ipv4Addr::LOCALHOST, port))?;
    let mut heard = Heard::new(rt.alloc());
    a_whole_exchange(rt.alloc(), hub, &mut peer, &mut heard)
}

/// Whether a hub without an address is refused, and a fresh one is quiet; then its port.
fn quiet_at<H: Hub>(alloc: Global, hub: &mut H) -> Result<(bool, u16), AllocError> {
    let nobody = VecDeque::new(alloc);
    let refused = hub.open("nowhere", false).is_err()
        && hub.next(&mut [0u8; 1], &nobody, true).is_err();
    let port = opened(alloc, hub, false)?;
    let quiet = hub.next(&mut [0u8; 1], &nobody, true) == Ok(Event::Quiet);
    Ok((refused && quiet, port))
}

#[test]
fn a_head_comes_and_an_answer_goes_back(rt: HostRuntime) -> Result<(), Fail> {
    let mut hub = TcpHub::new(&rt, rt.alloc());
    let (quiet, port) = quiet_at(rt.alloc(), &mut hub)?;
    let whole = exchanges(&rt, &mut hub, port)?;
    assert!(rt; quiet && whole);
    Ok(())
}

/// Whether a hub that is opened so tells the end of a peer, after its whole request, accordingly.
fn tells_the_end<H: Hub>(rt: &HostRuntime, hub: &mut H, hangup: bool) -> io::Result<bool> {
    let port = opened(rt.alloc(), hub, hangup)?;
    let mut peer = TcpStream::connect(rt, (Ipv4Addr::LOCALHOST, port))?;
    let mut heard = Heard::new(rt.alloc());
    let came = head_comes(rt.alloc(), hub, &mut peer, &mut heard)?;
    peer.shutdown(Shutdown::Write)?;
    hear_until(rt.alloc(), &mut heard, hub, 0, 1)?;
    let held = hub.send(heard.last, b"late").is_ok();
    Ok(came && heard.ends_as(hangup, held))
}

#[test]
fn an_end_is_a_loss_where_the_hub_was_opened_so(rt: HostRuntime) -> Result<(), Fail> {
    let mut hub = TcpHub::new(&rt, rt.alloc());
    let ends = tells_the_end(&rt, &mut hub, false)?;
    let mut other = TcpHub::new(&rt, rt.alloc());
    let hangs_up = tells_the_end(&rt, &mut other, true)?;
    assert!(rt; ends && hangs_up);
    Ok(())
}

/// Adds a peer at a port, which sent these bytes.
fn add_peer(
    rt: &HostRuntime,
    peers: &mut Vec<TcpStream>,
    port: u16,
    bytes: &[u8],
) -> io::Result<()> {
    let mut peer = TcpStream::connect(rt, (Ipv4Addr::LOCALHOST, port))?;
    peer.write_all(bytes)?;
    peers.push(peer)?;
    Ok(())
}

/// Adds a peer that sent more than is heard, and 150 that sent three bytes each.
fn add_peers(rt: &HostRuntime, peers: &mut Vec<TcpStream>, port: u16) -> io::Result<()> {
    add_peer(rt, peers, port, &[b'x'; 40_000])?;
    for _ in 0..150 {
        add_peer(rt, peers, port, b"abc")?;
    }
    Ok(())
}

/// Whether of so many events all peers are heard, though the first sends without end.
fn hears_all<H: Hub>(alloc: Global, hub: &mut H) -> io::Result<bool> {
    let mut heard = Heard::new(alloc);
    for _ in 0..1500 {
        hear(alloc, &mut heard, hub)?;
    }
    Ok(heard.has_peers(151, 450, b'x', 40_000))
}

/// Whether a hub that is opened here hears all its peers.
fn is_fair<H: Hub>(rt: &HostRuntime, hub: &mut H) -> io::Result<bool> {
    let port = opened(rt.alloc(), hub, false)?;
    let mut peers = Vec::new(rt.alloc());
    add_peers(rt, &mut peers, port)?;
    hears_all(rt.alloc(), hub)
}

#[test]
fn a_busy_connection_keeps_no_other_waiting(rt: HostRuntime) -> Result<(), Fail> {
    let mut hub = TcpHub::new(&rt, rt.alloc());
    let all = is_fair(&rt, &mut hub)?;
    assert!(rt; all);
    Ok(())
}
