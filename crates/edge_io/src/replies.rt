//! What the answers of the system's sockets mean, and how long to wait for one.

ghost use Rattle.std.specs.Prelude.{◌≡◌};
ghost use Rattle.std.specs.Duration.{as_nanos};
ghost use Rattle.std.specs.Net.Grammar.{Parses, IsSocketText};
ghost use Rattle.edge_io.specs.Sockets.{TellsArrival, TellsReading, TellsSending, TellsWaiting, may_wait, nap_of, wants_descriptors};

use crate::failed::Failed;
use std::io;
use std::io::ErrorKind;
use std::net::SocketAddr;
use std::time::Duration;

/// What came of taking in a connection.
#[derive(Drop)]
pub enum Arrival<T> {
    /// A peer has connected.
    Came(T),
    /// No peer waits.
    NoneNow,
    /// One was aborted, or couldn't be taken in; another may wait.
    Again,
    /// None can be taken in now, since no descriptor is left.
    Full,
}

/// What came of reading from a connection.
#[derive(Clone, Copy)]
pub enum Reading {
    /// So many bytes came, at least one.
    Arrived { n: usize },
    /// The peer sends no more.
    Ended,
    /// Nothing is there now.
    NotNow,
    /// The read was broken off and may be tried again.
    Again,
    /// The connection is gone.
    Lost,
}

/// The address that a text spells: an IP address and a port.
pub fn address_of(text: &str) -> Result<SocketAddr, Failed>
    ensures exact { Parses IsSocketText text.now result }
{
    match text.parse::<SocketAddr>() {
        Ok(address) => Ok(address),
        Err(_) => Err(Failed),
    }
}

/// The process has as many descriptors as it may have (EMFILE).
const PROCESS_FULL: i32 = 24;

/// The system has as many descriptors as it can have (ENFILE).
const SYSTEM_FULL: i32 = 23;

/// What the system's answer to an accept means. An error of one connection is none of the listener.
pub fn arrived<T>(answer: io::Result<T>) -> Arrival<T>
    ensures exact { TellsArrival answer result }
{
    match answer {
        Ok(stream) => Arrival::Came(stream),
        Err(error) if error.kind() == ErrorKind::WouldBlock => Arrival::NoneNow,
        Err(error) if wants_descriptors(&error) => Arrival::Full,
        Err(_) => Arrival::Again,
    }
}

/// Whether an error says that no descriptor is left.
fn wants_descriptors(error: &io::Error) -> bool
    ensures exact { result ≡ wants_descriptors error.now }
{
    match error.raw_os_error() {
        Some(code) => code == PROCESS_FULL || code == SYSTEM_FULL,
        None => false,
    }
}

/// Whether another peer may be taken in at once behind what came of taking one in.
pub fn may_wait<T>(arrival: &Arrival<T>) -> bool
    ensures exact { result ≡ may_wait arrival.now }
{
    match arrival {
        Arrival::Came(_) | Arrival::Again => true,
        Arrival::NoneNow | Arrival::Full => false,
    }
}

/// What the system's answer to a read into a buffer with room means.
pub fn came(answer: io::Result<usize>) -> Reading
    ensures exact { TellsReading answer result }
{
    match answer {
        Ok(0) => Reading::Ended,
        Ok(n) => Reading::Arrived { n },
        Err(error) if error.kind() == ErrorKind::WouldBlock => Reading::NotNow,
        Err(error) if error.kind() == ErrorKind::Interrupted => Reading::Again,
        Err(_) => Reading::Lost,
    }
}

/// What the system's answer to a write means: so many bytes were taken, none where it would have to
/// wait.
pub fn taken(answer: io::Result<usize>) -> Result<usize, Failed>
    ensures exact { TellsSending answer result }
{
    match answer {
        Ok(n) => Ok(n),
        Err(error) if error.kind() == ErrorKind::WouldBlock => Ok(0),
        Err(error) if error.kind() == ErrorKind::Interrupted => Ok(0),
        Err(_) => Err(Failed),
    }
}

/// What the system's answer to a wait means.
pub fn waited(answer: io::Result<()>) -> Result<(), Failed>
    ensures exact { TellsWaiting answer result }
{
    match answer {
        Ok(()) => Ok(()),
        Err(_) => Err(Failed),
    }
}

/// How long to wait for an event, where so many wait in line, and so many for an answer. It is no
/// time at all where one does, where the caller is busy, or a send took all that it was offered, so
/// that more may be sent.
pub fn nap(in_line: usize, awaited: usize, moved: bool, busy: bool) -> Duration
    ensures exact { as_nanos result ≡ nap_of in_line awaited moved busy }
{
    if in_line == 0 && awaited == 0 && !moved && !busy {
        Duration::from_millis(80)
    } else {
        Duration::from_millis(0)
    }
}
