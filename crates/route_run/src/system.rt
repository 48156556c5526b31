//! The program over the system that runs it.

ghost use Rattle.std.specs.IoError.{error_kind};
ghost use Rattle.std.specs.Prelude.{◌≡◌, drop};
ghost use Rattle.route_run.specs.Program.{fault_of};

use crate::reply::edge;
use edge_io::{DirFiles, StdSink, TcpHub, WriteSink};
use run_files::{Notes, Status};
use std::io::ErrorKind;
use std::process::ExitCode;
use std::{env, io};

/// The words of the command line over the system's files, its two outputs and its network, and the
/// exit status.
pub fn program(rt: &HostRuntime) -> ExitCode {
    let args = match words_of(rt) {
        Ok(words) => Ok(behind_name(words)),
        Err(error) => Err(fault_of(&error)),
    };
    let told = rt.stderr();
    let mut files = DirFiles::new(rt);
    let mut out = StdSink::new(rt);
    let mut err = Notes::over(WriteSink::over(io::writer(&told)));
    let mut hub = TcpHub::new(rt, rt.alloc());
    ExitCode::from(edge(rt.alloc(), args, &mut files, &mut out, &mut hub, &mut err))
}

/// All words of the command line, the program's name before the others.
fn words_of(rt: &HostRuntime) -> io::Result<Vec<String>> {
    let mut words = Vec::new(rt.alloc());
    for word in env::args(rt)? {
        words.push(word)?;
    }
    Ok(words)
}

/// The words behind the first one, which is the program's name.
fn behind_name(words: Vec<String>) -> Vec<String>
    ensures exact { result.items ≡ drop 1 words.items }
{
    let mut words = words;
    if words.len() > 0 {
        let _name = words.remove(0);
    }
    words
}

/// The status of a command line that the system could not give: want of memory, or words that are
/// no text.
fn fault_of(error: &io::Error) -> Status
    ensures exact { result ≡ fault_of (error_kind error.now) }
{
    if error.kind() == ErrorKind::OutOfMemory {
        Status::NoMemory
    } else {
        Status::Usage { word: 0 }
    }
}
