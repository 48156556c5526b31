//! The files of the system, which tell nothing of what they hold.

ghost use Rattle.std.specs.Prelude.{◌≡◌, IfOk, OnErr, is_some};
ghost use Rattle.edge_io.specs.System.{Settles, TellsOpened, fresh_system};

use crate::failed::{Failed, counted, next_count};
use crate::files::Files;
use std::io::{ErrorKind, Read};
use std::marker::Model;
use std::{fs, io, rt};

/// The files of the runtime's system; they tell no more than the open file does.
#[derive(Drop)]
pub struct DirFiles<'a, R: rt::Files> {
    rt: &'a R,
    file: Option<R::File>,
    opens: u64,
    reads: u64,
    faults: u64,
}

impl<'a, R: rt::Files> Model for DirFiles<'a, R> {
    ghost use Rattle.std.specs.Prelude.{None, is_some, option_and_then};
    ghost use Rattle.edge_io.specs.Files.{FilesSeen};

    ghost Value = { FilesSeen };

    ghost view = { λ s. record {
      files = None;
      left = option_and_then R.File.remaining s.file;
      is_open = is_some s.file;
      opens = s.opens;
      reads = s.reads;
      faults = s.faults;
    } };
}

impl<'a, R: rt::Files> DirFiles<'a, R> {
    /// The files of the system of `rt`, with none open and no call so far.
    pub fn new(rt: &'a R) -> Self
        ensures value { result ≡ fresh_system }
    {
        DirFiles {
            rt,
            file: None,
            opens: 0,
            reads: 0,
            faults: 0,
        }
    }
}

/// What the system's answer to an opening means: the file, that none has the name, or a failure.
fn opened<T>(answer: io::Result<T>) -> Result<Option<T>, Failed>
    ensures exact { TellsOpened answer result }
{
    match answer {
        Ok(file) => Ok(Some(file)),
        Err(error) if error.kind() == ErrorKind::NotFound => Ok(None),
        Err(_) => Err(Failed),
    }
}

/// What is open after the system's answer to an opening, and what is answered of it.
fn settled<T: Drop>(file: &mut Option<T>, answer: Result<Option<T>, Failed>) -> Result<bool, Failed>
    ensures exact { Settles file.old file.new answer result }
    ensures found { IfOk result (λ found. found ≡ is_some file.new) }
    ensures kept { OnErr result (file.new ≡ file.old) }
{
    let found = answer?;
    *file = found;
    Ok(file.is_some())
}

impl<R: rt::Files> Files for DirFiles<'_, R> {
    ghost seen = { λ s. s };

    fn open(&mut self, name: &str) -> Result<bool, Failed> {
        self.opens = next_count(self.opens);
        let answer = opened(fs::open(self.rt, name));
        counted(settled(&mut self.file, answer), &mut self.faults)
    }

    fn read(&mut self, buf: &mut [u8]) -> Result<usize, Failed> {
        let Some(file) = &mut self.file else {
            unreachable!();
        };
        self.reads = next_count(self.reads);
        match file.read(buf) {
            Ok(given) => Ok(given),
            Err(_) => {
                self.faults = next_count(self.faults);
                Err(Failed)
            }
        }
    }
}
