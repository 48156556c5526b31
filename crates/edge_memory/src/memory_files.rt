//! Files in memory, which tell what they hold and fail where they are told to.

ghost use Rattle.std.specs.Prelude.{◌≡◌, ◌<◌, ◌≤◌, ◌↔◌, true, length, option_map, IfOk, OnOk, OnErr, IsErr, is_some};
ghost use Rattle.edge_io.specs.Files.{content_of, Opens, FailsToOpen, Reads, FailsToRead};
ghost use Rattle.edge_memory.specs.MemoryFiles.{seen_of, fresh_folder, listed, content_at, FailsCall, given_of, buffer_after, after_opening, after_reading, after_failed_opening, after_failed_read};

use edge_io::{Failed, Files, next_count};
use item_list::Name;
use std::alloc::Global;
use std::marker::Model;

/// Files in memory, each with its name and its content.
pub struct MemFiles {
    files: Vec<(Name, Vec<u8>)>,
    failing: Vec<u64>,
    piece: usize,
    opened: bool,
    place: usize,
    at: usize,
    calls: u64,
    opens: u64,
    reads: u64,
    faults: u64,
}

impl Drop for MemFiles {
    fn drop(self) {
        let MemFiles {
            files: _,
            failing: _,
            piece: _,
            opened: _,
            place: _,
            at: _,
            calls: _,
            opens: _,
            reads: _,
            faults: _,
        } = self;
    }
}

impl Model for MemFiles {
    ghost use Rattle.std.specs.Prelude.{◌≤◌, length};
    ghost use Rattle.edge_memory.specs.MemoryFiles.{Folder};

    ghost Value = { Folder };

    ghost use Rattle.edge_memory.specs.MemoryFilesView.{folder_of, IsWithin};

    ghost view = { folder_of };

    ghost invariant = { IsWithin };
}

impl MemFiles {
    /// These files, of which a read gives at most `piece` bytes. The calls of `open` and `read`
    /// whose numbers, from 0, are in `failing` fail.
    pub fn new(
        _alloc: Global,
        files: Vec<(Name, Vec<u8>)>,
        piece: usize,
        failing: Vec<u64>,
    ) -> MemFiles
        requires fits { 1 ≤ piece }
        ensures value { result ≡ fresh_folder (listed files.items) piece failing.items }
    {
        MemFiles {
            files,
            failing,
            piece,
            opened: false,
            place: 0,
            at: 0,
            calls: 0,
            opens: 0,
            reads: 0,
            faults: 0,
        }
    }

    /// How often `open` was called, failed calls too; the count stands still at its last value.
    pub fn opens(&self) -> u64
        ensures value { result ≡ self.now.opens }
    {
        self.opens
    }
}

/// The place of the first file of this name.
fn place_of(files: &[(Name, Vec<u8>)], name: &[u8]) -> Option<usize>
    ensures value { option_map (content_at (listed files.now)) result ≡
        content_of (listed files.now) name.now }
{
    let mut place = 0;
    'finding: while place < files.len() {
        if files[place].0.as_slice() == name {
            return Some(place);
        }
        place += 1;
    }
    None
}

/// The content of the file at this place; nothing where there is none.
fn content(files: &[(Name, Vec<u8>)], place: usize) -> &[u8]
    ensures value { result.now ≡ content_at (listed files.now) place }
{
    if place < files.len() {
        files[place].1.as_slice()
    } else {
        &[]
    }
}

impl Files for MemFiles {
    ghost seen = { seen_of };

    fn open(&mut self, name: &str) -> Result<bool, Failed>
        ensures refused { IsErr result ↔ FailsCall self.old }
        ensures exact { IfOk result
            (λ found. found ≡ is_some (content_of self.old.files name.now)) }
        ensures written { OnOk result (self.new ≡ after_opening self.old name.now) }
        ensures counted { OnErr result (self.new ≡ after_failed_opening self.old) }

        // What all files promise.
        ensures found { IfOk result (Opens (seen_of self.old) (seen_of self.new) name.now) }
        ensures kept { OnErr result (FailsToOpen (seen_of self.old) (seen_of self.new)) }
    {
        let call = self.calls;
        self.calls = next_count(call);
        self.opens = next_count(self.opens);
        if self.failing.contains(&call) {
            self.faults = next_count(self.faults);
            return Err(Failed);
        }
        self.at = 0;
        match place_of(self.files.as_slice(), name.as_bytes()) {
            Some(place) => {
                self.place = place;
                self.opened = true;
                Ok(true)
            }
            None => {
                self.opened = false;
                Ok(false)
            }
        }
    }

    fn read(&mut self, buf: &mut [u8]) -> Result<usize, Failed>
        requires ready { is_some self.old.left ≡ true }
        requires some { 0 < length buf.old }
        ensures refused { IsErr result ↔ FailsCall self.old }
        ensures exact { IfOk result (λ n. n ≡ given_of self.old (length buf.old)) }
        ensures filled { OnOk result (buf.new ≡ buffer_after self.old buf.old) }
        ensures written { IfOk result (λ n. self.new ≡ after_reading self.old n) }
        ensures counted { OnErr result (self.new ≡ after_failed_read self.old) }
        ensures unfilled { OnErr result (buf.new ≡ buf.old) }

        // What all files promise.
        ensures fits { IfOk result (λ n. n ≤ length buf.new) }
        ensures found { IfOk result (Reads (seen_of self.old) (seen_of self.new) buf.new) }
        ensures kept { OnErr result (FailsToRead (seen_of self.old) (seen_of self.new)) }
    {
        let call = self.calls;
        self.calls = next_count(call);
        self.reads = next_count(self.reads);
        if self.failing.contains(&call) {
            self.faults = next_count(self.faults);
            return Err(Failed);
        }
        let left = &content(self.files.as_slice(), self.place)[self.at..];
        let given = left.len().min(buf.len()).min(self.piece);
        buf[..given].copy_from_slice(&left[..given]);
        self.at += given;
        Ok(given)
    }
}
