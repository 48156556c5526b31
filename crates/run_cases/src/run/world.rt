//! Files, an output and a hub in memory, how calls of them fail, and how command lines end over
//! them.

ghost use Rattle.std.specs.Prelude.{◌≤◌};

use crate::run::ended::Ended;
use crate::run::outside::Outside;
use crate::run::peers::{add_deed, copy_of};
use case_inputs::Case;
use edge_memory::{MemFiles, MemHub, MemSink, Script, can_play};
use item_list::{Items, Name, bytes_of};
use route_run::{edge, run};
use run_files::{Notes, Status};
use std::alloc::{AllocError, Global};

/// The number of a call that no row makes.
const NEVER: u64 = 1_000_000;

/// The most openings, events, sends, and bytes of addresses and sends of a hub together.
const HUB_ROOM: usize = 1_000_000;

/// The most bytes that an output holds.
const MOST_ROOM: usize = 3_000_000;

/// The files, the most bytes of a read and the reading call that fails; the room of the output, the
/// most bytes of a write and the writing call that fails, and the same of the notes; what peers do,
/// the most bytes of a piece and the call of the hub that fails.
pub(crate) struct World {
    files: Vec<(Vec<u8>, Vec<u8>)>,
    script: Vec<Script>,
    alloc: Global,
    reads: usize,
    failing_read: u64,
    room: usize,
    writes: usize,
    failing_write: u64,
    note_room: usize,
    notes: usize,
    failing_note: u64,
    piece: usize,
    failing_call: u64,
    ghost reads_some: { 1 ≤ reads },
    ghost writes_some: { 1 ≤ writes },
    ghost notes_some: { 1 ≤ notes },
    ghost piece_some: { 1 ≤ piece },
}

impl Drop for World {
    fn drop(self) {
        let World {
            files: _,
            script: _,
            alloc: _,
            reads: _,
            failing_read: _,
            room: _,
            writes: _,
            failing_write: _,
            note_room: _,
            notes: _,
            failing_note: _,
            piece: _,
            failing_call: _,
        } = self;
    }
}

impl World {
    /// No file, and ample room.
    pub(crate) fn new(alloc: Global) -> World {
        World {
            files: Vec::new(alloc),
            script: Vec::new(alloc),
            alloc,
            reads: 4096,
            failing_read: NEVER,
            room: MOST_ROOM,
            writes: 4096,
            failing_write: NEVER,
            note_room: 10_000,
            notes: 1000,
            failing_note: NEVER,
            piece: 4096,
            failing_call: NEVER,
        }
    }

    /// The allocator of all.
    pub(crate) fn alloc(&self) -> Global {
        self.alloc
    }

    /// Adds a file.
    pub(crate) fn add(&mut self, name: &[u8], content: Vec<u8>) -> Result<(), AllocError> {
        let name = bytes_of(self.alloc, name)?;
        self.files.push((name, content))?;
        Ok(())
    }

    /// Sets the most bytes of a read, and the call that fails.
    pub(crate) fn read_by(&mut self, piece: u64, failing: u64) {
        self.reads = piece.clamp(1, 65_536) as usize;
        self.failing_read = failing;
    }

    /// Sets the room of the output, the most bytes of a write, and the call that fails.
    pub(crate) fn write_by(&mut self, room: u64, piece: u64, failing: u64) {
        self.room = room.min(MOST_ROOM as u64) as usize;
        self.writes = piece.clamp(1, 65_536) as usize;
        self.failing_write = failing;
    }

    /// Sets the room of the notes, the most bytes of a write there, and the call that fails.
    pub(crate) fn note_by(&mut self, room: u64, piece: u64, failing: u64) {
        self.note_room = room.min(10_000) as usize;
        self.notes = piece.clamp(1, 65_536) as usize;
        self.failing_note = failing;
    }

    /// Sets the reading call that fails.
    pub(crate) fn fail_read(&mut self, failing: u64) {
        self.failing_read = failing;
    }

    /// Sets the writing call that fails.
    pub(crate) fn fail_write(&mut self, failing: u64) {
        self.failing_write = failing;
    }

    /// Sets the most bytes of a piece, and the call of the hub that fails, with no peers.
    pub(crate) fn hub_by(&mut self, piece: u64, failing: u64) {
        self.piece = piece.clamp(1, 1_000_000) as usize;
        self.failing_call = failing;
        self.script.clear();
    }

    /// Adds what a peer does.
    pub(crate) fn add_deed(&mut self, case: &Case) -> Result<(), AllocError> {
        add_deed(self.alloc, &mut self.script, case)
    }

    /// Sets the call of the hub that fails.
    pub(crate) fn fail_call(&mut self, failing: u64) {
        self.failing_call = failing;
    }

    /// Lets no call fail.
    pub(crate) fn fail_never(&mut self) {
        self.failing_call = NEVER;
        self.failing_read = NEVER;
        self.failing_write = NEVER;
    }

    /// The files, of which none was opened.
    fn mem_files(&self) -> Result<MemFiles, AllocError> {
        let mut files: Vec<(Name, Vec<u8>)> = Vec::new(self.alloc);
        for (name, content) in &self.files {
            add_copy(self.alloc, &mut files, name.as_slice(), content.as_slice())?;
        }
        let failing = vec![in self.alloc; self.failing_read]?;
        Ok(MemFiles::new(self.alloc, files, self.reads, failing))
    }

    /// The output, to which nothing was written.
    fn mem_sink(&self) -> Result<MemSink, AllocError> {
        let failing = vec![in self.alloc; self.failing_write]?;
        MemSink::new(self.alloc, self.room, self.writes, failing)
    }

    /// Where notes go, to which nothing was written.
    fn note_sink(&self) -> Result<MemSink, AllocError> {
        let failing = vec![in self.alloc; self.failing_note]?;
        MemSink::new(self.alloc, self.note_room, self.notes, failing)
    }

    /// The files, of which none was opened, and outputs, to which nothing was written.
    pub(crate) fn outside(&self) -> Result<Outside, AllocError> {
        let files = self.mem_files()?;
        let out = self.mem_sink()?;
        let err = Notes::over(self.note_sink()?);
        Ok(Outside { files, out, err })
    }

    /// The hub, of which no call was made yet; none where its script can't be played.
    pub(crate) fn hub(&self) -> Result<Option<MemHub>, AllocError> {
        let script = copy_of(self.alloc, self.script.as_slice())?;
        if !can_play(script.as_slice()) {
            return Ok(None);
        }
        let failing = vec![in self.alloc; self.failing_call]?;
        let hub = MemHub::new(self.alloc, script, HUB_ROOM, self.piece, failing)?;
        Ok(Some(hub))
    }

    /// A hub to which nobody connects.
    fn still_hub(&self) -> Result<MemHub, AllocError> {
        MemHub::new(
            self.alloc,
            Vec::new(self.alloc),
            100,
            1,
            Vec::new(self.alloc),
        )
    }

    /// The words of a case from a place on.
    fn words(&self, case: &Case, first: usize) -> Result<Vec<String>, AllocError> {
        let mut words = Vec::new(self.alloc);
        for place in first..case.len() {
            words.push(String::from_str(self.alloc, case.text(place))?)?;
        }
        Ok(words)
    }

    /// How the top call ends on the words of a case from a place on, where nobody connects.
    pub(crate) fn ended(&self, case: &Case, first: usize) -> Result<Ended, AllocError> {
        let mut hub = self.still_hub()?;
        self.ended_over(case, first, &mut hub)
    }

    /// How the top call ends over a hub.
    pub(crate) fn ended_over(
        &self,
        case: &Case,
        first: usize,
        hub: &mut MemHub,
    ) -> Result<Ended, AllocError> {
        let mut over = self.outside()?;
        let status = self.status(case, first, &mut over, hub)?;
        Ended::new(self.alloc, &status, &over)
    }

    /// The status of the top call over files, an output and a hub.
    fn status(
        &self,
        case: &Case,
        first: usize,
        over: &mut Outside,
        hub: &mut MemHub,
    ) -> Result<Status, AllocError> {
        let words = self.words(case, first)?;
        let status = run(
            self.alloc,
            words.as_slice(),
            &mut over.files,
            &mut over.out,
            hub,
            &mut over.err,
        );
        Ok(status)
    }

    /// The exit status of a command line over files and outputs, where nobody connects.
    pub(crate) fn exit(&self, case: &Case, over: &mut Outside) -> Result<u8, AllocError> {
        let mut hub = self.still_hub()?;
        let words = self.words(case, 1)?;
        let exit = edge(
            self.alloc,
            Ok(words),
            &mut over.files,
            &mut over.out,
            &mut hub,
            &mut over.err,
        );
        Ok(exit)
    }
}

/// Adds a copy of a file.
fn add_copy(
    alloc: Global,
    files: &mut Vec<(Name, Vec<u8>)>,
    name: &[u8],
    content: &[u8],
) -> Result<(), AllocError> {
    let name = Items::from_vec(bytes_of(alloc, name)?);
    let content = bytes_of(alloc, content)?;
    files.push((name, content))?;
    Ok(())
}
