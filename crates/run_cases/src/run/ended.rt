//! How the top call ended, and what is told of that.

use crate::run::outside::Outside;
use item_list::{append_bytes, append_named, append_number, bytes_of};
use run_files::Status;
use std::alloc::{AllocError, Global};

/// How the top call ended: number and line of the status, what was written, and how often files
/// were opened.
pub(crate) struct Ended {
    number: u8,
    line: Vec<u8>,
    written: Vec<u8>,
    opens: u64,
}

impl Drop for Ended {
    fn drop(self) {
        let Ended {
            number: _,
            line: _,
            written: _,
            opens: _,
        } = self;
    }
}

impl Ended {
    /// How the top call ended with a status over files and an output.
    pub(crate) fn new(alloc: Global, status: &Status, over: &Outside) -> Result<Ended, AllocError> {
        let line = status.line(alloc)?;
        let written = bytes_of(alloc, over.out.bytes())?;
        Ok(Ended {
            number: status.number(),
            line,
            written,
            opens: over.files.opens(),
        })
    }

    /// What was written.
    pub(crate) fn written(&self) -> &[u8] {
        self.written.as_slice()
    }

    /// Appends number and line of the status.
    pub(crate) fn append_status(&self, told: &mut Vec<u8>) -> Result<(), AllocError> {
        append_number(told, u64::from(self.number))?;
        append_in_brackets(told, self.line.as_slice())
    }

    /// Appends number and line of the status, and what was written.
    pub(crate) fn append_output(&self, told: &mut Vec<u8>) -> Result<(), AllocError> {
        self.append_status(told)?;
        append_in_brackets(told, self.written.as_slice())
    }

    /// Appends all.
    pub(crate) fn append_all(&self, told: &mut Vec<u8>) -> Result<(), AllocError> {
        self.append_output(told)?;
        append_named(told, b" ", self.opens)
    }
}

/// Appends a text in brackets.
pub(crate) fn append_in_brackets(told: &mut Vec<u8>, text: &[u8]) -> Result<(), AllocError> {
    append_bytes(told, b" [")?;
    append_bytes(told, text)?;
    append_bytes(told, b"]")
}
