//! What a command line runs over.

use edge_memory::{MemFiles, MemSink};
use run_files::Notes;

/// Files, the output, and what is noted and told beside the output.
pub(crate) struct Outside {
    pub(crate) files: MemFiles,
    pub(crate) out: MemSink,
    pub(crate) err: Notes<MemSink>,
}

impl Drop for Outside {
    fn drop(self) {
        let Outside {
            files: _,
            out: _,
            err: _,
        } = self;
    }
}
