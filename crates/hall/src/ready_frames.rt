//! The frames that were made before.

ghost use Rattle.std.specs.Prelude.{◌≡◌};
ghost use Rattle.hall.specs.Steps.{full_frame, memory_frame};

/// The frames that were made before, so that they take no memory when they are sent.
pub struct ReadyFrames {
    /// That of want of memory.
    pub(crate) memory: Vec<u8>,
    /// That of connections that are turned away.
    pub(crate) full: Vec<u8>,
    ghost memory_is: { memory.items ≡ memory_frame },
    ghost full_is: { full.items ≡ full_frame },
}

impl Drop for ReadyFrames {
    fn drop(self) {
        let ReadyFrames { memory: _, full: _ } = self;
    }
}
