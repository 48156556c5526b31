//! Files that are opened by name and read from their front.

ghost use Rattle.std.specs.Prelude.{◌≡◌, ◌<◌, ◌≤◌, true, length, IfOk, OnErr};
ghost use Rattle.edge_io.specs.Files.{FilesSeen, Opens, FailsToOpen, Reads, FailsToRead};

use crate::failed::Failed;

/// Files that are opened by name, one at a time, and read from their front.
pub trait Files {
    /// What they show: names and contents and what is left of the open file, where they tell it;
    /// whether a file is open; the counts of openings, reads and failed calls, which stand still at
    /// their last value.
    ghost seen: { Self → FilesSeen };

    /// Opens the file of this name in place of the one that is open; `false` where no file has the
    /// name, and then none is open.
    fn open(&mut self, name: &str) -> Result<bool, Failed>
        ensures found { IfOk result (Opens (seen self.old) (seen self.new) name.now) }
        ensures kept { OnErr result (FailsToOpen (seen self.old) (seen self.new)) };

    /// Puts some next bytes of the open file at the front of the buffer; none alone at the file's
    /// end.
    fn read(&mut self, buf: &mut [u8]) -> Result<usize, Failed>
        requires ready { (seen self.old).is_open ≡ true }
        requires some { 0 < length buf.old }
        ensures fits { IfOk result (λ n. n ≤ length buf.new) }
        ensures found { IfOk result (Reads (seen self.old) (seen self.new) buf.new) }
        ensures kept { OnErr result (FailsToRead (seen self.old) (seen self.new)) };
}
