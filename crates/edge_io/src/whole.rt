//! Reading the open file as a whole.

ghost use Rattle.std.specs.Prelude.{◌≡◌, ◌≤◌, true, length, IfOk, Err};
ghost use Rattle.edge_io.specs.Whole.{IsAllLeft, IsTooLong, ReadsBytes, ReadsOn, ReadsWithin, CountsFault};
ghost use Rattle.edge_io.specs.declared.whole_error.WholeError.{WholeError};

use crate::files::Files;
use crate::whole_error::WholeError;
use std::alloc::Global;

/// The whole of what is left of the open file, if that is no more than `limit` bytes. It takes at
/// most one read more than the limit has bytes.
pub fn read_whole<F: Files>(
    alloc: Global,
    files: &mut F,
    limit: usize,
) -> Result<Vec<u8>, WholeError>
    requires ready { (F.seen files.old).is_open ≡ true }
    ensures exact { IfOk result (λ bytes. IsAllLeft (F.seen files.old).left bytes.items) }
    ensures fits { IfOk result (λ bytes. length bytes.items ≤ limit) }
    ensures too_long { result ≡ Err WholeError.TooLong → IsTooLong (F.seen files.old).left limit }
    // Memory runs out for bytes within the limit alone.
    ensures memory { result ≡ Err WholeError.NoMemory →
        ReadsWithin limit (F.seen files.old) (F.seen files.new) }

    // What stands afterwards.
    ensures value { IfOk result
        (λ bytes. ReadsBytes limit (F.seen files.old) (F.seen files.new) bytes.items) }
    ensures kept { ReadsOn limit (F.seen files.old) (F.seen files.new) }
    ensures cause { CountsFault (F.seen files.old).faults (F.seen files.new).faults result }
{
    let mut bytes = Vec::new(alloc);
    let mut buf = [0u8; 65_536];
    'reading: loop {
        let given = files.read(&mut buf)?;
        if given == 0 {
            return Ok(bytes);
        }
        if given > limit - bytes.len() {
            return Err(WholeError::TooLong);
        }
        bytes.extend_from_slice(&buf[..given])?;
    }
}
