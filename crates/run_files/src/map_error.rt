//! Why the open file holds no map.

ghost use Rattle.std.specs.Prelude.{◌≡◌};
ghost use Rattle.run_files.specs.declared.map_error.MapFileError.TheVariants.{Fault};

use edge_io::Failed;
use overpass_graph::MapError;

/// Why the open file holds no map.
#[derive(Clone, Copy, Drop)]
pub enum MapFileError {
    /// A read failed.
    Fault,
    /// The file has more bytes than are taken, and none of those is at fault.
    TooLong,
    /// The text is no map; it is never want of memory.
    Map(MapError),
    /// Memory ran out.
    NoMemory,
}

impl From<Failed> for MapFileError {
    ghost from_gives = { λ _ e. e ≡ Fault };

    fn from(_error: Failed) -> MapFileError {
        MapFileError::Fault
    }
}
