//! That connections don't mix, and that accepted uploads alone are stored.

ghost use Rattle.hall.specs.Law.{KeepsApart};
ghost use Rattle.hall.specs.State.{Service};
ghost use Rattle.hall.specs.Uploads.{StoresUploads};

/// Whatever a run of turns from a hall without connections does, each connection gets its own: the
/// bytes that were sent to it stand at the front of one frame, whose cause is in this run: by the
/// bytes and the end that came from it, and the profiles that were stored by then.
pub fn connections_keep_apart()
    ensures law { (service : Service) → KeepsApart service }
{}

/// Whatever a run of turns from a hall without connections does, what is stored grows by the uploads
/// that it accepted, in their order, and by nothing else.
pub fn accepted_uploads_are_stored()
    ensures law { (service : Service) → StoresUploads service }
{}
