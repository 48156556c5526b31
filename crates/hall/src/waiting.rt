//! That each search comes to its end.

ghost use Rattle.hall.specs.State.{Service};
ghost use Rattle.hall.specs.Waiting.{EndsEachWait};

/// Whatever a run of turns from a hall without connections does, a session whose search waits is
/// given a frame or is lost within a number of turns that its request fixes.
pub fn each_wait_ends()
    ensures law { (service : Service) → EndsEachWait service }
{}
