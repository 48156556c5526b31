//! Lists of the numbers of connections.

ghost use Rattle.std.specs.Prelude.{◌≡◌, ◌==◌, not, vec_capacity};
ghost use Rattle.std.specs.List.{filter};

/// Takes a number out of a list, which keeps the others.
pub fn take_out(ids: &mut Vec<u64>, id: u64)
    ensures exact { ids.new.items ≡ filter (λ x. not (x == id)) ids.old.items }
    ensures capacity { vec_capacity ids.new ≡ vec_capacity ids.old }
{
    ids.retain(|held| *held != id);
}
