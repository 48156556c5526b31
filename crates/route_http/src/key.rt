//! The keys of a query.
ghost use Rattle.std.specs.Prelude.{◌≡◌};
ghost use Rattle.route_http.specs.Key.{key_of};
ghost use Rattle.route_http.specs.Lines.{key_name};

/// A key of a query.
#[derive(Clone, Copy)]
pub enum Key {
    Lonlats,
    Nogos,
    Profile,
    Alternativeidx,
    Format,
    Labels,
    /// Each key that begins with `profile:`.
    Override,
    Runs,
    /// The cost within which nodes are asked for.
    Cost,
    /// The waypoints from which costs are asked for.
    Sources,
    /// The waypoints to which costs are asked for.
    Destinations,
}

impl Key {
    /// The key of a name, if there is one, where a cost may come or not, and waypoints of a table.
    #[tactic(auto, unfolding(crate::specs::Key::key_of))]
    pub(crate) fn of(costed: bool, tabled: bool, name: &[u8]) -> Option<Key>
        ensures exact { result ≡ key_of costed tabled name.now }
    {
        if name == b"lonlats".as_slice() {
            Some(Key::Lonlats)
        } else if name == b"nogos".as_slice() {
            Some(Key::Nogos)
        } else if name == b"profile".as_slice() {
            Some(Key::Profile)
        } else if name == b"alternativeidx".as_slice() {
            Some(Key::Alternativeidx)
        } else if name == b"format".as_slice() {
            Some(Key::Format)
        } else if name == b"labels".as_slice() {
            Some(Key::Labels)
        } else if name == b"runs".as_slice() {
            Some(Key::Runs)
        } else if costed && name == b"cost".as_slice() {
            Some(Key::Cost)
        } else if tabled && name == b"sources".as_slice() {
            Some(Key::Sources)
        } else if tabled && name == b"destinations".as_slice() {
            Some(Key::Destinations)
        } else if name.starts_with(b"profile:") {
            Some(Key::Override)
        } else {
            None
        }
    }

    /// The key as it is written.
    pub(crate) fn name(self) -> &'static str
        ensures exact { result.now ≡ key_name self }
    {
        match self {
            Key::Lonlats => "lonlats",
            Key::Nogos => "nogos",
            Key::Profile => "profile",
            Key::Alternativeidx => "alternativeidx",
            Key::Format => "format",
            Key::Labels => "labels",
            Key::Override => "profile:",
            Key::Runs => "runs",
            Key::Cost => "cost",
            Key::Sources => "sources",
            Key::Destinations => "destinations",
        }
    }
}
