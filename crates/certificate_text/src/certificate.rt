//! Certificates: walks, and the lists of labels that show them least.

/// A label: the last link of a walk, what the walk costs in millionths, and the buffers after it.
#[derive(Clone, Copy, Debug, PartialEq, Eq)]
pub struct Entry {
    pub cost: u128,
    pub down: i64,
    pub up: i64,
    pub link: u32,
}

/// A leg: its walk, what that costs in millionths, and the labels that show it least.
pub struct Proof {
    pub entries: Vec<Entry>,
    pub cost: u128,
    pub walk: Vec<u32>,
}

impl Drop for Proof {
    fn drop(self) {
        let Proof {
            entries: _,
            cost: _,
            walk: _,
        } = self;
    }
}

/// The lower bound of what is still to pay, by which labels rank: a list of labels has to cover
/// what costs, together with that, less than the walk.
#[derive(Clone, Copy)]
pub enum LowerBound {
    /// 0 everywhere, so that a rank is a cost.
    Zero,
    /// The least sum of low prices to the end of the leg.
    Least,
}

/// The legs of a track, each with what shows it least by a lower bound.
#[derive(Drop)]
pub struct Certificate {
    pub bound: LowerBound,
    pub legs: Vec<Proof>,
}
