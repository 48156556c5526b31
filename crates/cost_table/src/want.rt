//! What is asked of a reach.

/// What is asked of a reach.
#[derive(Drop)]
pub enum Want {
    /// What it costs to come to each of these nodes. They may be in any order, and one may stand
    /// there more than once.
    Nodes(Vec<u32>),
    /// The nodes to which one comes at no more than this, with what each costs.
    Within(u128),
}
