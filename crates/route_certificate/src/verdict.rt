//! What a check of a certificate answers.

/// Why a certificate is refused.
#[derive(Clone, Copy)]
pub enum Why {
    /// It hasn't one leg fewer than there are nodes.
    Legs,
    /// The walk isn't one of the leg, or it costs something else.
    Walk,
    /// The link of a label isn't in the map, or its cost or a buffer is out of bounds.
    Bounds,
    /// No label covers what a first link gives, and that ranks below the cost of the walk.
    Start,
    /// No label covers what a next link of a label gives, and that ranks below the cost of the walk.
    Step,
    /// A label that reaches the end of the leg costs less than the walk.
    Goal,
}

/// What a check of a certificate answers.
#[derive(Clone, Copy)]
pub enum Verdict {
    /// Each leg's walk is shown least, and together they cost this.
    Yes { cost: u128 },
    /// This condition fails of this leg, and none before it.
    No { leg: u32, why: Why },
}
