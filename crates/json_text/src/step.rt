//! What a scanner tells of a text.

/// One step of a JSON text. The content of a `Key`, a `Text` and a `Number` is what
/// `Scanner::text` gives.
#[derive(Clone, Copy)]
pub enum JsonStep {
    /// An object begins.
    Open,
    /// An object ends.
    Close,
    /// An array begins.
    ListOpen,
    /// An array ends.
    ListClose,
    /// The name of a member.
    Key,
    /// A text that stands as a value.
    Text,
    /// A number.
    Number,
    /// The word `true`.
    True,
    /// The word `false`.
    False,
    /// The word `null`.
    Null,
}

/// What there is to say of a text behind its fixed steps.
#[derive(Clone, Copy)]
pub enum Verdict {
    /// The bytes so far fix no further step, and more may come.
    More,
    /// The text is whole.
    Whole,
    /// No JSON text goes on so; so many bytes are the beginning of some.
    BadAt(u64),
}

/// What a scanner answers.
#[derive(Clone, Copy)]
pub enum JsonAnswer {
    /// The next step.
    Step(JsonStep),
    /// No further step is fixed.
    Verdict(Verdict),
}
