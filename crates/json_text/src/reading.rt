//! Laws of what is read of a text, however the text is cut.

ghost use Rattle.std.specs.Prelude.{◌≡◌, ◌≤◌, ◌++◌, ℕ, List, Bool, false, length};
ghost use Rattle.json_text.specs.Marks.{Step, Begins};
ghost use Rattle.json_text.specs.Reading.{Reads, Verdict, BadAt};

/// Each beginning of a text, and each text that has ended, has one list of fixed steps and one
/// verdict behind them. Since a scanner gives these, it doesn't matter how a text is cut into
/// pieces.
pub fn one_reading()
    ensures found { (bytes : List ℕ) (ended : Bool) → (steps : List Step) × (verdict : Verdict) ×
        Reads bytes ended steps verdict }
    ensures only { (bytes : List ℕ) (ended : Bool) (steps others : List Step)
        (verdict other : Verdict) →
        Reads bytes ended steps verdict → Reads bytes ended others other →
        (steps ≡ others) × (verdict ≡ other) }
{}

/// What was fixed of a text stays fixed when more of it comes, or its end: the steps of the longer
/// text begin with those of the shorter.
pub fn fixed_steps()
    ensures grows { (bytes more : List ℕ) (ended : Bool) (steps all : List Step)
        (verdict last : Verdict) →
        Reads bytes false steps verdict → Reads (bytes ++ more) ended all last → Begins steps all }
{}

/// Where no text goes on, none does when more comes, or the end: the same byte is at fault, behind
/// the same steps.
pub fn lasting_faults()
    ensures stays { (bytes more : List ℕ) (ended : Bool) (steps : List Step) (at : ℕ) →
        Reads bytes false steps (BadAt at) → Reads (bytes ++ more) ended steps (BadAt at) }
{}

/// A text has no more fixed steps than bytes.
pub fn few_steps()
    ensures few { (bytes : List ℕ) (ended : Bool) (steps : List Step) (verdict : Verdict) →
        Reads bytes ended steps verdict → length steps ≤ length bytes }
{}
