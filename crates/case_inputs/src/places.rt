//! The place of a word in a list of names.

ghost use Rattle.case_inputs.specs.Words.{IsPlaceOf};

/// The first place of a word in a list of names; their number where it is none of them.
pub fn place_of(names: &[&str], word: &[u8]) -> usize
    ensures exact { IsPlaceOf names.now word.now result }
{
    'names: for place in 0..names.len() {
        if names[place].as_bytes() == word {
            return place;
        }
    }
    names.len()
}
