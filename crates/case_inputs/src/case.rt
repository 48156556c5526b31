//! One case of a table.

ghost use Rattle.std.specs.Prelude.{◌≡◌, length};
ghost use Rattle.case_inputs.specs.Words.{word_at};

/// A case: where it stands, its words, of which the first names the call, and the answer that is
/// wanted.
pub struct Case {
    /// Its line in the table, from 1.
    pub line: u64,
    /// Its words.
    pub words: Vec<Vec<u8>>,
    /// The answer that is wanted.
    pub wanted: Vec<u8>,
}

/// By hand, so that its lists are no part of the functions that own a case.
impl Drop for Case {
    fn drop(self) {
        let Case {
            line: _,
            words: _,
            wanted: _,
        } = self;
    }
}

impl Case {
    /// The word at a place; the empty one where there is none.
    pub fn word(&self, place: usize) -> &[u8]
        ensures value { result.now ≡ word_at self.now.words.items place }
    {
        match self.words.as_slice().get(place) {
            Some(word) => word.as_slice(),
            None => b"",
        }
    }

    /// How many words the case has.
    pub fn len(&self) -> usize
        ensures value { result ≡ length self.now.words.items }
    {
        self.words.len()
    }

    /// The word at a place as text; the empty one where it is none.
    pub fn text(&self, place: usize) -> &str {
        match str::from_utf8(self.word(place)) {
            Ok(text) => text,
            Err(_) => "",
        }
    }

    /// The word at a place as a whole number; the least one where it is none.
    pub fn wide(&self, place: usize) -> i128 {
        self.text(place).parse::<i128>().unwrap_or(i128::MIN)
    }

    /// The word at a place as a whole number of 64 bits; the least one where it is none.
    pub fn signed(&self, place: usize) -> i64 {
        self.text(place).parse::<i64>().unwrap_or(i64::MIN)
    }

    /// The word at a place as a number of 128 bits without sign; the greatest one where it is none.
    pub fn size(&self, place: usize) -> u128 {
        self.text(place).parse::<u128>().unwrap_or(u128::MAX)
    }

    /// The word at a place as a number of 64 bits without sign; the greatest one where it is none.
    pub fn count(&self, place: usize) -> u64 {
        self.text(place).parse::<u64>().unwrap_or(u64::MAX)
    }
}
