//! The reader of tables.

use crate::case::Case;
use crate::escape::unescaped;
use crate::samples::{GATE, LOOK, TREK};
use std::alloc::{AllocError, Global};

/// A text of the table, to which a word refers by its name.
#[derive(Drop)]
struct Text {
    name: Vec<u8>,
    bytes: Vec<u8>,
}

/// What was read of a table so far: its line, and its texts.
///
/// An empty line and one that begins with `#` say nothing. `text NAME` begins a text, which the
/// next lines add to: `|REST` adds REST and a line feed, `+REST` adds REST, and `*N REST` adds it N
/// times, each `%` in it being the number of the time, from 0. Any other line is a case: words
/// parted by one space, ` => `, and the answer that is wanted. In a word and an answer `@NAME`
/// alone stands for a text, and some bytes are written by escapes: `\s` (space), `\n`, `\r`, `\t`,
/// `\e` (nothing), `\\`, `\xHH`.
pub struct Table {
    alloc: Global,
    line: u64,
    texts: Vec<Text>,
}

/// By hand, so that its lists are no part of the functions that own a table.
impl Drop for Table {
    fn drop(self) {
        let Table {
            alloc: _,
            line: _,
            texts: _,
        } = self;
    }
}

impl Table {
    /// A table of which nothing was read.
    pub fn new(alloc: Global) -> Table {
        Table {
            alloc,
            line: 0,
            texts: Vec::new(alloc),
        }
    }

    /// A table of which nothing was read, and which has the texts that tables share.
    pub fn with_samples(alloc: Global) -> Result<Table, AllocError> {
        let mut table = Table::new(alloc);
        table.add_text("LOOK", LOOK)?;
        table.add_text("TREK", TREK)?;
        table.add_text("GATE", GATE)?;
        Ok(table)
    }

    /// Gives a text a name, as if it stood in the table.
    pub fn add_text(&mut self, name: &str, text: &str) -> Result<(), AllocError> {
        self.texts.push(Text {
            name: Vec::from_slice(self.alloc, name.as_bytes())?,
            bytes: Vec::from_slice(self.alloc, text.as_bytes())?,
        })?;
        Ok(())
    }

    /// Takes the next line, and gives its case if it is one.
    pub fn take(&mut self, line: &str) -> Result<Option<Case>, AllocError> {
        self.line = self.line.saturating_add(1);
        let bytes = line.as_bytes();
        match bytes.first() {
            None | Some(b'#') => Ok(None),
            Some(b'|') => {
                self.add(&bytes[1..], true)?;
                Ok(None)
            }
            Some(b'+') => {
                self.add(&bytes[1..], false)?;
                Ok(None)
            }
            Some(b'*') => {
                self.repeat(line)?;
                Ok(None)
            }
            Some(_) => self.other(line),
        }
    }

    /// Takes a line that is the head of a text or a case.
    fn other(&mut self, line: &str) -> Result<Option<Case>, AllocError> {
        match line.strip_prefix("text ") {
            Some(name) => {
                self.add_text(name, "")?;
                Ok(None)
            }
            None => Ok(Some(self.case(line)?)),
        }
    }

    /// The case of a line.
    fn case(&self, line: &str) -> Result<Case, AllocError> {
        let (call, wanted) = match line.split_once(" => ") {
            Some(parts) => parts,
            None => (line, "(no answer is wanted)"),
        };
        let wanted = self.meant(wanted.as_bytes())?;
        let words = self.words_of(call)?;
        Ok(Case {
            line: self.line,
            words,
            wanted,
        })
    }

    /// What each of the words of a call stands for.
    fn words_of(&self, call: &str) -> Result<Vec<Vec<u8>>, AllocError> {
        let mut words = Vec::new(self.alloc);
        for word in call.split(' ') {
            let word = self.meant(word.as_bytes())?;
            words.push(word)?;
        }
        Ok(words)
    }

    /// What a word stands for: a text of the table, or its bytes.
    fn meant(&self, word: &[u8]) -> Result<Vec<u8>, AllocError> {
        match self.text_of(word) {
            Some(bytes) => Vec::from_slice(self.alloc, bytes),
            None => unescaped(self.alloc, word),
        }
    }

    /// The text to which a word refers; of those of one name the last.
    fn text_of(&self, word: &[u8]) -> Option<&[u8]> {
        if word.first() != Some(&b'@') {
            return None;
        }
        let texts = self.texts.as_slice();
        for back in 0..texts.len() {
            let text = &texts[texts.len() - 1 - back];
            if text.name.as_slice() == &word[1..] {
                return Some(text.bytes.as_slice());
            }
        }
        None
    }

    /// Adds to the text that was begun last.
    fn add(&mut self, word: &[u8], ends: bool) -> Result<(), AllocError> {
        let bytes = unescaped(self.alloc, word)?;
        if let Some(text) = self.texts.last_mut() {
            text.bytes.extend_from_slice(bytes.as_slice())?;
            if ends {
                text.bytes.push(b'\n')?;
            }
        }
        Ok(())
    }

    /// Adds so many times to the text that was begun last.
    fn repeat(&mut self, line: &str) -> Result<(), AllocError> {
        match line.split_once(' ') {
            Some((times, rest)) => {
                let times = times.trim_start_matches('*').parse::<u64>();
                self.add_times(times.unwrap_or(0), rest)
            }
            None => Ok(()),
        }
    }

    /// Adds so many times.
    fn add_times(&mut self, times: u64, rest: &str) -> Result<(), AllocError> {
        for time in 0..times {
            let number = format!(in self.alloc; "{time}")?;
            self.add_once(rest, number.as_bytes())?;
        }
        Ok(())
    }

    /// Adds the text with this number for each `%` in it.
    fn add_once(&mut self, rest: &str, number: &[u8]) -> Result<(), AllocError> {
        let mut between = b"".as_slice();
        for piece in rest.split('%') {
            self.add(between, false)?;
            self.add(piece.as_bytes(), false)?;
            between = number;
        }
        Ok(())
    }
}
