//! What stands in the fields of an element.
ghost use Rattle.std.specs.Prelude.{◌≡◌, None, Some, MatchOption};
ghost use Rattle.map_elements.specs.Entries.{member, members_of, items_of};
ghost use Rattle.map_elements.specs.Fields.{with_some, text_of, number_of, whole_number_of};

use crate::steps::entries::Entries;
use crate::steps::part::Part;
use json_text::JsonStep;
use whole::whole_of;

pub(crate) mod element;
mod lists;
mod names;
mod tags;
mod whole;

impl<'a> Part<'a> {
    /// The content of the text that the value is.
    pub(crate) fn text(&self) -> Option<&'a [u8]>
        ensures exact { MatchOption result
            (text_of self.now ≡ None)
            (λ text. text_of self.now ≡ Some text.now) }
    {
        let mut behind = self.again();
        match behind.take_first() {
            Some((JsonStep::Text, text)) => { if behind.is_empty() { Some(text) } else { None } }
            _ => None,
        }
    }

    /// The text of the number that the value is.
    pub(crate) fn number(&self) -> Option<&'a [u8]>
        ensures exact { MatchOption result
            (number_of self.now ≡ None)
            (λ text. number_of self.now ≡ Some text.now) }
    {
        let mut behind = self.again();
        match behind.take_first() {
            Some((JsonStep::Number, text)) => { if behind.is_empty() { Some(text) } else { None } }
            _ => None,
        }
    }

    /// The whole number that the value is.
    pub(crate) fn whole_number(&self) -> Option<i64>
        ensures exact { result ≡ whole_number_of self.now }
    {
        match self.number() {
            None => None,
            Some(text) => whole_of(text),
        }
    }

    /// The members of the object that the value is.
    pub(crate) fn members(&self) -> Option<Entries<'a>>
        ensures exact { result ≡ members_of self.now }
    {
        match self.behind_open() {
            None => None,
            Some(left) => Some(Entries::behind(left)),
        }
    }

    /// The items of the array that the value is.
    pub(crate) fn items(&self) -> Option<Entries<'a>>
        ensures exact { result ≡ items_of self.now }
    {
        let mut behind = self.again();
        match behind.take_first() {
            Some((JsonStep::ListOpen, _)) => Some(Entries::behind(behind)),
            _ => None,
        }
    }
}

impl<'a> Entries<'a> {
    /// The text that is the first member of a name.
    pub(crate) fn text_at(&self, name: &[u8]) -> Option<&'a [u8]>
        ensures exact { let found = with_some (member name.now self.now) text_of in
            MatchOption result (found ≡ None) (λ text. found ≡ Some text.now) }
    {
        match self.find(name) {
            None => None,
            Some(value) => value.text(),
        }
    }

    /// The whole number that is the first member of a name.
    pub(crate) fn whole_at(&self, name: &[u8]) -> Option<i64>
        ensures exact { result ≡ with_some (member name.now self.now) whole_number_of }
    {
        match self.find(name) {
            None => None,
            Some(value) => value.whole_number(),
        }
    }
}
