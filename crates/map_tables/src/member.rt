//! Members of relations.

use item_list::Name;

/// A member of a relation.
pub struct Member {
    /// The type of the element, as the text names it.
    pub kind: Name,
    /// The element's id.
    pub reference: i64,
    /// What the element is in the relation.
    pub role: Name,
}

impl Drop for Member {
    fn drop(self) {
        let Member {
            kind: _,
            reference: _,
            role: _,
        } = self;
    }
}

/// A member that is kept, whose words are lent.
#[derive(Clone, Copy)]
pub struct MemberLent<'a> {
    /// The type of the element, as the text names it.
    pub kind: &'a [u8],
    /// The element's id.
    pub reference: i64,
    /// What the element is in the relation.
    pub role: &'a [u8],
}
