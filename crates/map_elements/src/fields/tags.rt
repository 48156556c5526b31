//! Tags.
ghost use Rattle.std.specs.Prelude.{ℕ, ◌≡◌, List, [], ◌∷◌, ◌++◌, not, IfOk, OnOk};
ghost use Rattle.map_elements.specs.Fields.{is_among, tags_from, tags_in};
ghost use Rattle.map_elements.specs.Names.{Holds, has_tag};

use crate::fields::names::name_of;
use crate::steps::entries::Entries;
use crate::steps::part::Part;
use item_list::{Items, Tags};
use std::alloc::{AllocError, Global};
use std::collections::HashSet;

/// The names of an object of so many steps are compared with each other; those of a larger one are
/// kept in a set.
const FEW_STEPS: usize = 66;

impl<'a> Part<'a> {
    /// The tags of the object that the value is.
    pub(crate) fn tags(&self, alloc: Global) -> Result<Option<Tags>, AllocError>
        ensures exact { IfOk result (λ tags. tags ≡ tags_in self.now) }
    {
        match self.members() {
            None => Ok(None),
            Some(members) => {
                if self.len() <= FEW_STEPS {
                    return read_few(alloc, members);
                }
                let mut names = HashSet::new(alloc);
                read_tags(alloc, &mut names, members)
            }
        }
    }
}

/// The tags of members that are few.
fn read_few(alloc: Global, members: Entries) -> Result<Option<Tags>, AllocError>
    ensures exact { IfOk result (λ tags. tags ≡ tags_from [] members.entry) }
{
    let mut left = members;
    let mut tags = Items::new(alloc);
    'members: while let Some(member) = left.next() {
        let Some(name) = member.name() else {
            return Ok(None);
        };
        if has_tag(&tags, name) {
            continue;
        }
        let Some(text) = member.value().text() else {
            return Ok(None);
        };
        add_tag(alloc, &mut tags, name, text)?;
    }
    Ok(Some(tags))
}

/// Whether one of the tags has a name.
fn has_tag(tags: &Tags, name: &[u8]) -> bool
    ensures value { result ≡ has_tag name.now tags.now }
{
    'tags: for tag in tags.as_slice() {
        if tag.0.as_slice() == name {
            return true;
        }
    }
    false
}

/// The tags of members, none of whose names came so far.
fn read_tags<'a>(
    alloc: Global,
    names: &mut HashSet<&'a [u8]>,
    members: Entries<'a>,
) -> Result<Option<Tags>, AllocError>
    requires none { Holds names.old [] }
    ensures exact { IfOk result (λ tags. tags ≡ tags_from [] members.entry) }
{
    let mut left = members;
    let mut tags = Items::new(alloc);
    'members: while let Some(member) = left.next() {
        let Some(name) = member.name() else {
            return Ok(None);
        };
        let is_new = add_name(names, name)?;
        if !is_new {
            continue;
        }
        let Some(text) = member.value().text() else {
            return Ok(None);
        };
        add_tag(alloc, &mut tags, name, text)?;
    }
    Ok(Some(tags))
}

/// Adds a name, and tells whether it is new.
fn add_name<'a>(names: &mut HashSet<&'a [u8]>, name: &'a [u8]) -> Result<bool, AllocError>
    ensures value { (seen : List (List ℕ)) → Holds names.old seen →
        IfOk result (λ added. added ≡ not (is_among name.now seen)) }
    ensures holds { (seen : List (List ℕ)) → Holds names.old seen →
        OnOk result (Holds names.new (name.now ∷ seen)) }
{
    match names.insert(name) {
        Ok(added) => Ok(added),
        Err(_) => Err(AllocError),
    }
}

/// Puts a tag at the end.
fn add_tag(alloc: Global, tags: &mut Tags, name: &[u8], text: &[u8]) -> Result<(), AllocError>
    ensures value { OnOk result (tags.new ≡ tags.old ++ (name.now, text.now) ∷ []) }
{
    let name = name_of(alloc, name)?;
    let text = name_of(alloc, text)?;
    tags.push((name, text))
}
