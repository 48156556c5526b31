//! Laws that tie the entries which are cut out of steps to the tree of a text.

ghost use Rattle.map_elements.specs.Trees.{AreItemsOfTree, AreMembersOfTree, AreOfTree};

/// The steps of a text that was read to its end are those of a value of the grammar, in the order
/// of the text.
pub fn steps_of_a_tree()
    ensures exact { AreOfTree }
{}

/// The entries that are cut out of the steps of an object or an array are its members or items,
/// each whole, with its name and the steps of its value.
pub fn entries_of_a_tree()
    ensures members { AreMembersOfTree }
    ensures items { AreItemsOfTree }
{}
