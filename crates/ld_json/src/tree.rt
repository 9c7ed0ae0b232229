//! The tree of a document: one that was read, whose texts are those of the bytes, or one that was
//! built.
#![tactic(auto, using(crate::proofs::Trees::count_of_tree, crate::proofs::Trees::count_of_built, crate::proofs::Trees::item_found, crate::proofs::Trees::item_lacking, crate::proofs::Trees::member_found, crate::proofs::Trees::member_lacking))]

ghost use Rattle.std.specs.Prelude.{◌≡◌, is_some, option_map, map};
ghost use Rattle.serde_json.specs.Events.{items_len};
ghost use Rattle.serde_json.specs.Find.{get, at, as_str, as_bool, as_array, as_object};
ghost use Rattle.ld_json.specs.Access.{whole_of, sole_of, all_listed};
ghost use Rattle.ld_json.specs.Trees.{kept_tree, seen_tree};

use crate::numbers::whole_number;
use crate::{built, read};
use serde_json::Value;

/// A whole tree: the one that a text is, or one that was built.
#[derive(Drop)]
pub(crate) enum OwnedTree<'a> {
    Read {
        text: &'a str,
        value: json::Value<'a>,
    },
    Built(Value),
}

impl<'a> OwnedTree<'a> {
    /// The tree, to be looked at.
    pub(crate) fn seen(&self) -> Tree<'_, 'a>
        ensures { seen_tree result ≡ kept_tree self.now }
    {
        match self {
            OwnedTree::Read { value, .. } => Tree::Read(value),
            OwnedTree::Built(tree) => Tree::Built(tree),
        }
    }
}

/// A tree that stands in a whole one, or is it.
#[derive(Clone, Copy, Drop)]
pub(crate) enum Tree<'a, 't> {
    Read(&'a json::Value<'t>),
    Built(&'a Value),
}

impl<'a, 't> Tree<'a, 't> {
    /// The text that the tree is.
    pub(crate) fn text(&self) -> Option<&'a str>
        ensures { option_map (λ text. text.now) result ≡ as_str (seen_tree self.now) }
    {
        match self {
            Tree::Read(value) => value.as_str(),
            Tree::Built(tree) => tree.as_str(),
        }
    }

    /// The number that the tree is, if it is a whole one of 64 bits without a sign.
    pub(crate) fn whole(&self) -> Option<u64>
        ensures { result ≡ whole_of (seen_tree self.now) }
    {
        match self {
            Tree::Read(value) => whole_number(value.as_number()?),
            Tree::Built(tree) => tree.as_u64(),
        }
    }

    /// The flag that the tree is.
    pub(crate) fn flag(&self) -> Option<bool>
        ensures { result ≡ as_bool (seen_tree self.now) }
    {
        match self {
            Tree::Read(value) => value.as_bool(),
            Tree::Built(tree) => tree.as_bool(),
        }
    }

    /// Whether the tree is an object.
    pub(crate) fn is_object(&self) -> bool
        ensures { result ≡ is_some (as_object (seen_tree self.now)) }
    {
        match self {
            Tree::Read(value) => read::members_of(value).is_some(),
            Tree::Built(tree) => tree.as_object().is_some(),
        }
    }

    /// The name of the only member of an object that has just one.
    pub(crate) fn sole(&self) -> Option<&'a str>
        ensures { option_map (λ name. name.now) result ≡ sole_of (seen_tree self.now) }
    {
        match self {
            Tree::Read(value) => read::only_name(read::members_of(value)?),
            Tree::Built(tree) => built::only_name(tree.as_object()?),
        }
    }

    /// Whether each member of an object has one of the names.
    pub(crate) fn has_only(&self, names: &[&str]) -> Option<bool>
        ensures { result ≡ option_map (all_listed (map (λ name. name.now) names.now))
            (as_object (seen_tree self.now)) }
    {
        match self {
            Tree::Read(value) => Some(read::are_listed(read::members_of(value)?, names)),
            Tree::Built(tree) => Some(built::are_listed(tree.as_object()?, names)),
        }
    }

    /// The member of this name of an object.
    pub(crate) fn member(&self, name: &str) -> Option<Tree<'_, 't>>
        ensures { option_map seen_tree result ≡ get name.now (seen_tree self.now) }
    {
        match self {
            Tree::Read(value) => Some(Tree::Read(value.get(name)?)),
            Tree::Built(tree) => Some(Tree::Built(tree.get(name)?)),
        }
    }

    /// The number of elements of an array.
    pub(crate) fn count(&self) -> Option<usize>
        ensures { result ≡ option_map items_len (as_array (seen_tree self.now)) }
    {
        match self {
            Tree::Read(value) => Some(read::elements_of(value)?.len()),
            Tree::Built(tree) => Some(tree.as_array()?.len()),
        }
    }

    /// The element of an array at an index counted from 0.
    pub(crate) fn element(&self, index: usize) -> Option<Tree<'_, 't>>
        ensures { option_map seen_tree result ≡ at index (seen_tree self.now) }
    {
        match self {
            Tree::Read(value) => Some(Tree::Read(value.at(index)?)),
            Tree::Built(tree) => Some(Tree::Built(tree.get(index)?)),
        }
    }
}
