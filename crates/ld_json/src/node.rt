//! A part of a document that knows its place.
#![tactic(auto, using(crate::proofs::Elements::at_within, crate::proofs::Elements::count_nodes, crate::proofs::Elements::get_item_nodes, crate::proofs::Pointers::item_is_at, crate::proofs::Pointers::member_is_at, crate::proofs::Sole::get_sole))]

ghost use Rattle.std.specs.Prelude.{◌≡◌, ◌<◌, ◌++◌, List, [], Some, None, OnOk, IfOk, IfErr, IfSome, IfNone, IsSome, is_some, option_map, slice_get, length, map};
ghost use Rattle.serde_json.specs.Data.{Data};
ghost use Rattle.serde_json.specs.Find.{get, at, as_str, as_bool, as_object};
ghost use Rattle.ld_json.specs.Access.{IsObject, IsArray, whole_of, sole_of, missing_at, not_text_faults, whole_faults, flag_faults, list_faults, sole_faults, only_faults, member_faults, item_nodes};
ghost use Rattle.ld_json.specs.Fault.{Says, SaysFault, SaysFirst};
ghost use Rattle.ld_json.specs.Pointers.{IsAt};
ghost use Rattle.ld_json.specs.Node.{Placed, member_node, item_node};
ghost use Rattle.ld_json.specs.Trees.{kept_tree};

use crate::code::Code;
use crate::fault::{Fault, ReadFault};
use crate::file::FileNo;
use crate::place::{push_item, push_member};
use crate::tree::{OwnedTree, Tree};
use ld_base::{NoMemory, Text};
use std::alloc::Global;
use std::marker::Model;

/// A part of a document, seen by contracts as its file, its place and its tree. It borrows the node
/// that it was reached from, and its place is written out only where a fault stands at it.
#[cycle(node)]
#[derive(Drop)]
pub struct Node<'a, 't> {
    file: FileNo,
    tree: Tree<'a, 't>,
    step: Step<'a, 't>,
}

/// How a node is reached from the node above it.
#[cycle(node)]
#[derive(Drop)]
enum Step<'a, 't> {
    Whole,
    Member(&'a Node<'a, 't>, &'a str),
    Item(&'a Node<'a, 't>, usize),
}

impl<'a, 't> Model for Node<'a, 't> {
    ghost use Rattle.std.specs.Prelude.{length};
    ghost use Rattle.std.proofs.Common.{arith, length-append};
    ghost use Rattle.ld_json.specs.Node.{Placed, placed_code};

    ghost Value = { Placed };

    ghost coded = { placed_code };

    ghost use Rattle.ld_json.specs.Steps.{placed_of};

    ghost view = { placed_of };

    ghost size = { λ n. length n.place };

    ghost size_decreases = { λ a h. Prim.grind (arith, length-append) };
}

impl<'a, 't> Node<'a, 't> {
    /// The node of a whole document.
    pub(crate) fn of_document(tree: &'a OwnedTree<'t>, file: FileNo) -> Node<'a, 't>
        ensures { result ≡ record { file = file; place = []; tree = kept_tree tree.now } }
    {
        Node {
            file,
            tree: tree.seen(),
            step: Step::Whole,
        }
    }

    /// The refusal that this node has the fault of this code, or `NoMemory`.
    pub fn fault(&self, alloc: Global, code: Code) -> ReadFault
        ensures { SaysFault self.now code result }
    {
        let mut place = Text::new(alloc);
        if let Err(_) = self.push_place(alloc, &mut place) {
            return ReadFault::NoMemory;
        }
        ReadFault::Refused(Fault {
            file: self.file,
            place,
            code,
        })
    }

    /// Appends the node's place.
    fn push_place(&self, alloc: Global, out: &mut Text) -> Result<(), NoMemory>
        ensures { OnOk result (out.new.bytes ≡ out.old.bytes ++ self.now.place) }
    {
        match &self.step {
            Step::Whole => Ok(()),
            Step::Member(parent, name) => {
                parent.push_place(alloc, out)?;
                push_member(alloc, *name, out)
            }
            Step::Item(parent, index) => {
                parent.push_place(alloc, out)?;
                push_item(alloc, *index, out)
            }
        }
    }

    /// The text that the node is. `wrong-shape` exactly where it is none.
    pub fn text(&self, alloc: Global) -> Result<&'a str, ReadFault>
        ensures value { IfOk result (λ text. as_str self.now.tree ≡ Some text.now) }
        ensures faultless { OnOk result (not_text_faults self.now ≡ []) }
        ensures first { IfErr result (SaysFirst (not_text_faults self.now)) }
    {
        match self.tree.text() {
            Some(text) => Ok(text),
            None => Err(self.fault(alloc, Code::WrongShape)),
        }
    }

    /// The number that the node is. `wrong-shape` exactly where it is no whole number of 64 bits
    /// without a sign.
    pub fn whole(&self, alloc: Global) -> Result<u64, ReadFault>
        ensures value { IfOk result (λ number. whole_of self.now.tree ≡ Some number) }
        ensures faultless { OnOk result (whole_faults self.now ≡ []) }
        ensures first { IfErr result (SaysFirst (whole_faults self.now)) }
    {
        match self.tree.whole() {
            Some(number) => Ok(number),
            None => Err(self.fault(alloc, Code::WrongShape)),
        }
    }

    /// The flag that the node is. `wrong-shape` exactly where it is neither true nor false.
    pub fn flag(&self, alloc: Global) -> Result<bool, ReadFault>
        ensures value { IfOk result (λ flag. as_bool self.now.tree ≡ Some flag) }
        ensures faultless { OnOk result (flag_faults self.now ≡ []) }
        ensures first { IfErr result (SaysFirst (flag_faults self.now)) }
    {
        match self.tree.flag() {
            Some(flag) => Ok(flag),
            None => Err(self.fault(alloc, Code::WrongShape)),
        }
    }

    /// Whether the node is an object. It takes no memory.
    pub fn is_object(&self) -> bool
        ensures { result ≡ is_some (as_object self.now.tree) }
    {
        self.tree.is_object()
    }

    /// The name of the only member. `wrong-shape` exactly where the node is no object, or has not
    /// exactly one member.
    pub fn sole(&self, alloc: Global) -> Result<&'a str, ReadFault>
        ensures value { IfOk result (λ name. sole_of self.now.tree ≡ Some name.now) }
        ensures object { OnOk result (IsObject self.now) }
        ensures there { IfOk result (λ name. IsSome (get name.now self.now.tree)) }
        ensures faultless { OnOk result (sole_faults self.now ≡ []) }
        ensures first { IfErr result (SaysFirst (sole_faults self.now)) }
    {
        match self.tree.sole() {
            Some(name) => Ok(name),
            None => Err(self.fault(alloc, Code::WrongShape)),
        }
    }

    /// That the node is an object whose members all have one of these names. `wrong-shape` exactly
    /// where it is no object, `unknown-member` exactly where it is one and has another member.
    pub fn only(&self, alloc: Global, names: &[&str]) -> Result<(), ReadFault>
        ensures object { OnOk result (IsObject self.now) }
        ensures faultless { OnOk result
            (only_faults (map (λ name. name.now) names.now) self.now ≡ []) }
        ensures first { IfErr result
            (SaysFirst (only_faults (map (λ name. name.now) names.now) self.now)) }
    {
        match self.tree.has_only(names) {
            Some(true) => Ok(()),
            Some(false) => Err(self.fault(alloc, Code::UnknownMember)),
            None => Err(self.fault(alloc, Code::WrongShape)),
        }
    }

    /// The member of this name of an object. `missing` exactly where there is none, at the place
    /// that it would have.
    pub fn member<'b>(&'b self, alloc: Global, name: &'b str) -> Result<Node<'b, 't>, ReadFault>
        requires { IsObject self.now }
        ensures tree { IfOk result (λ node. get name.now self.now.tree ≡ Some node.tree) }
        ensures node { IfOk result (λ node. node ≡ member_node self.now name.now node.tree) }
        ensures faultless { OnOk result (member_faults name.now self.now ≡ []) }
        ensures first { IfErr result (SaysFirst (member_faults name.now self.now)) }
        ensures pointer { (whole : Data) → IsAt whole self.now → IfOk result (IsAt whole) }
    {
        match self.optional(name) {
            Some(node) => Ok(node),
            None => Err(self.missing(alloc, name)),
        }
    }

    /// The member of this name of an object, if there is one. It takes no memory.
    pub fn optional<'b>(&'b self, name: &'b str) -> Option<Node<'b, 't>>
        requires { IsObject self.now }
        ensures node { result
            ≡ option_map (member_node self.now name.now) (get name.now self.now.tree) }
        ensures pointer { (whole : Data) → IsAt whole self.now → IfSome result (IsAt whole) }
    {
        let tree = self.tree.member(name)?;
        Some(Node {
            file: self.file,
            tree,
            step: Step::Member(self, name),
        })
    }

    /// The refusal that the object has no member of this name.
    fn missing(&self, alloc: Global, name: &str) -> ReadFault
        ensures { Says (missing_at self.now name.now) result }
    {
        let mut place = Text::new(alloc);
        if let Err(_) = self.push_place(alloc, &mut place) {
            return ReadFault::NoMemory;
        }
        if let Err(_) = push_member(alloc, name, &mut place) {
            return ReadFault::NoMemory;
        }
        ReadFault::Refused(Fault {
            file: self.file,
            place,
            code: Code::Missing,
        })
    }

    /// The number of elements of an array. `wrong-shape` exactly where the node is none.
    pub fn count(&self, alloc: Global) -> Result<usize, ReadFault>
        ensures array { OnOk result (IsArray self.now) }
        ensures value { IfOk result (λ count. count ≡ length (item_nodes self.now)) }
        ensures faultless { OnOk result (list_faults self.now ≡ []) }
        ensures first { IfErr result (SaysFirst (list_faults self.now)) }
    {
        match self.tree.count() {
            Some(count) => Ok(count),
            None => Err(self.fault(alloc, Code::WrongShape)),
        }
    }

    /// The element of an array at an index counted from 0. It takes no memory.
    pub fn item(&self, index: usize) -> Node<'_, 't>
        requires array { IsArray self.now }
        requires within { index < length (item_nodes self.now) }
        ensures tree { at index self.now.tree ≡ Some result.tree }
        ensures node { result ≡ item_node self.now index result.tree }
        ensures item { slice_get (item_nodes self.now) index ≡ Some result }
        ensures pointer { (whole : Data) → IsAt whole self.now → IsAt whole result }
    {
        let Some(tree) = self.tree.element(index) else {
            unreachable!()
        };
        Node {
            file: self.file,
            tree,
            step: Step::Item(self, index),
        }
    }
}
