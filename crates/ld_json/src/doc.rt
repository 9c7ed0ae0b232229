//! A document: the tree that serde_json reads from its bytes.
//!
//! The tree is kept as the `json` library reads it, on which serde_json's own reader stands too,
//! and whose trees borrow their texts: reading takes no block of memory for a text, and one for an
//! object.
#![tactic(auto, using(crate::proofs::Trees::nests, crate::proofs::Trees::read_whole, crate::proofs::Trees::unread, crate::proofs::Trees::unread_out_of_range))]

ghost use Rattle.std.specs.Prelude.{◌≡◌, ◌≤◌, ◌++◌, [], false, None, Some, Err, IfOk, OnOk, OnErr, IsSome};
ghost use Rattle.json.specs.Value.{value_view};
ghost use Rattle.serde_json.specs.Data.{Data, depth};
ghost use Rattle.serde_json.specs.Read.{max_depth, read};
ghost use Rattle.serde_json.specs.View.{view};
ghost use Rattle.serde_json.specs.Written.{has_float, compact_text};
ghost use Rattle.ld_base.specs.Roomy.{KeepsRoom};
ghost use Rattle.ld_json.specs.Pointers.{IsAt};
ghost use Rattle.ld_json.specs.Reads.{Reads};
ghost use Rattle.ld_json.specs.Trees.{whole_value};

use crate::file::FileNo;
use crate::node::Node;
use crate::read::is_in_range;
use crate::tree::OwnedTree;
use json::{Reader, Scratch};
use ld_base::{NoMemory, Text};
use serde_json::Value;
use std::alloc::Global;
use std::marker::Model;
use thiserror::Error;

/// Why bytes gave no document.
#[derive(Debug, Drop, Error)]
pub enum DocFault {
    #[error("the bytes are no JSON document")]
    NotJson,
    #[error("no memory")]
    NoMemory,
}

/// A document, seen by contracts as its tree. One that was read borrows the texts of its bytes.
#[derive(Drop)]
pub struct Doc<'a> {
    tree: OwnedTree<'a>,
}

impl<'a> Model for Doc<'a> {
    ghost use Rattle.serde_json.specs.Data.{Data};
    ghost use Rattle.ld_json.specs.TreeCode.{coded_tree};
    ghost use Rattle.ld_json.specs.Trees.{IsOfText, kept_tree};

    ghost Value = { Data };

    ghost coded = { coded_tree };

    ghost view = { λ d. kept_tree d.tree };

    ghost invariant = { λ d. IsOfText d.tree };
}

/// How deep arrays and objects may nest.
const MOST_DEEP: usize = 127;

/// Reads a document. `NotJson` exactly where serde_json reads nothing from the bytes, and else the
/// only refusal is `NoMemory`. A member that comes twice has its last value, arrays and objects
/// nest at most 127 deep, and a byte order mark or anything but white space around the value is no
/// JSON. Texts with escapes are kept in the scratch.
pub fn document<'a>(
    alloc: Global,
    bytes: &'a [u8],
    scratch: &'a mut Scratch,
) -> Result<Doc<'a>, DocFault>
    ensures reads { IfOk result (Reads bytes.now) }
    ensures nests { IfOk result (λ tree. depth tree ≤ max_depth) }
    ensures nothing { result ≡ Err DocFault.NotJson → (tree : Data) → Reads bytes.now tree → ⊥ }
{
    let Ok(text) = str::from_utf8(bytes) else {
        return Err(DocFault::NotJson);
    };
    let value = value_of(alloc, text, scratch)?;
    if !is_in_range(&value) {
        return Err(DocFault::NotJson);
    }
    Ok(Doc {
        tree: OwnedTree::Read { text, value },
    })
}

/// The value that the whole text is.
fn value_of<'a>(
    alloc: Global,
    text: &'a str,
    scratch: &'a mut Scratch,
) -> Result<json::Value<'a>, DocFault>
    ensures value { IfOk result (λ value. whole_value text.now ≡ Some (value_view value)) }
    ensures nothing { result ≡ Err DocFault.NotJson → whole_value text.now ≡ None }
{
    let Ok(mut reader) = Reader::new(text, scratch) else {
        return Err(DocFault::NoMemory);
    };
    let value = match json::Value::read(alloc, &mut reader, MOST_DEEP) {
        Ok(value) => value,
        Err(json::Error::OutOfMemory) => return Err(DocFault::NoMemory),
        Err(_) => return Err(DocFault::NotJson),
    };
    if reader.next().is_some() {
        return Err(DocFault::NotJson);
    }
    Ok(value)
}

impl<'a> Doc<'a> {
    /// The document of this tree.
    pub fn of(tree: Value) -> Doc<'a>
        ensures { result ≡ view tree }
    {
        Doc {
            tree: OwnedTree::Built(tree),
        }
    }

    /// The node of the whole document, as this file of a unit. It takes no memory.
    pub fn root(&self, file: FileNo) -> Node<'_, 'a>
        ensures node { result ≡ record { file = file; place = []; tree = self.now } }
        ensures pointer { IsAt self.now result }
    {
        Node::of_document(&self.tree, file)
    }

    /// Appends the document as JSON with no white space and its members in byte order. Where memory
    /// runs out the bytes stay as they were. What is printed is read as the same tree again,
    /// unless it nests deeper than documents may.
    pub fn print(&self, alloc: Global, out: &mut Text) -> Result<(), NoMemory>
        requires { has_float self.now ≡ false }
        ensures ok { OnOk result (out.new.bytes ≡ out.old.bytes ++ compact_text self.now) }
        ensures err { OnErr result (out.new.bytes ≡ out.old.bytes) }
        ensures room { KeepsRoom out.old out.new }
        ensures reads_back { OnOk result
            (depth self.now ≤ max_depth → Reads (compact_text self.now) self.now) }
    {
        match &self.tree {
            OwnedTree::Read { text, .. } => print_tree(alloc, &reread(alloc, *text)?, out),
            OwnedTree::Built(tree) => print_tree(alloc, tree, out),
        }
    }
}

/// The tree that serde_json reads from a text of which it reads one.
fn reread(alloc: Global, text: &str) -> Result<Value, NoMemory>
    requires { IsSome (read text.now) }
    ensures { IfOk result (λ tree. read text.now ≡ Some (view tree)) }
{
    match Value::from_str(alloc, text) {
        Ok(tree) => Ok(tree),
        Err(_) => Err(NoMemory),
    }
}

/// Appends the tree as JSON. Where memory runs out the bytes stay as they were.
fn print_tree(alloc: Global, tree: &Value, out: &mut Text) -> Result<(), NoMemory>
    requires { has_float (view tree.now) ≡ false }
    ensures ok { OnOk result (out.new.bytes ≡ out.old.bytes ++ compact_text (view tree.now)) }
    ensures err { OnErr result (out.new.bytes ≡ out.old.bytes) }
    ensures room { KeepsRoom out.old out.new }
    ensures reads_back { OnOk result (depth (view tree.now) ≤ max_depth
        → Reads (compact_text (view tree.now)) (view tree.now)) }
{
    let text = tree.to_string(alloc)?;
    out.push(text.as_str())
}
