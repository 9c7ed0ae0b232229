//! Single values.
ghost use Rattle.std.specs.Prelude.{◌≡◌, IfOk};
ghost use Rattle.serde_json.specs.Data.{string};
ghost use Rattle.serde_json.specs.View.{view};
ghost use Rattle.ld_prints.specs.Forms.{flag, text, identifier, href, uri, number_between};

use crate::prints::Prints;
use ld_base::id::Id;
use ld_base::memory::NoMemory;
use ld_base::plain_text::PlainText;
use serde_json::Value;
use std::alloc::Global;

/// The tree of a text.
pub fn text_tree(alloc: Global, text: &str) -> Result<Value, NoMemory>
    ensures { IfOk result (λ tree. view tree ≡ string text.now) }
{
    Ok(Value::try_from_str(alloc, text)?)
}

/// An identifier or a reference.
pub struct IdTree;

impl Prints for IdTree {
    type Of = Id;

    ghost printed = { identifier };

    fn tree(alloc: Global, value: &Id) -> Result<Value, NoMemory> {
        text_tree(alloc, value.as_str())
    }
}

/// A text of at least and at most this many bytes.
pub struct TextTree<const LEAST: usize, const MOST: usize>;

impl<const LEAST: usize, const MOST: usize> Prints for TextTree<LEAST, MOST> {
    type Of = PlainText;

    ghost printed = { text LEAST MOST };

    fn tree(alloc: Global, value: &PlainText) -> Result<Value, NoMemory> {
        text_tree(alloc, value.as_str())
    }
}

/// A title or a subject.
pub type TitleTree = TextTree<1, 256>;

/// An address.
pub struct HrefTree;

impl Prints for HrefTree {
    type Of = PlainText;

    ghost printed = { href };

    fn tree(alloc: Global, value: &PlainText) -> Result<Value, NoMemory> {
        text_tree(alloc, value.as_str())
    }
}

/// True or false.
pub struct FlagTree;

impl Prints for FlagTree {
    type Of = bool;

    ghost printed = { flag };

    fn tree(_alloc: Global, value: &bool) -> Result<Value, NoMemory> {
        Ok(Value::from(*value))
    }
}

/// A whole number from `LEAST` to `MOST`.
pub struct NumberTree<const LEAST: u32, const MOST: u32>;

impl<const LEAST: u32, const MOST: u32> Prints for NumberTree<LEAST, MOST> {
    type Of = u32;

    ghost printed = { number_between LEAST MOST };

    fn tree(_alloc: Global, value: &u32) -> Result<Value, NoMemory> {
        Ok(Value::from(*value))
    }
}

/// The name that properties of several units share.
pub struct UriTree;

impl Prints for UriTree {
    type Of = PlainText;

    ghost printed = { uri };

    fn tree(alloc: Global, value: &PlainText) -> Result<Value, NoMemory> {
        text_tree(alloc, value.as_str())
    }
}
