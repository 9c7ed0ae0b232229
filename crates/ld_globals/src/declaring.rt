//! Declaring uris, part by part.
ghost use Rattle.std.specs.Prelude.{◌≡◌, ◌≤◌, ◌+◌, ◌<◌, None, IfSome, IsTrue, false, length};
ghost use Rattle.std.specs.List.{AllByRecursion, fold};
ghost use Rattle.indexmap.specs.IndexMap as by_key;
ghost use Rattle.ld_globals.specs.Kept.{DeclareOnce, Extends, IsWhole, declaring, uri_and_declaration, pairs_of};
ghost use Rattle.ld_globals.specs.Store.{Agrees, Differs, IsFirstToDiffer, with_declared};
ghost use Rattle.ld_globals.specs.declared.declared.Declared.{Declared};

use crate::declared::{Declared, same_declared};
use indexmap::IndexMap;
use ld_base::Text;

/// The place of the first pair whose uri is declared with other contents.
pub(crate) fn first_to_differ(
    declared: &IndexMap<Text, Declared>,
    pairs: &[(Text, Declared)],
) -> Option<usize>
    ensures some { IfSome result (IsFirstToDiffer (declaring declared.now.entries)
        (pairs_of pairs.now)) }
    ensures none { result ≡ None → AllByRecursion (Agrees (declaring declared.now.entries))
        (pairs_of pairs.now) }
{
    let mut place = 0;
    while place < pairs.len() {
        let (uri, contents) = &pairs[place];
        if differs(declared, uri, contents) {
            return Some(place);
        }
        place += 1;
    }
    None
}

/// Whether the uri is declared with other contents.
fn differs(declared: &IndexMap<Text, Declared>, uri: &Text, contents: &Declared) -> bool
    ensures yes { IsTrue result → Differs (declaring declared.now.entries)
        (uri_and_declaration (uri.now, contents.now)) }
    ensures no { result ≡ false → Agrees (declaring declared.now.entries)
        (uri_and_declaration (uri.now, contents.now)) }
{
    let Some(old) = declared.get(uri) else {
        return false;
    };
    !same_declared(old, contents)
}

/// Declares the pairs in turn, each where its uri is not declared yet. What it takes was
/// reserved.
pub(crate) fn declare_pairs(declared: &mut IndexMap<Text, Declared>, pairs: Vec<(Text, Declared)>)
    requires room { length pairs.items ≤ by_key.spare declared.old }
    requires whole { AllByRecursion IsWhole pairs.items }
    ensures pairs { pairs_of declared.new.entries
        ≡ fold with_declared (pairs_of declared.old.entries) (pairs_of pairs.items) }
    ensures keeps { Extends declared.old.entries declared.new.entries }
    ensures unique { DeclareOnce declared.old.entries → DeclareOnce declared.new.entries }
{
    for (uri, contents) in pairs {
        declare_pair(declared, uri, contents);
    }
}

/// Declares the uri where it is not declared yet.
fn declare_pair(declared: &mut IndexMap<Text, Declared>, uri: Text, contents: Declared)
    requires room { 0 < by_key.spare declared.old }
    requires whole { IsWhole (uri, contents) }
    ensures pairs { pairs_of declared.new.entries
        ≡ with_declared (pairs_of declared.old.entries) (uri_and_declaration (uri, contents)) }
    ensures keeps { Extends declared.old.entries declared.new.entries }
    ensures unique { DeclareOnce declared.old.entries → DeclareOnce declared.new.entries }
    ensures spare { by_key.spare declared.old ≤ by_key.spare declared.new + 1 }
{
    if declared.contains_key(&uri) {
        return;
    }
    let Ok(_) = declared.insert(uri, contents) else {
        unreachable!();
    };
}
