//! Finding a uri among those that are declared.
ghost use Rattle.std.specs.Prelude.{◌≡◌, None, IfSome};
ghost use Rattle.std.specs.Map.{lookup};
ghost use Rattle.std.specs.Str.{bytes_eq};
ghost use Rattle.ld_globals.specs.declared.declared.Declared.{Declared};
ghost use Rattle.ld_globals.specs.Kept.{IsFound};

use crate::declared::Declared;
use indexmap::IndexMap;
use ld_base::Text;
use std::cell::Cell;

/// The place where a uri was found last, and whether the last search through the map that found one
/// found it at the place remembered then, or right behind it. If so, the next uri is looked for
/// right behind the remembered place and at it, before the map is searched. No contract speaks of
/// this: whoever looks there compares the uri.
#[derive(Drop)]
pub(crate) struct Guess {
    last: Cell<usize>,
    fits: Cell<bool>,
}

impl Guess {
    pub(crate) fn new() -> Guess {
        Guess {
            last: Cell::new(0),
            fits: Cell::new(true),
        }
    }

    /// Remembers the place where a search found its uri, and whether that is the place remembered
    /// so far, or the one right behind it.
    fn note(&self, place: usize) {
        self.fits.set(place.wrapping_sub(self.last.get()) <= 1);
        self.last.set(place);
    }
}

/// The number of the uri and how it is declared, if it is. Uris are mostly asked for in the order
/// in which they were declared, or one of them again: so the uri behind the last one is looked at
/// first, then the last one itself, and only then the uri is searched for. Where the search before
/// found it at neither place, there is no such order, and it is searched for at once.
#[inline(always)]
pub(crate) fn find_uri<'a>(
    declared: &'a IndexMap<Text, Declared>,
    guess: &Guess,
    uri: &Text,
) -> Option<(usize, &'a Declared)>
    ensures some { IfSome result (λ found.
        IsFound declared.now.entries uri.now.bytes found.0 found.1.now) }
    ensures none { result ≡ None
        → lookup (λ k. bytes_eq uri.now.bytes k.bytes) declared.now.entries ≡ None }
{
    if !guess.fits.get() {
        return search_uri(declared, guess, uri);
    }
    let last = guess.last.get();
    let behind = place_behind(last, declared.len());
    if let Some(contents) = uri_at(declared, behind, uri) {
        guess.last.set(behind);
        return Some((behind, contents));
    }
    if let Some(contents) = uri_at(declared, last, uri) {
        return Some((last, contents));
    }
    search_uri(declared, guess, uri)
}

/// The number of the uri and how it is declared, if it is, by a search.
#[inline(always)]
fn search_uri<'a>(
    declared: &'a IndexMap<Text, Declared>,
    guess: &Guess,
    uri: &Text,
) -> Option<(usize, &'a Declared)>
    ensures some { IfSome result (λ found.
        IsFound declared.now.entries uri.now.bytes found.0 found.1.now) }
    ensures none { result ≡ None
        → lookup (λ k. bytes_eq uri.now.bytes k.bytes) declared.now.entries ≡ None }
{
    let (number, _, contents) = declared.get_full(uri)?;
    guess.note(number);
    Some((number, contents))
}

/// The place behind this one, of `len` places; after the last one comes the first.
fn place_behind(place: usize, len: usize) -> usize {
    let behind = place.wrapping_add(1);
    if behind < len {
        return behind;
    }
    0
}

/// How the uri is declared, if it stands at this place.
fn uri_at<'a>(
    declared: &'a IndexMap<Text, Declared>,
    place: usize,
    uri: &Text,
) -> Option<&'a Declared>
    ensures { IfSome result (λ contents.
        IsFound declared.now.entries uri.now.bytes place contents.now) }
{
    let (found, contents) = declared.get_index(place)?;
    if uri != found {
        return None;
    }
    Some(contents)
}
