//! The checks that identifiers differ, and the references within a list; and that the names of what
//! all runs share differ.
ghost use Rattle.std.specs.Prelude.{◌≡◌, ◌∷◌, ◌++◌, [], ℕ, List, IfErr, OnOk};
ghost use Rattle.ld_json.specs.Fault.{SaysFirst};
ghost use Rattle.ld_model.specs.Counting.{each_numbered};
ghost use Rattle.ld_walk.specs.PartView.{what_of};
ghost use Rattle.ld_refs.specs.Repeats.{repeated_faults, repeated_if, repeated_in, repeated_target, text_in};
ghost use Rattle.ld_refs.specs.SeenTexts.{HasSeen};

use ld_base::Id;
use ld_json::{Code, ReadFault};
use ld_parts::Listing;
use ld_walk::{Spot, What};
use std::alloc::Global;
use std::collections::HashSet;

/// Which texts differ.
#[derive(Clone, Copy)]
pub(crate) enum Texts {
    /// The identifiers of objects; and within a list the references.
    Identifiers,
    /// The uris of properties.
    Uris,
}

impl Texts {
    /// The room that is taken for such texts at once: for each part's identifier, and for no uri.
    fn most(self, listing: &Listing<'_>) -> usize {
        match self {
            Texts::Identifiers => listing.len(),
            Texts::Uris => 0,
        }
    }
}

/// That such texts differ. It takes time as their size.
pub(crate) fn check_repeats(
    alloc: Global,
    texts: Texts,
    listing: &Listing<'_>,
) -> Result<(), ReadFault>
    ensures faultless { OnOk result (repeated_faults texts listing.now ≡ []) }
    ensures first { IfErr result (SaysFirst (repeated_faults texts listing.now)) }
{
    let mut seen = HashSet::with_capacity(alloc, texts.most(listing))?;
    for index in 0..listing.len() {
        let at = listing.spot(index);
        note_part(alloc, &mut seen, texts, &at, listing.what(index))?;
    }
    Ok(())
}

/// Notes the text of what stands at the place, which repeats none that was seen.
fn note_part<'a>(
    alloc: Global,
    seen: &mut HashSet<&'a str>,
    texts: Texts,
    at: &Spot<'_>,
    what: What<'a>,
) -> Result<(), ReadFault>
    ensures kept { OnOk result ((earlier : List (List ℕ)) → HasSeen seen.old earlier
        → HasSeen seen.new (earlier ++ text_in texts (what_of what.entry))) }
    ensures faultless { OnOk result ((earlier : List (List ℕ)) → HasSeen seen.old earlier
        → repeated_in texts earlier at.now (what_of what.entry) ≡ []) }
    ensures first { IfErr result (λ fault. (earlier : List (List ℕ)) → HasSeen seen.old earlier
        → SaysFirst (repeated_in texts earlier at.now (what_of what.entry)) fault) }
{
    match (texts, what) {
        (Texts::Identifiers, What::Declares(_, id, _)) => {
            note(alloc, seen, Code::RepeatedId, at, id.as_str())
        }
        (Texts::Identifiers, What::Lists(_, ids)) => check_list(alloc, at, ids),
        (Texts::Uris, What::Shares(uri)) => {
            note(alloc, seen, Code::RepeatedUri, at, uri.as_str())
        }
        _ => Ok(()),
    }
}

/// Notes the text at the place, which was not seen.
fn note<'a>(
    alloc: Global,
    seen: &mut HashSet<&'a str>,
    code: Code,
    at: &Spot<'_>,
    text: &'a str,
) -> Result<(), ReadFault>
    ensures kept { OnOk result ((earlier : List (List ℕ)) → HasSeen seen.old earlier
        → HasSeen seen.new (earlier ++ text.now ∷ [])) }
    ensures faultless { OnOk result ((earlier : List (List ℕ)) → HasSeen seen.old earlier
        → repeated_if code at.now earlier text.now ≡ []) }
    ensures first { IfErr result (λ fault. (earlier : List (List ℕ)) → HasSeen seen.old earlier
        → SaysFirst (repeated_if code at.now earlier text.now) fault) }
{
    if !seen.insert(text)? {
        return Err(at.fault(alloc, code));
    }
    Ok(())
}

/// That no two references of the list at the place are equal.
fn check_list(alloc: Global, at: &Spot<'_>, ids: &[Id]) -> Result<(), ReadFault>
    ensures faultless { OnOk result (each_numbered (repeated_target at.now ids.now) ids.now ≡ []) }
    ensures first { IfErr result
        (SaysFirst (each_numbered (repeated_target at.now ids.now) ids.now)) }
{
    if ids.len() < 2 {
        return Ok(());
    }
    let mut seen = HashSet::new(alloc);
    for (i, id) in ids.iter().enumerate() {
        note(alloc, &mut seen, Code::RepeatedId, &at.item(i), id.as_str())?;
    }
    Ok(())
}
