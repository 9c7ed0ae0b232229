//! The checks in their order: of texts, of what is meant, and of amounts.
#![tactic(auto, unfolding(crate::specs::Checks::amount_faults, crate::specs::Checks::meaning_faults, crate::specs::Checks::text_faults), using(ld_json::proofs::First::first_of_both))]

ghost use Rattle.std.specs.Prelude.{◌≡◌, ◌≤◌, [], false, IfErr, IfOk, OnOk, length};
ghost use Rattle.ld_json.specs.Fault.{SaysFirst};
ghost use Rattle.ld_refs.specs.Bounds.{leaves_in};
ghost use Rattle.ld_refs.specs.Checks.{amount_faults, meaning_faults, text_faults};
ghost use Rattle.ld_refs.specs.Edges.{edges_of};
ghost use Rattle.ld_refs.specs.Reaching.{environment_graph, structure_graph};

use crate::checks::cycles::{Graphs, check_cycles};
use crate::checks::each::check_each;
use crate::checks::extents::check_extents;
use crate::checks::limits::{check_counts, check_objects};
use crate::checks::profile::{Levels, Profile};
use crate::checks::repeats::{Texts, check_repeats};
use crate::checks::targets::Targets;
use ld_json::ReadFault;
use ld_model::Unit;
use ld_names::Names;
use ld_parts::Listing;
use ld_types::Typing;
use std::alloc::Global;

/// That identifiers differ, and the names of what all runs share.
pub(crate) fn check_texts(alloc: Global, listing: &Listing<'_>) -> Result<(), ReadFault>
    ensures faultless { OnOk result (text_faults listing.now ≡ []) }
    ensures first { IfErr result (SaysFirst (text_faults listing.now)) }
{
    check_repeats(alloc, Texts::Identifiers, listing)?;
    check_repeats(alloc, Texts::Uris, listing)?;
    Ok(())
}

/// That references name what they should, that nothing reaches itself, levels, what is left out,
/// types; the graphs of the unit.
pub(crate) fn check_meaning(
    alloc: Global,
    unit: &Unit,
    names: &Names,
    listing: &Listing<'_>,
) -> Result<Graphs, ReadFault>
    ensures environments { IfOk result
        (λ graphs. edges_of graphs.environments.items ≡ environment_graph unit.now names.now) }
    ensures structures { IfOk result
        (λ graphs. edges_of graphs.structures.items ≡ structure_graph unit.now names.now) }
    ensures faultless { OnOk result (meaning_faults unit.now names.now listing.now ≡ []) }
    ensures first { IfErr result (SaysFirst (meaning_faults unit.now names.now listing.now)) }
{
    check_each(alloc, &Targets { names }, listing)?;
    let graphs = check_cycles(alloc, unit, names)?;
    check_each(alloc, &Levels(unit.level), listing)?;
    check_each(alloc, &Profile, listing)?;
    check_each(alloc, &Typing { unit, names }, listing)?;
    Ok(graphs)
}

/// That the unit keeps to the limits of objects, of rules and leaves, and of sizes; the
/// number of its leaves.
pub(crate) fn check_amounts(
    alloc: Global,
    unit: &Unit,
    names: &Names,
    graphs: &Graphs,
    listing: &Listing<'_>,
) -> Result<u32, ReadFault>
    requires environments { edges_of graphs.now.environments.items
        ≡ environment_graph unit.now names.now }
    requires structures { edges_of graphs.now.structures.items
        ≡ structure_graph unit.now names.now }
    ensures few_rules { OnOk result (length names.now.rules ≤ 600) }
    ensures leaves { IfOk result (λ leaves. leaves ≡ leaves_in false listing.now) }
    ensures faultless { OnOk result (amount_faults unit.now names.now listing.now ≡ []) }
    ensures first { IfErr result (SaysFirst (amount_faults unit.now names.now listing.now)) }
{
    check_objects(alloc, listing)?;
    let leaves = check_counts(alloc, names, listing)?;
    check_extents(alloc, unit, names, graphs, listing)?;
    Ok(leaves)
}
