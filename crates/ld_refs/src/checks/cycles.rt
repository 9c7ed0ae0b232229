//! The check that no environment and no structure leads to itself by its references.
#![tactic(auto, unfolding(crate::specs::Reaching::cycle_faults), using(ld_json::proofs::First::first_of_both))]

ghost use Rattle.std.specs.Prelude.{◌≡◌, [], IfErr, IfOk, OnOk};
ghost use Rattle.ld_json.specs.Fault.{SaysFirst};
ghost use Rattle.ld_refs.specs.Edges.{edges_of};
ghost use Rattle.ld_refs.specs.Reaching.{cycle_faults, environment_graph, graph_faults, node_number, numbers_among, structure_graph};

use crate::checks::targets::kind_of;
use ld_base::{Id, NoMemory};
use ld_cycles::first_on_cycle;
use ld_json::{Code, FileNo, ReadFault};
use ld_model::Unit;
use ld_names::Names;
use ld_walk::{Kind, Place, Spot};
use std::alloc::Global;

/// What is a node of a graph.
#[derive(Clone, Copy)]
pub(crate) enum Nodes {
    Environments,
    Structures,
}

impl Nodes {
    /// The number of what is of this kind among such nodes, if it is one.
    fn number(self, kind: Option<Kind>) -> Option<usize>
        ensures { result ≡ node_number self kind }
    {
        match (self, kind) {
            (Nodes::Environments, Some(Kind::Thing(Place::Environment(number))))
            | (Nodes::Structures, Some(Kind::Thing(Place::Structure(number)))) => {
                Some(number as usize)
            }
            _ => None,
        }
    }
}

/// What environments and structures lead to by their references: for each of them, the numbers of
/// those, as often as it refers to them.
pub(crate) struct Graphs {
    pub(crate) environments: Vec<Vec<usize>>,
    pub(crate) structures: Vec<Vec<usize>>,
}

// By hand, so that a function which lets one go calls this and is not proved over each field again.
impl Drop for Graphs {
    fn drop(self) {
        let Self {
            environments: _,
            structures: _,
        } = self;
    }
}

/// That no environment reaches itself and no structure does. It gives the graphs for checks that
/// follow. It takes time as the environments, structures and their references.
pub(crate) fn check_cycles(alloc: Global, unit: &Unit, names: &Names) -> Result<Graphs, ReadFault>
    ensures environments { IfOk result
        (λ graphs. edges_of graphs.environments.items ≡ environment_graph unit.now names.now) }
    ensures structures { IfOk result
        (λ graphs. edges_of graphs.structures.items ≡ structure_graph unit.now names.now) }
    ensures faultless { OnOk result (cycle_faults unit.now names.now ≡ []) }
    ensures first { IfErr result (SaysFirst (cycle_faults unit.now names.now)) }
{
    let environments = environment_graph(alloc, unit, names)?;
    check_graph(
        alloc,
        FileNo::Environments,
        "environments",
        environments.as_slice(),
    )?;
    let structures = structure_graph(alloc, unit, names)?;
    check_graph(
        alloc,
        FileNo::Activities,
        "structures",
        structures.as_slice(),
    )?;
    Ok(Graphs {
        environments,
        structures,
    })
}

/// That no node of the graph leads to itself, where the nodes are the elements of this list.
fn check_graph(
    alloc: Global,
    file: FileNo,
    name: &'static str,
    graph: &[Vec<usize>],
) -> Result<(), ReadFault>
    ensures faultless { OnOk result (graph_faults file name.now (edges_of graph.now) ≡ []) }
    ensures first { IfErr result (SaysFirst (graph_faults file name.now (edges_of graph.now))) }
{
    let Some(node) = first_on_cycle(alloc, graph)? else {
        return Ok(());
    };
    let document = Spot::whole(file);
    let list = document.member(name);
    Err(list.item(node).fault(alloc, Code::Cycle))
}

/// Which environments each environment refers to.
fn environment_graph(alloc: Global, unit: &Unit, names: &Names) -> Result<Vec<Vec<usize>>, NoMemory>
    ensures { IfOk result (λ graph. edges_of graph.items ≡ environment_graph unit.now names.now) }
{
    let mut graph = Vec::with_capacity(alloc, unit.environments.len())?;
    for environment in unit.environments.as_slice() {
        let next = numbers_among(
            alloc,
            Nodes::Environments,
            names,
            environment.environments.as_slice(),
        )?;
        graph.push(next)?;
    }
    Ok(graph)
}

/// Which structures are children of each structure.
fn structure_graph(alloc: Global, unit: &Unit, names: &Names) -> Result<Vec<Vec<usize>>, NoMemory>
    ensures { IfOk result (λ graph. edges_of graph.items ≡ structure_graph unit.now names.now) }
{
    let mut graph = Vec::with_capacity(alloc, unit.structures.len())?;
    for structure in unit.structures.as_slice() {
        let next = numbers_among(
            alloc,
            Nodes::Structures,
            names,
            structure.children.as_slice(),
        )?;
        graph.push(next)?;
    }
    Ok(graph)
}

/// The numbers of such things among what the references name.
fn numbers_among(
    alloc: Global,
    nodes: Nodes,
    names: &Names,
    ids: &[Id],
) -> Result<Vec<usize>, NoMemory>
    ensures { IfOk result (λ numbers. numbers.items ≡ numbers_among nodes names.now ids.now) }
{
    let mut numbers = Vec::with_capacity(alloc, ids.len())?;
    for id in ids {
        if let Some(number) = nodes.number(kind_of(names, id)) {
            numbers.push(number)?;
        }
    }
    Ok(numbers)
}
