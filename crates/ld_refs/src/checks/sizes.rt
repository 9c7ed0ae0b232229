//! What environments, activities and structures expand to.
ghost use Rattle.std.specs.Prelude.{◌≡◌, ◌+◌, IfOk, map, min};
ghost use Rattle.std.specs.List.{sum_by};
ghost use Rattle.ld_refs.specs.Edges.{edges_of};
ghost use Rattle.ld_refs.specs.Extents.{activity_size, feedback_size, object_size, own_environment_size, own_structure_size, size_of_kind, sizes_named, sizes_of};
ghost use Rattle.ld_refs.specs.Reaching.{environment_graph, structure_graph};
ghost use Rattle.ld_refs.specs.SizeView.{capped, sizes_by};

use crate::checks::cycles::Graphs;
use crate::checks::targets::kind_of;
use ld_base::{Id, NoMemory};
use ld_cycles::{GREATEST, expanded_sizes};
use ld_model::{Activity, Environment, LearningObject, OnCompletion, Structure, Unit};
use ld_names::Names;
use ld_walk::{Kind, Place};
use std::alloc::Global;

/// What things expand to, each by its number, or `GREATEST` where that is less.
pub(crate) struct Sizes {
    environments: Vec<u64>,
    activities: Vec<u64>,
    structures: Vec<u64>,
}

// By hand, so that a function which lets one go calls this and is not proved over each field again.
impl Drop for Sizes {
    fn drop(self) {
        let Self {
            environments: _,
            activities: _,
            structures: _,
        } = self;
    }
}

impl Sizes {
    /// The sizes of what the unit has, whose names and graphs these are.
    pub(crate) fn of(
        alloc: Global,
        unit: &Unit,
        names: &Names,
        graphs: &Graphs,
    ) -> Result<Sizes, NoMemory>
        requires environments { edges_of graphs.now.environments.items
            ≡ environment_graph unit.now names.now }
        requires structures { edges_of graphs.now.structures.items
            ≡ structure_graph unit.now names.now }
        ensures { IfOk result (λ sizes. sizes_by sizes ≡ capped (sizes_of unit.now names.now)) }
    {
        let own = own_environment_sizes(alloc, unit.environments.as_slice())?;
        let mut sizes = Sizes {
            environments: expanded_sizes(alloc, own.as_slice(), graphs.environments.as_slice())?,
            activities: Vec::new(alloc),
            structures: Vec::new(alloc),
        };
        sizes.activities = sizes.activity_sizes(alloc, names, unit.activities.as_slice())?;
        let own = sizes.own_structure_sizes(alloc, names, unit.structures.as_slice())?;
        sizes.structures = expanded_sizes(alloc, own.as_slice(), graphs.structures.as_slice())?;
        Ok(sizes)
    }

    /// The size of what is of this kind; 0 where it is none of the three.
    pub(crate) fn size_of(&self, kind: Option<Kind>) -> u64
        ensures { result ≡ size_of_kind (sizes_by self.now) kind }
    {
        let size = match kind {
            Some(Kind::Thing(Place::Environment(number))) => {
                self.environments.get(number as usize)
            }
            Some(Kind::Thing(Place::Activity(number))) => self.activities.get(number as usize),
            Some(Kind::Thing(Place::Structure(number))) => self.structures.get(number as usize),
            _ => None,
        };
        size.copied().unwrap_or(0)
    }

    /// The size with those of what the references name, or `GREATEST` where that is less.
    fn add_named(&self, names: &Names, size: u64, ids: &[Id]) -> u64
        ensures { result ≡ min 1000000 (size + sizes_named (sizes_by self.now) names.now ids.now) }
    {
        let mut sum = size.min(GREATEST);
        for id in ids {
            sum = add(sum, self.size_of(kind_of(names, id)));
        }
        sum
    }

    /// The size of each activity.
    fn activity_sizes(
        &self,
        alloc: Global,
        names: &Names,
        activities: &[Activity],
    ) -> Result<Vec<u64>, NoMemory>
        ensures { IfOk result
            (λ sizes. sizes.items ≡ map (min 1000000)
            (map (activity_size (sizes_by self.now) names.now) activities.now)) }
    {
        let mut sizes = Vec::new(alloc);
        for activity in activities {
            sizes.push(self.activity_size(names, activity))?;
        }
        Ok(sizes)
    }

    /// The activity with its items, its feedback and its environments.
    fn activity_size(&self, names: &Names, activity: &Activity) -> u64
        ensures { result ≡ min 1000000 (activity_size (sizes_by self.now) names.now activity.now) }
    {
        let size = add(1, activity.items.len() as u64);
        let size = add(size, feedback_size(&activity.on_completion));
        self.add_named(names, size, activity.environments.as_slice())
    }

    /// What each structure has without those that are its children.
    fn own_structure_sizes(
        &self,
        alloc: Global,
        names: &Names,
        structures: &[Structure],
    ) -> Result<Vec<u64>, NoMemory>
        ensures { IfOk result
            (λ own. own.items ≡ map (min 1000000)
            (map (own_structure_size (sizes_by self.now) names.now) structures.now)) }
    {
        let mut own = Vec::new(alloc);
        for structure in structures {
            own.push(self.own_structure_size(names, structure))?;
        }
        Ok(own)
    }

    /// The structure with its environments and the activities among its children.
    fn own_structure_size(&self, names: &Names, structure: &Structure) -> u64
        ensures { result
            ≡ min 1000000 (own_structure_size (sizes_by self.now) names.now structure.now) }
    {
        let size = self.add_named(names, 1, structure.environments.as_slice());
        self.add_named(names, size, structure.children.as_slice())
    }
}

/// What each environment has without those to which it refers.
fn own_environment_sizes(alloc: Global, environments: &[Environment]) -> Result<Vec<u64>, NoMemory>
    ensures { IfOk result
        (λ own. own.items ≡ map (min 1000000) (map own_environment_size environments.now)) }
{
    let mut own = Vec::new(alloc);
    for environment in environments {
        own.push(own_environment_size(environment))?;
    }
    Ok(own)
}

/// The environment, its services, and its learning objects with their items.
fn own_environment_size(environment: &Environment) -> u64
    ensures { result ≡ min 1000000 (own_environment_size environment.now) }
{
    let size = add(1, environment.services.len() as u64);
    add_objects(size, environment.learning_objects.as_slice())
}

/// The size with those of the learning objects.
fn add_objects(size: u64, objects: &[LearningObject]) -> u64
    ensures { result ≡ min 1000000 (size + sum_by object_size objects.now) }
{
    let mut sum = size.min(GREATEST);
    for object in objects {
        sum = add(sum, add(1, object.items.len() as u64));
    }
    sum
}

/// The feedback on a completion.
pub(crate) fn feedback_size(follows: &Option<OnCompletion>) -> u64
    ensures { result ≡ feedback_size follows.now }
{
    match follows {
        Some(follows) => follows.feedback.len() as u64,
        None => 0,
    }
}

/// The two sizes together, or `GREATEST` where that is less.
pub(crate) fn add(size: u64, more: u64) -> u64
    ensures { result ≡ min 1000000 (size + more) }
{
    size.saturating_add(more).min(GREATEST)
}
