//! A walk through the documents of a unit, which lists what stands in them.
ghost use Rattle.std.specs.Prelude.{◌≡◌, ◌<◌, ◌∷◌, [], OnOk, IfOk, map};
ghost use Rattle.ld_json.specs.declared.file.FileNo.TheVariants as file;
ghost use Rattle.ld_walk.specs.Places.{root, member, nth};
ghost use Rattle.ld_walk.specs.PlaceRows.{step_from};
ghost use Rattle.ld_walk.specs.PartView.{what_of, part_by};
ghost use Rattle.ld_walk.specs.Walks.{added, entered, left};

use crate::part::{PartRow, What};
use crate::places::{Down, PlaceRow, Places};
use ld_base::{NoMemory, number};
use ld_json::FileNo;
use ld_model::Level;
use std::alloc::Global;
use std::marker::Model;

/// A walk through the documents: the place where it stands, the places to which it goes back, and
/// the parts that it listed.
#[derive(Drop)]
pub struct Walk<'a> {
    places: Places,
    at: u32,
    back: Vec<u32>,
    parts: Vec<PartRow<'a>>,
}

impl<'a> Model for Walk<'a> {
    ghost use Rattle.std.specs.Coded.{codes};
    ghost use Rattle.ld_model.specs.ExpressionCodes.{coded_term, coded_test};
    ghost use Rattle.std.specs.Prelude.{length};
    ghost use Rattle.ld_walk.specs.Walks.{Walked, walked_by, IsKept};

    ghost Value = { Walked };

    ghost coded = { Prim.hlevel (codes, coded_term, coded_test) };

    ghost view = { λ s. walked_by s.places s.at s.back.items s.parts.items };

    ghost invariant = { λ s. IsKept (length s.places) s.at s.back.items s.parts.items };
}

impl<'a> Walk<'a> {
    /// A walk that stands before the first document, with room for this many parts and places.
    pub fn with_room(alloc: Global, room: usize) -> Result<Walk<'a>, NoMemory>
        ensures { IfOk result
            (λ walk. walk ≡ record { at = root file.Roles; back = []; parts = [] }) }
    {
        let mut places = Places::with_room(alloc, room)?;
        places.push(PlaceRow {
            above: 0,
            step: Down::Whole(FileNo::Roles),
        })?;
        Ok(Walk {
            places,
            at: 0,
            back: Vec::new(alloc),
            parts: Vec::with_capacity(alloc, room)?,
        })
    }

    /// Goes to the whole of a document.
    pub fn enter_file(&mut self, file: FileNo) -> Result<(), NoMemory>
        ensures { OnOk result (self.new ≡ entered self.old (root file)) }
    {
        self.go_to(Down::Whole(file))
    }

    /// Goes down to the member of this name.
    pub fn enter(&mut self, name: &'static str) -> Result<(), NoMemory>
        ensures { OnOk result (self.new ≡ entered self.old (member self.old.at name.now)) }
    {
        self.go_to(Down::Member(name))
    }

    /// Goes down to an element of the member of this name.
    pub fn enter_nth(&mut self, name: &'static str, index: u32) -> Result<(), NoMemory>
        ensures { OnOk result (self.new ≡ entered self.old (nth self.old.at name.now index)) }
    {
        self.go_to(Down::Element(name, index))
    }

    fn go_to(&mut self, step: Down) -> Result<(), NoMemory>
        ensures { OnOk result (self.new ≡ entered self.old (step_from self.old.at step)) }
    {
        let below = number(self.places.len())?;
        self.back.push(self.at)?;
        self.places.push(PlaceRow {
            above: self.at,
            step,
        })?;
        self.at = below;
        Ok(())
    }

    /// Goes back to the place from which it came.
    pub fn leave(&mut self)
        ensures { self.new ≡ left self.old }
    {
        if let Some(above) = self.back.pop() {
            self.at = above;
        }
    }

    /// Lists what stands at this place.
    pub fn put(&mut self, level: Level, what: What<'a>) -> Result<(), NoMemory>
        ensures { OnOk result
            (self.new ≡ added self.old
            (record { at = self.old.at; level = level; what = what_of what.entry } ∷ [])) }
    {
        self.parts.push(PartRow {
            at: self.at,
            level,
            what,
        })?;
        Ok(())
    }

    /// Lists what stands at the member of this name.
    pub fn put_member(
        &mut self,
        name: &'static str,
        level: Level,
        what: What<'a>,
    ) -> Result<(), NoMemory>
        ensures { OnOk result
            (self.new
            ≡ added self.old
            (record { at = member self.old.at name.now; level = level; what = what_of what.entry }
            ∷ [])) }
    {
        self.enter(name)?;
        self.put(level, what)?;
        self.leave();
        Ok(())
    }

    /// The parts that it listed, and the places that they name.
    pub fn into_rows(self) -> (Places, Vec<PartRow<'a>>)
        ensures { map (part_by result.0) result.1.items ≡ self.entry.parts }
    {
        let Walk {
            places,
            at: _,
            back: _,
            parts,
        } = self;
        (places, parts)
    }
}
