//! Places in the documents of a unit, of which no text is written before one is asked for.
#![tactic(auto, using(crate::proofs::PlaceLaws::below_more, crate::proofs::PlaceLaws::count_places, crate::proofs::PlaceLaws::places_more))]

ghost use Rattle.std.specs.Prelude.{◌≡◌, ◌<◌, ◌∷◌, ◌++◌, [], true, length, IfOk, OnOk, OnErr};
ghost use Rattle.ld_walk.specs.PlaceRows.{place_at, place_by, is_below};

use ld_base::{NoMemory, Text};
use ld_json::{FileNo, push_item};
use std::alloc::Global;
use std::marker::Model;

/// A step from the place above.
#[derive(Clone, Copy)]
pub enum Down {
    /// The whole of a document, wherever the place above is.
    Whole(FileNo),
    /// The member of this name, which has no character that a pointer escapes.
    Member(&'static str),
    /// The element of this number, counted from 0, in the member of this name.
    Element(&'static str, u32),
}

/// How a place is kept: by the number of the place above it, and the step from there.
#[derive(Clone, Copy)]
pub struct PlaceRow {
    pub above: u32,
    pub step: Down,
}

/// A list of places, each of which is known by its number.
#[derive(Drop)]
pub struct Places {
    rows: Vec<PlaceRow>,
}

impl Model for Places {
    ghost use Rattle.std.specs.Prelude.{◌≡◌, List, true};
    ghost use Rattle.ld_walk.specs.Places.{At};
    ghost use Rattle.ld_walk.specs.PlaceRows.{places_in, are_below};

    ghost Value = { List At };

    ghost view = { λ s. places_in s.rows.items };

    ghost invariant = { λ s. are_below 0 s.rows.items ≡ true };
}

impl Places {
    /// No places, with room for this many.
    pub fn with_room(alloc: Global, room: usize) -> Result<Places, NoMemory>
        ensures { IfOk result (λ places. places ≡ []) }
    {
        Ok(Places {
            rows: Vec::with_capacity(alloc, room)?,
        })
    }

    /// Appends a place. Where memory runs out the list stays as it was.
    pub fn push(&mut self, row: PlaceRow) -> Result<(), NoMemory>
        requires { is_below (length self.old) row ≡ true }
        ensures ok { OnOk result (self.new ≡ self.old ++ place_by self.old row ∷ []) }
        ensures err { OnErr result (self.new ≡ self.old) }
    {
        self.rows.push(row)?;
        Ok(())
    }

    /// The number of places.
    pub fn len(&self) -> usize
        ensures { result ≡ length self.now }
    {
        self.rows.len()
    }

    /// The row of this number.
    fn row(&self, number: u32) -> PlaceRow
        ensures place { place_at self.now number ≡ place_by self.now result }
        ensures below { is_below number result ≡ true }
    {
        match self.rows.get(number as usize) {
            Some(row) => *row,
            None => PlaceRow {
                above: 0,
                step: Down::Whole(FileNo::Roles),
            },
        }
    }

    /// Appends the text of the place of this number, and gives its file.
    pub fn write(&self, alloc: Global, number: u32, out: &mut Text) -> Result<FileNo, NoMemory>
        ensures file { IfOk result (λ file. file ≡ (place_at self.now number).file) }
        ensures place { OnOk result
            (out.new.bytes ≡ out.old.bytes ++ (place_at self.now number).place) }
    {
        let row = self.row(number);
        match row.step {
            Down::Whole(file) => Ok(file),
            Down::Member(name) => {
                let file = self.write(alloc, row.above, out)?;
                push_name(name, out)?;
                Ok(file)
            }
            Down::Element(name, index) => {
                let file = self.write(alloc, row.above, out)?;
                push_name(name, out)?;
                push_item(alloc, index as usize, out)?;
                Ok(file)
            }
        }
    }
}

/// Goes on with a place to the member of this name.
pub fn push_name(name: &str, place: &mut Text) -> Result<(), NoMemory>
    ensures { OnOk result (place.new.bytes ≡ place.old.bytes ++ 47 ∷ name.now) }
{
    place.push("/")?;
    place.push(name)?;
    Ok(())
}
