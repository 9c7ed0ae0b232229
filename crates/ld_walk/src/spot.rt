//! A place of the documents at which a fault may stand.
ghost use Rattle.std.specs.Prelude.{◌≡◌, ◌∷◌, ◌++◌, IfOk, OnOk};
ghost use Rattle.ld_json.specs.Fault.{Says};
ghost use Rattle.ld_walk.specs.Places.{root, member, item_at, fault_at};
ghost use Rattle.ld_walk.specs.PlaceRows.{place_at};

use crate::places::{Places, push_name};
use ld_base::{NoMemory, Text};
use ld_json::{Code, Fault, FileNo, ReadFault, push_item};
use std::alloc::Global;
use std::marker::Model;

/// A place of the documents, seen by contracts as its file and its text. The text is written only
/// where a fault stands at it.
#[cycle(spot)]
#[derive(Drop)]
pub struct Spot<'a> {
    step: Step<'a>,
}

/// How a place is reached: it is a whole document, or by its number in a list, or from the one
/// above it.
#[cycle(spot)]
#[derive(Drop)]
enum Step<'a> {
    Whole(FileNo),
    Listed(&'a Places, u32),
    Member(&'a Spot<'a>, &'static str),
    Item(&'a Spot<'a>, usize),
}

impl<'a> Model for Spot<'a> {
    ghost use Rattle.std.specs.Prelude.{length};
    ghost use Rattle.std.proofs.Common.{arith, length-append};
    ghost use Rattle.ld_walk.specs.Places.{At};

    ghost Value = { At };

    ghost use Rattle.ld_walk.specs.SpotSteps.{spot_of};

    ghost view = { spot_of };

    ghost size = { λ at. length at.place };

    ghost size_decreases = { λ a h. Prim.grind (arith, length-append) };
}

impl<'a> Spot<'a> {
    /// The whole of a document.
    pub fn whole(file: FileNo) -> Spot<'static>
        ensures { result ≡ root file }
    {
        Spot {
            step: Step::Whole(file),
        }
    }

    /// The place of this number in the list.
    pub fn listed(places: &'a Places, number: u32) -> Spot<'a>
        ensures { result ≡ place_at places.now number }
    {
        Spot {
            step: Step::Listed(places, number),
        }
    }

    /// The member of this name, which has no character that a pointer escapes.
    pub fn member<'b>(&'b self, name: &'static str) -> Spot<'b>
        ensures { result ≡ member self.now name.now }
    {
        Spot {
            step: Step::Member(self, name),
        }
    }

    /// The element at an index counted from 0.
    pub fn item<'b>(&'b self, index: usize) -> Spot<'b>
        ensures { result ≡ item_at self.now index }
    {
        Spot {
            step: Step::Item(self, index),
        }
    }

    /// The refusal that the place has the fault of this code, or `NoMemory`.
    pub fn fault(&self, alloc: Global, code: Code) -> ReadFault
        ensures { Says (fault_at code self.now) result }
    {
        let mut place = Text::new(alloc);
        match self.write(alloc, &mut place) {
            Ok(file) => ReadFault::Refused(Fault { file, place, code }),
            Err(_) => ReadFault::NoMemory,
        }
    }

    /// Appends the text of the place, and gives its file.
    fn write(&self, alloc: Global, out: &mut Text) -> Result<FileNo, NoMemory>
        ensures file { IfOk result (λ file. file ≡ self.now.file) }
        ensures place { OnOk result (out.new.bytes ≡ out.old.bytes ++ self.now.place) }
    {
        match &self.step {
            Step::Whole(file) => Ok(*file),
            Step::Listed(places, number) => places.write(alloc, *number, out),
            Step::Member(above, name) => {
                let file = above.write(alloc, out)?;
                push_name(*name, out)?;
                Ok(file)
            }
            Step::Item(above, index) => {
                let file = above.write(alloc, out)?;
                push_item(alloc, *index, out)?;
                Ok(file)
            }
        }
    }
}
