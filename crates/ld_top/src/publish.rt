//! Publishing the units of folders.
ghost use Rattle.std.specs.Prelude.{◌≡◌, ◌≤◌, Ok, Err, IfErr, IfOk, OnErr, OnOk};
ghost use Rattle.ld_base.specs.Outside.{Rose};
ghost use Rattle.ld_world.specs.World.{first_world};
ghost use Rattle.ld_world.specs.WorldView.{world_of};
ghost use Rattle.ld_top.specs.InFolder.{WhereTold};
ghost use Rattle.ld_top.specs.Reading.{AddsUnit, StopsAtFolder, StopsBeside};
ghost use Rattle.ld_top.specs.Replay.{Publishes};
ghost use Rattle.ld_words.specs.Words.{words_of};

use crate::reader::folder::read_folder;
use crate::reader::stop::FolderStop;
use ld_base::Shelf;
use ld_json::{Fault, ReadFault};
use ld_world::World;
use std::alloc::{AllocError, Global};

/// Why the units of folders were not published.
#[derive(Drop)]
pub enum PublishStop {
    /// The shelf failed.
    ShelfFault,
    /// The folder of this number, counted from 1, is refused for this fault.
    Refused(usize, Fault),
    /// Memory ran out.
    NoMemory,
}

/// The world of the folders' units. The folders are read and their units published in their order,
/// and no folder is read behind one that is refused. (docs/FORMATS.md, "Order of faults")
///
/// # Errors
/// `Refused` with the number of the first folder that is refused and its fault, `ShelfFault` only
/// where the shelf's count of faults rose, and `NoMemory`.
pub fn publish_folders<H: Shelf>(
    alloc: Global,
    shelf: &mut H,
    folders: &[String],
) -> Result<World, PublishStop>
    ensures first { IfOk result (λ world. world_of world ≡ first_world world.units) }
    ensures published { IfOk result (λ world. WhereTold (H.files shelf.old) (λ files.
        Publishes files (words_of folders.now) (Ok world.units))) }
    ensures refused { IfErr result (λ stop. WhereTold (H.files shelf.old) (λ files.
        StopsAtFolder files (words_of folders.now) stop)) }
    ensures fault { result ≡ Err PublishStop.ShelfFault
        → Rose (H.faults shelf.old) (H.faults shelf.new) }
    ensures counts { H.faults shelf.old ≤ H.faults shelf.new }
    ensures same { H.files shelf.new ≡ H.files shelf.old }
{
    accustom_allocator(alloc);
    let mut world = World::new(alloc);
    for (index, folder) in folders.iter().enumerate() {
        match publish_folder(alloc, shelf, folder.as_str(), &mut world) {
            Ok(()) => {}
            Err(FolderStop::ShelfFault) => return Err(PublishStop::ShelfFault),
            Err(FolderStop::Refused(fault)) => return Err(PublishStop::Refused(index + 1, fault)),
            Err(FolderStop::NoMemory) => return Err(PublishStop::NoMemory),
        }
    }
    Ok(world)
}

/// Publishes the unit of the folder beside those that are published.
///
/// # Errors
/// As `read_folder`; the fault of `Refused` is the folder's first, or, where it has none, the first
/// of its unit beside the others. The world is left as it was.
fn publish_folder<H: Shelf>(
    alloc: Global,
    shelf: &mut H,
    folder: &str,
    world: &mut World,
) -> Result<(), FolderStop>
    requires { world_of world.old ≡ first_world world.old.units }
    ensures first { world_of world.new ≡ first_world world.new.units }
    ensures added { OnOk result (WhereTold (H.files shelf.old) (λ files.
        AddsUnit files folder.now world.old.units world.new.units)) }
    ensures refused { IfErr result (λ stop. WhereTold (H.files shelf.old) (λ files.
        StopsBeside files folder.now world.old.units stop)) }
    ensures err { OnErr result (world.new ≡ world.old) }
    ensures fault { result ≡ Err FolderStop.ShelfFault
        → Rose (H.faults shelf.old) (H.faults shelf.new) }
    ensures counts { H.faults shelf.old ≤ H.faults shelf.new }
    ensures same { H.files shelf.new ≡ H.files shelf.old }
{
    let checked = read_folder(alloc, shelf, folder)?;
    match world.publish(alloc, checked) {
        Ok(()) => Ok(()),
        Err(ReadFault::Refused(fault)) => Err(FolderStop::Refused(fault)),
        Err(ReadFault::NoMemory) => Err(FolderStop::NoMemory),
    }
}

/// The room that is taken once before folders are read, in bytes: more than their files mostly
/// take.
const FIRST_ROOM: usize = 32_000_000;

/// Takes this room and gives it back at once, where there is so much. The C library's allocator
/// hands a large block back to the system as soon as it is free, until it has seen that blocks of
/// its size come and go: behind this it keeps what files give back, and uses it again for what is
/// made of them. Fewer pages are asked for so; where memory is limited, some 2 MB more may be held
/// at once.
fn accustom_allocator(alloc: Global) {
    let room: Result<Vec<u8>, AllocError> = Vec::with_capacity(alloc, FIRST_ROOM);
    drop(room);
}
