//! A journal of lines in a file: which lines a file keeps, whatever a crash made of it, and how one
//! more is kept. A line whose keeping was answered stands in every image that a crash may leave.
#![tactic(auto)]

mod buffers;
pub mod disk;
pub mod file_disk;
mod gates;
pub mod journal;
pub mod laws;
pub mod memory_disk;
pub mod opening;
mod put;
mod step;
mod walk;
mod window;

pub use disk::{Disk, DiskFailed};
pub use file_disk::FileDisk;
pub use journal::{Journal, KeepFault};
pub use memory_disk::MemoryDisk;
pub use opening::{OpenFault, Opening};
