//! What every other crate stands on: numbers of the parts of a unit, texts, identifiers, lists, the
//! count of steps, and the three objects of the outside (shelf, source, sink) with their versions
//! over memory and over the real machine.
#![tactic(auto)]

pub mod bytes;
pub mod calls;
pub mod file;
pub mod fired;
pub mod folder_shelf;
pub mod id;
mod id_text;
pub mod items;
pub mod memory;
pub mod memory_shelf;
pub mod memory_sink;
pub mod memory_source;
pub mod numbers;
pub mod plain_text;
pub mod shelf;
pub mod sink;
pub mod source;
pub mod stdin_source;
pub mod stdout_sink;
pub mod steps;
pub mod text;
pub mod write;

pub use bytes::{Bytes, CallList};
pub use calls::Calls;
pub use file::{File, FileList};
pub use fired::Fired;
pub use folder_shelf::FolderShelf;
pub use id::Id;
pub use items::Items;
pub use memory::NoMemory;
pub use memory_shelf::MemoryShelf;
pub use memory_sink::MemorySink;
pub use memory_source::MemorySource;
pub use numbers::{PersonList, PersonNo, PropNo, RoleNo, RuleNo, ThingNo, number};
pub use plain_text::PlainText;
pub use shelf::{FILE_LIMIT, Shelf, ShelfRefusal};
pub use sink::{Sink, SinkFailed};
pub use source::{Source, SourceFailed};
pub use stdin_source::StdinSource;
pub use stdout_sink::StdoutSink;
pub use steps::Steps;
pub use text::Text;
pub use write::write_all;
