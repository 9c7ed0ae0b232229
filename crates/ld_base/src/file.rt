//! Files with their bytes, as a shelf in memory has them.
use crate::bytes::Bytes;
use crate::items::Items;
use crate::text::Text;

/// A file: the folder that it stands in, its name there, and its bytes.
#[derive(Drop)]
pub struct File {
    pub folder: Text,
    pub file: Text,
    pub bytes: Bytes,
}

/// Files, of which the first of a folder and a name counts.
pub type FileList = Items<File>;
