//! Lists of plain numbers: the bytes of a file, the numbers of calls.
use crate::items::Items;

/// Bytes, of a file say.
pub type Bytes = Items<u8>;

/// Numbers of calls, counted from 1.
pub type CallList = Items<u64>;
