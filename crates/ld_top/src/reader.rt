//! Reading the documents of a folder into a checked unit.
mod documents;
mod files;
pub mod folder;
mod shapes;
pub mod stop;
mod unit;
