//! What each object of the documents of a unit is: one description of its members, from which what
//! it stands for, its faults and its form follow. The descriptions are definitions (specs/); the
//! crates ld_reader and ld_method read by them. (docs/FORMATS.md, "Documents")
#![tactic(auto)]
