//! Judging an item's bytes field by field, over any place between its fields: all bytes at once by `scan`, or one at a time by
//! `Machine`. What an item is, its rows say (`layout`); a crate above gives the places between its own fields.
#![tactic(auto)]

mod by_number;
mod cursor;
mod left;
mod machine;
mod place;
mod reading;
mod scanning;
mod verdict;

pub use by_number::ByNumber;
pub use cursor::Cursor;
pub use left::Left;
pub use machine::Machine;
pub use place::Place;
pub use reading::Reading;
pub use scanning::{scan, scan_with};
pub use verdict::Scan;
