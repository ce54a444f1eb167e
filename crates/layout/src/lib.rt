//! Items of a protocol as rows of fields: the verdict on bytes that may be an item (whole, too few bytes, or the first
//! fault with its place), a body inside its length, and the laws that hold for every item; the number that a field spells;
//! bytes appended to a buffer; and the count of steps that bounds the work.
//! The crates above give the rows of each item, and the code that judges bytes.
#![tactic(auto)]

mod fields;
mod laws;
mod put;
mod steps;

pub use fields::number;
pub use laws::{
    filled_is_whole, filled_within, none_begins_another, verdict_stays, whole_is_filled,
    within_filled,
};
pub use put::put_all;
pub use steps::Steps;
