//! The items of a TCP connection: logins and the frames of data bodies and responses up, the login's answer, counts and the
//! frames of commands down. Each is given as rows, for the verdict on any bytes, and as the list of bytes that it is, with the
//! laws between both; and the writers of those that are sent.
#![tactic(auto)]

mod body_kind;
mod laws;
mod writing;

pub use body_kind::BodyKind;
pub use laws::{
    down_begins, down_item_has_place, down_item_is_said, down_item_is_whole, down_verdict_stays,
    no_down_item_begins_another, no_up_item_begins_another, short_down_is_few, short_up_is_few,
    up_begins, up_item_has_place, up_item_is_said, up_item_is_whole, up_verdict_stays,
    whole_is_down_item, whole_is_up_item,
};
pub use writing::{write_count, write_frame, write_login};

#[cfg(test)]
mod tests;
