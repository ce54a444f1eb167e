//! Streams of items, for any rows: bytes as whole items, one after the other, each with the place after it, and a rest
//! that is short or begins with a fault. Every list of bytes has exactly one reading, which grows with the bytes. The
//! crates above give the rows of each stream, and the code that reads it.
#![tactic(auto)]

mod laws;

pub use laws::{
    each_has_reading, fault_ends_stream, front_is_read, item_alone_is_read, none_is_empty,
    nothing_is_read, one_reading, place_says_nothing, places_add_up, prefix_has_prefix,
    prefix_items_end_inside, pushes_read, reads_all, reads_broken, reads_on, rest_completes,
    rest_grows, rest_is_not_whole, streams_compose,
};
