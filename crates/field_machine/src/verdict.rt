//! What is known of an item's bytes.
use avl_values::Fault;

/// Too few bytes, the whole item and what it says, or the first fault.
#[derive(Clone, Copy, Debug, PartialEq, Eq)]
pub enum Scan<H> {
    More,
    Whole(H),
    Broken(Fault),
}
