//! What is left of an item.

/// A field of N bytes, or nothing of an item that says this.
#[derive(Clone, Copy)]
pub enum Left<H> {
    Field(u64),
    Nothing(H),
}
