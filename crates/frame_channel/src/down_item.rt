use avl_values::Fault;

/// What the bytes down so far are.
#[derive(Clone, Copy, Debug, PartialEq, Eq)]
pub enum DownItem {
    /// Fewer bytes than an item.
    More,
    /// The login's answer: 1 accepts, 0 refuses. It comes only first.
    Login(u8),
    /// A count of records, which isn't 0.
    Count(u32),
    /// The frame of a command of Codec 12 or 14. The reader lends its body, which says the rest.
    Order,
    /// No item can begin with these bytes. The fault's place is counted from the item's first byte.
    Broken(Fault),
}
