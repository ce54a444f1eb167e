/// In which order the records that a flash holds are taken.
#[derive(Clone, Copy, Debug, PartialEq, Eq)]
pub enum Order {
    /// The least sequence first.
    Oldest,
    /// The greatest sequence first.
    Newest,
}
