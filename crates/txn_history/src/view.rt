//! Views as they stand.

/// A client's copy of a version.
#[derive(Debug, Drop, PartialEq, Eq)]
pub struct View<T> {
    /// The client whose view it is.
    pub client: u64,
    /// The version's id.
    pub id: u64,
    /// The version's value.
    pub object: T,
    /// The epoch of a holder, none of a view that no claim made one.
    pub epoch: Option<u64>,
}
