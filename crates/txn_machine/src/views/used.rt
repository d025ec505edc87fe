//! Views, and what uses them.

use txn_history::view::View;

/// A view, and the operation that uses it.
#[derive(Debug, Drop, PartialEq, Eq)]
pub struct Used<T> {
    /// The view as it stands.
    pub view: View<T>,
    /// The operation that uses it, none where it is free.
    pub busy: Option<u64>,
}
