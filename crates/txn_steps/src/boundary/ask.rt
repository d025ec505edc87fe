//! What an operation asks for.

use txn_store::request::Request;

/// One call of the store, or one look at the caches of the operation's client.
pub enum Ask<'a> {
    /// This call of the store.
    Store(&'a Request),
    /// A look.
    Look,
}
