//! What follows of what calls are said to do.
ghost use Rattle.std.specs.Prelude.{ℕ, Ok};
ghost use Rattle.txnobj.specs.Collecting.{Collects, SparesNewest};

use crate::protocol::TransactionalStorageProtocol;

/// A collection never deletes the newest version.
pub fn collection_spares_newest<T: Clone, P: TransactionalStorageProtocol<T>>(
    _protocol: &P,
    _value: &T,
)
    ensures { (id : ℕ) (old : P) (removed : ℕ) (new : P) → Collects P.made P.stopped P.tells id old (Ok removed) new → SparesNewest P.made P.stopped P.tells old removed new }
{}
