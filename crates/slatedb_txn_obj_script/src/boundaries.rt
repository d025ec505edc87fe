//! The calls of a boundary object, and what it has cached.
use crate::plain::done;
use crate::said::Said;
use crate::setting::Desk;
use slatedb_txn_obj::object_store::ObjectStoreBoundaryObject;
use slatedb_txn_obj::{BoundaryObject, MonotonicId};
use txn_script_lines::numerals::{read_decimal, read_pair};
use txn_steps::boundary::caches::CachedBoundary;
use txn_store::store::{ObjectStore, Token};

/// A boundary is cached from here on, with a token.
fn learn(boundary: &mut ObjectStoreBoundaryObject, words: &str) -> Option<Said> {
    let (number, token) = read_pair(words)?;
    let token = Token::new(token);
    boundary.cached = Some(CachedBoundary { number, token });
    Some(Said::Set)
}

/// A call of a boundary object, by its word and the words after it.
pub(crate) fn boundary_call<S: ObjectStore>(
    boundary: &mut ObjectStoreBoundaryObject,
    desk: &mut Desk<S>,
    word: &str,
    rest: &str,
) -> Option<Said> {
    let Desk { store, turns, .. } = desk;
    match word {
        "boundary_check" => {
            let id = MonotonicId::new(read_decimal(rest)?);
            Some(done(boundary.check(store, id)))
        }
        "boundary_advance" => {
            let id = MonotonicId::new(read_decimal(rest)?);
            Some(done(boundary.advance(store, id, turns)))
        }
        "boundary_learn" => learn(boundary, rest),
        "boundary_cached" => Some(Said::Cached(boundary.cached)),
        _ => None,
    }
}
