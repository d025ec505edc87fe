//! What a path of a request names, and the token of the file that stands there.
ghost use Rattle.std.specs.Prelude.{◌≡◌, ◌↔◌, Some, None, ℕ, ◌<◌, ◌^◌, ◌≢◌, IfSome, unwrap_or};
ghost use Rattle.txn_store.specs.VersionName.{version_path};
ghost use Rattle.txn_folder.specs.Tokens.{IsAt};
ghost use Rattle.txn_folder.specs.steps.Tokens.{place_token};
ghost use Rattle.txn_folder.specs.declared.steps.place.Place.TheVariants as places;

use crate::steps::place::{Place, number_at};
use txn_store::path::Path;
use txn_store::store::Token;
use txn_store::version_names::VersionNames;

/// What a path names, where versions and the boundary have these names.
pub(crate) fn place_of(names: &VersionNames, boundary: &Path, path: &Path) -> Option<Place>
    ensures version { (n : ℕ) → n < 2 ^ 64 → (result ≡ Some (places.Version n)) ↔ (path.now ≡ version_path names.now n) }
    ensures boundary { result ≡ Some places.Boundary → path.now ≡ boundary.now }
    ensures elsewhere { result ≡ None → path.now ≢ boundary.now }
    ensures at { IfSome result (IsAt names.now boundary.now path.now) }
{
    if let Some(id) = names.parse_id(path) {
        return Some(Place::Version(id));
    }
    if *path == *boundary {
        return Some(Place::Boundary);
    }
    None
}

/// The token of the file at a place, of these bytes and with this time.
pub(crate) fn token_of(place: Place, bytes: &[u8], time: Option<u64>) -> Option<Token>
    ensures { result ≡ place_token place bytes.now time }
{
    match number_at(place, bytes, time) {
        Some(number) => Some(Token::new(number)),
        None => None,
    }
}

/// The number of a token.
pub(crate) fn number_in(token: Option<Token>) -> Option<u64>
    ensures { result ≡ token }
{
    match token {
        Some(token) => Some(token.number()),
        None => None,
    }
}

/// The token that is told: 0 where the file has none, which matches nothing.
pub(crate) fn shown(number: Option<u64>) -> Token
    ensures { result ≡ unwrap_or number 0 }
{
    Token::new(number.unwrap_or(0))
}
