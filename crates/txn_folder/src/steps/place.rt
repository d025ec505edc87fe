//! What a store in a folder keeps at a place, and its number.
ghost use Rattle.std.specs.Prelude.{◌≡◌};
ghost use Rattle.txn_folder.specs.steps.Tokens.{place_token};

use txn_store::types::boundary::read_boundary;

/// What a path of a request names.
#[derive(Clone, Copy)]
pub enum Place {
    Version(u64),
    Boundary,
}

/// The number that is the token of the file at a place, of these bytes and with this time: a version's is its time, which its
/// put has set, the boundary's the number that it says, which only rises. None matches where there is no such number.
pub fn number_at(place: Place, bytes: &[u8], time: Option<u64>) -> Option<u64>
    ensures { result ≡ place_token place bytes.now time }
{
    match place {
        Place::Version(_) => time,
        Place::Boundary => read_boundary(bytes),
    }
}
