//! What a file says.
ghost use Rattle.std.specs.Prelude.{◌≡◌, IfOk, IfSome, string_bytes};
ghost use Rattle.txn_folder_files.specs.Names.{known, seen};
ghost use Rattle.txn_folder.specs.Tokens.{IsFoundAt};

use crate::place::token_of;
use crate::steps::place::Place;
use bytes::Bytes;
use std::alloc::Global;
use std::fs::OpenFile;
use std::io::{ErrorKind, Read};
use std::rt::Files;
use std::{fs, io};
use txn_folder_files::fault::{Doing, Fault, Halt, at_error};
use txn_folder_files::name::{Name, find};
use txn_folder_files::written::number_of;
use txn_store::store::Token;

/// What a file says, its token, where it has one, and what is known of its name.
#[derive(Drop)]
pub(crate) struct Found {
    pub bytes: Bytes,
    pub token: Option<Token>,
    pub name: Name,
}

/// How often a file is looked up anew that is none any more once it was found, as a network can have it where another file took its
/// place.
const LOOKS: u64 = 8;

/// What an open file says, and its token, where it has one.
#[derive(Drop)]
struct Content {
    bytes: Bytes,
    token: Option<Token>,
}

/// What the file at a place says, where there is one. A file is never changed under its name, so this is of one moment. One that
/// the system says is none any more, after it was found, is looked up anew.
pub(crate) fn read_file<R: Files + Alloc<A = Global>>(
    rt: &R,
    place: Place,
    file: String,
) -> Result<Option<Found>, Halt>
    ensures found { IfOk result (λ told. IfSome told (λ found. IsFoundAt place found.bytes found.token)) }
    ensures seen { IfOk result (λ told. IfSome told (λ found. known found.name ≡ seen (string_bytes file))) }
{
    let mut file = file;
    for _ in 0..LOOKS {
        let Some(sight) = find(rt, Doing::Looking, file)? else {
            return Ok(None);
        };
        let name = sight.name;
        match read_seen(rt, place, name.file()) {
            Ok(Some(Content { bytes, token })) => return Ok(Some(Found { bytes, token, name })),
            Ok(None) => return Ok(None),
            Err(halt) if is_stale(&halt) => file = name.into_file(),
            Err(halt) => return Err(halt),
        }
    }
    let error = io::Error::from(ErrorKind::StaleNetworkFileHandle);
    Err(Halt::Fault(Fault::of(Doing::Reading, error)))
}

/// Whether a step did not go on since the file is none any more.
fn is_stale(halt: &Halt) -> bool {
    let Halt::Fault(fault) = halt else {
        return false;
    };
    match &fault.error {
        Some(error) => error.kind() == ErrorKind::StaleNetworkFileHandle,
        None => false,
    }
}

/// What a file says that was seen at its name, where it is still there.
fn read_seen<R: Files + Alloc<A = Global>>(
    rt: &R,
    place: Place,
    file: &str,
) -> Result<Option<Content>, Halt>
    ensures { IfOk result (λ told. IfSome told (λ content. IsFoundAt place content.bytes content.token)) }
{
    let mut opened = match fs::open(rt, file) {
        Ok(opened) => opened,
        Err(error) if error.kind() == ErrorKind::NotFound => return Ok(None),
        Err(error) => return Err(at_error(Doing::Reading, error)),
    };
    let mut bytes = Vec::new(rt.alloc());
    if let Err(error) = opened.read_to_end(&mut bytes) {
        return Err(at_error(Doing::Reading, error));
    }
    let time = match opened.metadata() {
        Ok(metadata) => number_of(&metadata),
        Err(error) => return Err(at_error(Doing::Reading, error)),
    };
    let token = token_of(place, bytes.as_slice(), time);
    match Bytes::from_vec(bytes) {
        Ok(bytes) => Ok(Some(Content { bytes, token })),
        Err(_) => Err(Halt::NoMemory),
    }
}
