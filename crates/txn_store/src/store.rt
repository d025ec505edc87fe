//! A store as its callers see it: files of bytes under paths, each with the token of the put that wrote it.
ghost use Rattle.std.specs.Prelude.{◌≡◌, ◌≤◌, IfOk};
ghost use Rattle.std.specs.Option.{option_copied};
ghost use Rattle.txn_store.specs.Store.{put_fault, known_fault};

use crate::page::Page;
use crate::path::Path;
use bytes::Bytes;
use std::alloc::{AllocError, Global};
use std::marker::Model;
use thiserror::Error;

/// Names one put of a store. A clause sees its number.
#[derive(Clone, Copy, Debug, PartialEq, Eq)]
pub struct Token(u64);

impl Model for Token {
    ghost use Rattle.std.specs.Prelude.{ℕ};

    ghost Value = { ℕ };

    ghost view = { λ t. t.0 };

    ghost inverse = { λ n. record { 0 = n } };
}

impl Token {
    pub fn new(number: u64) -> Token
        ensures { result ≡ number }
    {
        Token(number)
    }

    pub fn number(self) -> u64
        ensures { result ≡ self }
    {
        self.0
    }
}

/// What a put asks of the path that it writes.
#[derive(Clone, Copy, Debug, PartialEq, Eq)]
pub enum PutMode {
    /// No file stands there.
    Create,
    /// A file with this token stands there.
    Update(Token),
    /// Nothing.
    Overwrite,
}

/// The bytes of a file, and the token of the put that wrote them.
#[derive(Debug, PartialEq, Eq, Drop)]
pub struct Got {
    pub bytes: Bytes,
    pub token: Token,
}

impl Got {
    /// The same bytes, shared, and the same token.
    ///
    /// # Errors
    ///
    /// Want of memory alone, which changes nothing.
    pub fn try_clone(&self) -> Result<Got, AllocError>
        ensures { IfOk result (λ copy. copy ≡ self.now) }
    {
        let bytes = self.bytes.clone()?;
        Ok(Got { bytes, ..*self })
    }
}

/// What a listing tells of a file.
#[derive(Drop)]
pub struct ObjectMeta {
    pub location: Path,
    /// How many bytes it has.
    pub size: u64,
    pub token: Token,
}

/// Why a call was refused. Each but `Failed` leaves the files and the tokens as they were.
#[derive(Clone, Copy, Debug, PartialEq, Eq, Drop, Error)]
pub enum StoreError {
    /// A get of a missing path.
    #[error("not found")]
    NotFound,
    /// A `Create` on a path where a file stands.
    #[error("already exists")]
    AlreadyExists,
    /// An `Update` on a missing path, or on a file with another token.
    #[error("precondition failed")]
    Precondition,
    /// A get whose `if_none_match` is the file's token.
    #[error("not modified")]
    NotModified,
    /// The call failed: it took its whole effect or none.
    #[error("failed")]
    Failed,
    /// A growth was refused.
    #[error("no memory")]
    NoMemory,
    /// A put that would take effect, and no token is left.
    #[error("tokens exhausted")]
    TokensExhausted,
}

/// Why a put is refused by the file that stands under its path.
pub fn fault_of_put(mode: &PutMode, now: Option<&Got>) -> Option<StoreError>
    ensures { result ≡ put_fault mode.now (option_copied now.entry) }
{
    match (mode, now) {
        (PutMode::Create, Some(_)) => Some(StoreError::AlreadyExists),
        (PutMode::Update(token), Some(got)) if got.token == *token => None,
        (PutMode::Update(_), _) => Some(StoreError::Precondition),
        _ => None,
    }
}

/// Why a get is refused by the file that stands under its path.
pub fn fault_of_get(known: Option<Token>, got: &Got) -> Option<StoreError>
    ensures { result ≡ known_fault known got.now }
{
    match known {
        Some(token) if got.token == token => Some(StoreError::NotModified),
        _ => None,
    }
}

/// What a listing answers.
pub type Paged = Result<Page, StoreError>;

/// Files under paths. Its meaning is a finite map from paths to files, the tokens given so far and how many are
/// left, and counts of calls and failures that contracts alone read.
///
/// The errors 1 to 4 (`NotFound`, `AlreadyExists`, `Precondition`, `NotModified`) are exact functions of the map,
/// and come before the others. `Failed` may come in place of any answer, and only where the count of failures rose.
pub trait ObjectStore {
    ghost use Rattle.txn_store.specs.Store.{State, Puts, Gets, Lists, Deletes};

    /// What the store stands for.
    ghost state: { Self → State };

    /// Writes a file, and gives it a token that was never given before.
    ///
    /// # Errors
    ///
    /// `AlreadyExists` of a create where the path has a file, `Precondition` of an update where it has none with that token,
    /// `TokensExhausted` where none is left, `NoMemory`: the store is as it was. `Failed` where the store failed: the file may
    /// have been written.
    fn put(&mut self, path: &Path, bytes: &Bytes, mode: &PutMode) -> Result<Token, StoreError>
        ensures { Puts path.now bytes.now mode.now (state self.old) result (state self.new) };

    /// Reads a file, unless it still has the token that is known.
    ///
    /// # Errors
    ///
    /// `NotFound` where the path has no file, `NotModified` where it has the known token, `NoMemory`, and `Failed` where the
    /// store failed. The files are as they were.
    fn get(&mut self, path: &Path, if_none_match: Option<Token>) -> Result<Got, StoreError>
        ensures { Gets path.now if_none_match (state self.old) result (state self.new) };

    /// A page of the files strictly below a prefix, by whole segments, and above the path `after` where one is given: the first
    /// `limit` of them in the order of their paths, and whether another follows. The limit is at least 1.
    ///
    /// # Errors
    ///
    /// `NoMemory`, and `Failed` where the store failed. The files are as they were.
    fn list(&mut self, alloc: Global, prefix: &Path, after: Option<&Path>, limit: u64) -> Paged
        requires { 1 ≤ limit }
        ensures { Lists prefix.now (option_copied after.entry) limit (state self.old) result (state self.new) };

    /// Removes a file. A missing path is no error.
    ///
    /// # Errors
    ///
    /// `Failed` where the store failed: the file may be removed. `NoMemory`: the files are as they were.
    fn delete(&mut self, path: &Path) -> Result<(), StoreError>
        ensures { Deletes path.now (state self.old) result (state self.new) };
}
