//! The names of versions.
ghost use Rattle.std.specs.Prelude.{◌≡◌, ◌==◌, not, ℕ, List, ◌<◌, ◌^◌, ◌↔◌, Some, true, false, length, IfOk, OnOk, IsErrOf, IsTrue};
ghost use Rattle.std.specs.List.{list_all};
ghost use Rattle.txn_store.specs.VersionName.{is_suffix, version_path, AreDigitsOf};
ghost use Rattle.txn_store.specs.Digits.{padded};

use crate::digits::read_padded;
use crate::path::{Path, PathFault, is_plain};
use crate::text::ShortText;
use std::alloc::{AllocError, Global};
use std::fmt::Write;
use std::marker::Model;

/// A directory of versions. Version n is the file in it whose name is n in 20 decimal digits, a dot and the
/// suffix.
#[derive(Drop)]
pub struct VersionNames {
    dir: Path,
    suffix: String,
}

impl Model for VersionNames {
    ghost use Rattle.std.specs.Prelude.{IsTrue, string_bytes};
    ghost use Rattle.txn_store.specs.VersionName.{Names, is_suffix};

    ghost Value = { Names };

    ghost view = { λ names. record { dir = names.dir; suffix = string_bytes names.suffix } };

    ghost invariant = { λ names. IsTrue (is_suffix (string_bytes names.suffix)) };
}

fn has_no_dot(text: &str) -> bool
    ensures { result ≡ list_all (λ b. not (b == 46)) text.now }
{
    text.as_bytes().iter().all(|byte| *byte != b'.')
}

/// Whether a text is a suffix: a plain segment without a dot.
pub fn is_suffix(text: &str) -> bool
    ensures { result ≡ is_suffix text.now }
{
    is_plain(text) && has_no_dot(text)
}

impl VersionNames {
    /// The versions of a directory, under a suffix.
    ///
    /// # Errors
    ///
    /// [`PathFault::BadSegment`] exactly where the suffix is no plain segment without a dot; [`PathFault::NoMemory`] where a
    /// growth was refused.
    pub fn new(alloc: Global, dir: Path, suffix: &str) -> Result<VersionNames, PathFault>
        ensures ok { IfOk result (λ names. names ≡ record { dir = dir; suffix = suffix.now }) }
        ensures suffix { OnOk result (IsTrue (is_suffix suffix.now)) }
        ensures bad_segment { IsErrOf result PathFault.BadSegment ↔ (is_suffix suffix.now ≡ false) }
    {
        if !is_suffix(suffix) {
            return Err(PathFault::BadSegment);
        }
        let suffix = String::from_str(alloc, suffix)?;
        Ok(VersionNames { dir, suffix })
    }

    /// The directory of the versions. It takes no memory.
    pub fn dir(&self) -> &Path
        ensures { result.now ≡ self.now.dir }
    {
        &self.dir
    }

    /// The path of a version. It takes memory only where its text is a long one.
    ///
    /// # Errors
    ///
    /// Want of memory alone, which changes nothing.
    pub fn path_for(&self, alloc: Global, number: u64) -> Result<Path, AllocError>
        ensures { IfOk result (λ path. path ≡ version_path self.now number) }
    {
        let dir = self.dir.as_lines();
        let suffix = self.suffix.as_str();
        let mut short = ShortText::new();
        if write!(short, "{dir}{number:020}.{suffix}\n").is_ok() {
            return Ok(Path::from_short_lines(alloc, short));
        }
        let room = dir.len().saturating_add(suffix.len()).saturating_add(22);
        let mut text = String::with_capacity(alloc, room)?;
        write!(text, "{dir}{number:020}.{suffix}\n")?;
        Ok(Path::from_lines(text))
    }

    /// The version that a path names. It makes no allocation.
    pub fn parse_id(&self, path: &Path) -> Option<u64>
        ensures { (n : ℕ) → n < 2 ^ 64 → (result ≡ Some n) ↔ (path.now ≡ version_path self.now n) }
    {
        let name = path.as_lines().strip_prefix(self.dir.as_lines())?;
        let name = name.strip_suffix('\n')?.strip_suffix(self.suffix.as_str())?;
        read_padded(name.strip_suffix('.')?)
    }

    /// The law that two versions have two paths.
    pub fn one_to_one(&self, first: u64, second: u64)
        ensures { version_path self.now first ≡ version_path self.now second → first ≡ second }
    {}
}

/// The law that the name of a version begins with the twenty digits that write its number, and that no other
/// twenty digits write it.
pub fn twenty_digits(number: u64)
    ensures digits { AreDigitsOf number (padded number) }
    ensures alone { (ds : List ℕ) → AreDigitsOf number ds → ds ≡ padded number }
{}
