//! A manifest as the text `epoch:payload:pins`.
ghost use Rattle.std.specs.Prelude.{◌≡◌, ◌↔◌, ◌==◌, Some, None, Ok, IfSome, IfOk, IfErr, map};
ghost use Rattle.std.specs.List.{slice_split};
ghost use Rattle.txn_store.specs.types.Refusal.{OnRefused};
ghost use Rattle.txn_manifest.specs.declared.manifest.Manifest.{Manifest};
ghost use Rattle.txn_manifest.specs.Text.{manifest_text, pins_read, manifest_read, IsManifest};
ghost use Rattle.txn_manifest.specs.TextLaws.{manifest_utf8};
ghost use Rattle.txn_manifest.specs.Refusal.{IsBadManifest};

use crate::pins::{Commas, Pins};
use anyhow::anyhow;
use bytes::Bytes;
use std::alloc::{AllocError, Global};
use std::{fmt, str};
use txn_script_lines::numerals::read_decimal;
use txn_script_lines::text_form::{LineValue, TextForm};
use txn_store::types::codec::{CodecFault, ObjectCodec};
use txn_store::types::epoch::EpochField;

/// The value that is kept: an epoch, a payload that means nothing to the world, and the ids of the versions that are
/// still needed.
#[derive(Clone, Debug, Drop)]
pub struct Manifest {
    pub epoch: u64,
    pub payload: u64,
    pub pins: Pins,
}

/// Its bytes are the text `epoch:payload:pins`: plain decimals below 2^64, with no sign and no leading zero but in `0`
/// itself, the pins ascending and divided by commas. It reads these and nothing else.
#[derive(Clone, Copy, Debug)]
pub struct ManifestCodec;

/// It is shown as `epoch:payload:pins`: plain decimals, the pins divided by commas.
impl fmt::Display for Manifest {
    ghost use Rattle.std.specs.Prelude.{Some};
    ghost use Rattle.txn_manifest.specs.Text.{manifest_text};

    ghost output = { λ value. Some (manifest_text value) };

    fn fmt<W: fmt::Write>(&self, f: &mut fmt::Formatter<W>) -> fmt::Result {
        let epoch = self.epoch;
        let payload = self.payload;
        let pins = Commas(self.pins.as_slice());
        write!(f, "{epoch}:{payload}:{pins}")
    }
}

/// The parts of a text between its commas.
fn parts_of<'a>(alloc: Global, text: &'a str) -> Result<Vec<&'a str>, AllocError>
    ensures { IfOk result (λ parts. map (λ x. x.now) parts.items ≡ slice_split (λ b. b == 44) text.now) }
{
    text.split(',').collect(alloc)
}

/// The pins that a text says, where it says some.
fn read_pins(alloc: Global, text: &str) -> Result<Option<Pins>, AllocError>
    ensures { IfOk result (λ read. read ≡ pins_read text.now) }
{
    let mut pins = Pins::none(alloc);
    if text.is_empty() {
        return Ok(Some(pins));
    }
    let parts = parts_of(alloc, text)?;
    for part in &parts {
        let Some(pin) = read_decimal(part) else {
            return Ok(None);
        };
        if !pins.push(pin)? {
            return Ok(None);
        }
    }
    Ok(Some(pins))
}

/// The manifest that bytes are the text of, where they are one.
fn read_manifest(alloc: Global, bytes: &[u8]) -> Result<Option<Manifest>, AllocError>
    ensures numbers { IfOk result (λ read. IfSome read IsManifest) }
    ensures exact { IfOk result (λ read. (v : Manifest) → IsManifest v → (read ≡ Some v) ↔ (bytes.now ≡ manifest_text v)) }
{
    let Ok(text) = str::from_utf8(bytes) else {
        return Ok(None);
    };
    let Some((epoch, rest)) = text.split_once(':') else {
        return Ok(None);
    };
    let Some((payload, pins)) = rest.split_once(':') else {
        return Ok(None);
    };
    let Some(epoch) = read_decimal(epoch) else {
        return Ok(None);
    };
    let Some(payload) = read_decimal(payload) else {
        return Ok(None);
    };
    match read_pins(alloc, pins)? {
        Some(pins) => Ok(Some(Manifest {
            epoch,
            payload,
            pins,
        })),
        None => Ok(None),
    }
}

impl ObjectCodec<Manifest> for ManifestCodec {
    ghost encoded = { λ _ value. manifest_text value };

    ghost decoded = { λ _ bytes. manifest_read bytes };

    fn encode(&self, alloc: Global, value: &Manifest) -> Result<Bytes, AllocError> {
        let epoch = value.epoch;
        let payload = value.payload;
        let pins = Commas(value.pins.as_slice());
        Bytes::from_string(format!(in alloc; "{epoch}:{payload}:{pins}")?)
    }

    fn decode(&self, alloc: Global, bytes: &Bytes) -> Result<Manifest, CodecFault>
        ensures value { IfOk result (λ value. manifest_read bytes.now ≡ Some value) }
        ensures refused { IfErr result (OnRefused (manifest_read bytes.now ≡ None)) }
        // It reads the text of each manifest, and nothing else.
        ensures exact { IfOk result (λ value. bytes.now ≡ manifest_text value) }
        ensures bad_manifest { IfErr result IsBadManifest }
    {
        match read_manifest(alloc, bytes.as_slice()) {
            Ok(Some(manifest)) => Ok(manifest),
            Ok(None) => Err(CodecFault::Refused(anyhow!("bad manifest"))),
            Err(_) => Err(CodecFault::NoMemory),
        }
    }
}

/// A script speaks of manifests by their texts. A manifest has as many pins as there is memory for, so its text has no bound.
impl TextForm for Manifest {
    ghost text = { manifest_text };

    ghost fits = { IsManifest };

    ghost is_utf8 = { manifest_utf8 };

    fn read_text(alloc: Global, words: &str) -> Result<Option<Manifest>, AllocError> {
        read_manifest(alloc, words.as_bytes())
    }

    fn most_bytes() -> Option<usize> {
        None
    }
}

impl LineValue for Manifest {
    ghost use Rattle.std.proofs.Common.{refl};

    ghost shows = { λ v. refl };
}

/// Where a manifest keeps its epoch: in its first number.
#[derive(Clone, Copy, Debug)]
pub struct ManifestEpoch;

impl EpochField<Manifest> for ManifestEpoch {
    ghost use Rattle.txn_manifest.specs.Manifest.{epoch_of, with_epoch};

    ghost epoch_of = { λ _ value. epoch_of value };

    ghost with_epoch = { λ _ value epoch. with_epoch value epoch };

    fn get_epoch(&self, value: &Manifest) -> u64 {
        value.epoch
    }

    fn set_epoch(&self, value: &mut Manifest, epoch: u64) {
        value.epoch = epoch;
    }
}
