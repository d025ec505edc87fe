//! An entry, and how it is kept: a plain decimal, a colon, and the payload as it is.
ghost use Rattle.std.specs.Prelude.{◌≡◌, ◌≢◌, ◌≤◌, ◌<◌, ℕ, length, slice_index, Some, None, IfOk, IfErr};
ghost use Rattle.std.specs.List.{position_or_len};
ghost use Rattle.txn_store.specs.types.Refusal.{OnRefused};
ghost use Rattle.txn_script_lines.specs.Numerals.{decimal_read};
ghost use Rattle.txn_script_lines.specs.values.Entry.{entry_bytes, entry_read, is_colon};

use crate::numerals::read_decimal;
use anyhow::anyhow;
use bytes::Bytes;
use std::alloc::{AllocError, Global};
use std::str;
use txn_store::types::codec::{CodecFault, ObjectCodec};
use txn_store::types::epoch::EpochField;

/// An epoch, and bytes that mean nothing to the protocol.
#[derive(Clone, Debug, PartialEq, Eq, Drop)]
pub struct Entry {
    pub epoch: u64,
    pub payload: Bytes,
}

/// Its bytes are the epoch as a plain decimal below 2^64, a colon, and the payload. It reads these and nothing else.
#[derive(Clone, Copy, Debug)]
pub struct EntryCodec;

/// How many bytes stand before the first colon, and all where there is none.
fn before_colon(bytes: &[u8]) -> usize
    ensures within { result ≤ length bytes.now }
    ensures before { (k : ℕ) → k < result → slice_index bytes.now k ≢ 58 }
    ensures found { result < length bytes.now → slice_index bytes.now result ≡ 58 }
{
    bytes
        .iter()
        .position(|byte| *byte == b':')
        .unwrap_or(bytes.len())
}

/// Where the first colon stands, and the end where there is none.
fn colon_in(bytes: &[u8]) -> usize
    ensures place { result ≡ position_or_len is_colon bytes.now }
    ensures within { result ≤ length bytes.now }
{
    before_colon(bytes)
}

/// The number that bytes write as a plain decimal, where they do.
fn read_plain(bytes: &[u8]) -> Option<u64>
    ensures { result ≡ decimal_read bytes.now }
{
    match str::from_utf8(bytes) {
        Ok(text) => read_decimal(text),
        Err(_) => None,
    }
}

/// The entry of these bytes. `Refused` comes exactly where they are not those of one.
fn read_entry(bytes: &Bytes) -> Result<Entry, CodecFault>
    ensures value { IfOk result (λ value. entry_read bytes.now ≡ Some value) }
    ensures refused { IfErr result (OnRefused (entry_read bytes.now ≡ None)) }
{
    let at = colon_in(bytes.as_slice());
    if at == bytes.len() {
        return Err(CodecFault::Refused(anyhow!("bad entry")));
    }
    let Some(epoch) = read_plain(&bytes.as_slice()[..at]) else {
        return Err(CodecFault::Refused(anyhow!("bad entry")));
    };
    match bytes.slice(at + 1..) {
        Ok(payload) => Ok(Entry { epoch, payload }),
        Err(_) => Err(CodecFault::NoMemory),
    }
}

impl ObjectCodec<Entry> for EntryCodec {
    ghost encoded = { λ _ value. entry_bytes value };

    ghost decoded = { λ _ bytes. entry_read bytes };

    fn encode(&self, alloc: Global, value: &Entry) -> Result<Bytes, AllocError> {
        let epoch = value.epoch;
        let mut bytes = format!(in alloc; "{epoch}:")?.into_bytes();
        bytes.extend_from_slice(value.payload.as_slice())?;
        Ok(Bytes::from_vec(bytes)?)
    }

    fn decode(&self, _alloc: Global, bytes: &Bytes) -> Result<Entry, CodecFault>
        ensures value { IfOk result (λ value. entry_read bytes.now ≡ Some value) }
        ensures refused { IfErr result (OnRefused (entry_read bytes.now ≡ None)) }
        // It reads the bytes of an entry, and nothing else.
        ensures exact { IfOk result (λ value. bytes.now ≡ entry_bytes value) }
    {
        read_entry(bytes)
    }
}

/// Where an entry keeps its epoch.
#[derive(Clone, Copy, Debug)]
pub struct EntryEpoch;

impl EpochField<Entry> for EntryEpoch {
    ghost epoch_of = { λ _ value. value.epoch };

    ghost with_epoch = { λ _ value epoch. record value { epoch = epoch } };

    fn get_epoch(&self, value: &Entry) -> u64 {
        let Entry { epoch, .. } = value;
        *epoch
    }

    fn set_epoch(&self, value: &mut Entry, epoch: u64) {
        value.epoch = epoch;
    }
}
