//! A record as the text `epoch:payload`, two plain decimals.
ghost use Rattle.std.specs.Prelude.{◌≡◌, ◌≤◌, ◌↔◌, Some, Ok, IfSome, IfOk, IfErr, length};
ghost use Rattle.txn_script_lines.specs.declared.record.Record.{Record};
ghost use Rattle.txn_script_lines.specs.Record.{record_text, record_read, IsNumbers};
ghost use Rattle.txn_script_lines.specs.RecordLaws.{record_utf8};
ghost use Rattle.txn_store.specs.types.Refusal.{OnRefused};
ghost use Rattle.txn_script_lines.specs.Refusal.{IsBadRecord};

use crate::numerals::read_decimal;
use crate::text_form::{LineValue, TextForm};
use anyhow::anyhow;
use bytes::Bytes;
use std::alloc::{AllocError, Global};
use std::{fmt, str};
use txn_store::types::codec::{CodecFault, ObjectCodec};
use txn_store::types::epoch::EpochField;

/// The value that the program keeps: an epoch, and a payload that means nothing to the world.
#[derive(Clone, Copy, Debug, PartialEq, Eq)]
pub struct Record {
    pub epoch: u64,
    pub payload: u64,
}

/// It is shown as `epoch:payload`, two plain decimals.
impl fmt::Display for Record {
    ghost use Rattle.std.specs.Prelude.{Some};
    ghost use Rattle.txn_script_lines.specs.Record.{record_text};

    ghost output = { λ value. Some (record_text value) };

    fn fmt<W: fmt::Write>(&self, f: &mut fmt::Formatter<W>) -> fmt::Result {
        let Record { epoch, payload } = *self;
        write!(f, "{epoch}:{payload}")
    }
}

/// Its bytes are the text `epoch:payload`: two plain decimals below 2^64, with no sign and no
/// leading zero but in `0` itself. It reads these and nothing else.
#[derive(Clone, Copy, Debug)]
pub struct RecordCodec;

/// The record that bytes are the text of, where they are one.
pub fn read_record(bytes: &[u8]) -> Option<Record>
    ensures numbers { IfSome result IsNumbers }
    ensures exact { (v : Record) → IsNumbers v → (result ≡ Some v) ↔ (bytes.now ≡ record_text v) }
{
    let (epoch, payload) = str::from_utf8(bytes).ok()?.split_once(':')?;
    let epoch = read_decimal(epoch)?;
    let payload = read_decimal(payload)?;
    Some(Record { epoch, payload })
}

/// The most bytes of a record's text: two numbers of twenty digits, and a colon.
const MOST_BYTES: usize = 41;

impl TextForm for Record {
    ghost text = { record_text };

    ghost fits = { IsNumbers };

    ghost is_utf8 = { record_utf8 };

    fn read_text(_alloc: Global, words: &str) -> Result<Option<Record>, AllocError> {
        Ok(read_record(words.as_bytes()))
    }

    fn most_bytes() -> Option<usize> {
        Some(MOST_BYTES)
    }
}

impl LineValue for Record {
    ghost use Rattle.std.proofs.Common.{refl};

    ghost shows = { λ v. refl };
}

impl ObjectCodec<Record> for RecordCodec {
    ghost encoded = { λ _ value. record_text value };

    ghost decoded = { λ _ bytes. record_read bytes };

    fn encode(&self, alloc: Global, value: &Record) -> Result<Bytes, AllocError> {
        let Record { epoch, payload } = *value;
        Bytes::from_string(format!(in alloc; "{epoch}:{payload}")?)
    }

    fn decode(&self, _alloc: Global, bytes: &Bytes) -> Result<Record, CodecFault>
        ensures value { IfOk result (λ value. record_read bytes.now ≡ Some value) }
        ensures refused { IfErr result (OnRefused (record_read bytes.now ≡ None)) }
        // It reads the text of each record, and nothing else.
        ensures exact { (v : Record) → IsNumbers v → (result ≡ Ok v) ↔ (bytes.now ≡ record_text v) }
        ensures bad_record { IfErr result IsBadRecord }
    {
        match read_record(bytes.as_slice()) {
            Some(record) => Ok(record),
            None => Err(CodecFault::Refused(anyhow!("bad record"))),
        }
    }
}

/// Where a record keeps its epoch: in its first number.
#[derive(Clone, Copy, Debug)]
pub struct RecordEpoch;

impl EpochField<Record> for RecordEpoch {
    ghost epoch_of = { λ _ value. value.epoch };

    ghost with_epoch = { λ _ value epoch. record value { epoch = epoch } };

    fn get_epoch(&self, value: &Record) -> u64 {
        value.epoch
    }

    fn set_epoch(&self, value: &mut Record, epoch: u64) {
        value.epoch = epoch;
    }
}
