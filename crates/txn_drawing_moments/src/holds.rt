//! Which client holds which epoch, and who is shut out.

ghost use Rattle.std.specs.Prelude.{◌≡◌, ◌-◌, ◌==◌, if◌then◌else◌, Bool, false, true, [], ◌++◌, map, replicate, slice_index_or, unwrap_or, IfOk, OnOk, string_bytes, codes};
ghost use Rattle.txn_drawing_moments.specs.Epochs.{with_hold, holds_after, IsNotedClaim, epoch_in, after_kind, hold_of, shut_by, out_by, all_out_by};
ghost use Rattle.txn_drawing_moments.specs.Texts.{fence_text, out_of};

use crate::moment::{Kind, Moment, Touch};
use std::alloc::{AllocError, Global};

/// What a client holds.
#[derive(Clone, Copy, Debug, PartialEq, Eq)]
pub enum Hold {
    /// No epoch.
    None,
    /// This one.
    Epoch(u64),
    /// This one, below an epoch that has come in.
    ShutOut(u64),
}

/// A client that is shut out, and the epoch that it holds.
#[derive(Clone, Copy, Debug, PartialEq, Eq)]
pub struct ShutOut {
    pub client: u64,
    pub epoch: u64,
}

/// What each client holds, moment by moment.
#[derive(Drop)]
pub struct Holds {
    /// The greatest epoch that has come in.
    epoch: u64,
    holds: Vec<Hold>,
    /// Of each operation, whether it is a claim.
    claims: Vec<bool>,
}

impl Holds {
    /// Nobody of so many clients holds an epoch.
    ///
    /// # Errors
    ///
    /// Want of memory alone.
    pub fn new(alloc: Global, clients: usize) -> Result<Holds, AllocError>
        ensures { IfOk result (λ it. (it.epoch ≡ 0) × (it.holds.items ≡ replicate clients Hold.None) × (it.claims.items ≡ [])) }
    {
        let mut holds = Vec::new(alloc);
        holds.resize(clients, Hold::None)?;
        Ok(Holds {
            epoch: 0,
            holds,
            claims: Vec::new(alloc),
        })
    }

    /// What a client holds, counted from 0.
    pub fn of(&self, index: usize) -> Hold
        ensures { result ≡ slice_index_or self.now.holds.items index Hold.None }
    {
        match self.holds.get(index) {
            Some(hold) => *hold,
            None => Hold::None,
        }
    }

    /// What a client holds from here on.
    fn hold(&mut self, client: u64, hold: Hold)
        ensures held { self.new.holds.items ≡ with_hold self.old.holds.items client hold }
        ensures epoch { self.new.epoch ≡ self.old.epoch }
        ensures claims { self.new.claims ≡ self.old.claims }
    {
        let index = client.saturating_sub(1) as usize;
        if client != 0 && index < self.holds.len() {
            self.holds[index] = hold;
        }
    }

    /// Notes whether a moment begins a claim.
    fn note_claim(&mut self, moment: &Moment) -> Result<(), AllocError>
        ensures claims { OnOk result (IsNotedClaim moment.now.kind self.old.claims.items self.new.claims.items) }
        ensures epoch { self.new.epoch ≡ self.old.epoch }
        ensures holds { self.new.holds ≡ self.old.holds }
    {
        match moment.kind {
            Kind::Begins => {
                let is_claim = moment.words.as_str().starts_with("claim");
                self.claims.push(is_claim)?;
                Ok(())
            }
            _ => Ok(()),
        }
    }

    /// Notes whether a moment's client crashed or was killed.
    fn note_crash(&mut self, moment: &Moment)
        ensures held { self.new.holds.items ≡ after_kind moment.now.kind moment.now.client self.old.holds.items }
        ensures epoch { self.new.epoch ≡ self.old.epoch }
        ensures claims { self.new.claims ≡ self.old.claims }
    {
        if let Kind::Crashes | Kind::Killed = moment.kind {
            self.hold(moment.client, Hold::None);
        }
    }

    /// Notes the epoch of which a moment's client was made the holder.
    fn note_made(&mut self, client: u64, epoch: u64)
        ensures held { self.new.holds.items ≡ with_hold self.old.holds.items client (hold_of self.old.epoch epoch) }
        ensures epoch { self.new.epoch ≡ self.old.epoch }
        ensures claims { self.new.claims ≡ self.old.claims }
    {
        if epoch < self.epoch {
            self.hold(client, Hold::ShutOut(epoch));
        } else {
            self.hold(client, Hold::Epoch(epoch));
        }
    }

    /// Notes what a moment says of its client: whether it begins a claim, was made a holder or is no more.
    ///
    /// # Errors
    ///
    /// Want of memory alone. A part of it may be noted then.
    pub fn note(&mut self, moment: &Moment) -> Result<(), AllocError>
        ensures claims { OnOk result (IsNotedClaim moment.now.kind self.old.claims.items self.new.claims.items) }
        ensures held { OnOk result (self.new.holds.items ≡ holds_after self.old.epoch moment.now self.old.holds.items) }
        ensures epoch { self.new.epoch ≡ self.old.epoch }
    {
        self.note_claim(moment)?;
        self.note_crash(moment);
        if let Some(answer) = &moment.answer {
            if let Some(epoch) = answer.held {
                self.note_made(moment.client, epoch);
            }
        }
        Ok(())
    }

    /// Whether a moment is of a claim.
    pub fn is_claim(&self, moment: &Moment) -> bool
        ensures { result ≡ (if moment.now.op == 0 then false else slice_index_or self.now.claims.items (moment.now.op - 1) false) }
    {
        let place = moment.op.saturating_sub(1) as usize;
        moment.op != 0 && self.claims.get(place) == Some(&true)
    }

    /// The greater epoch that comes in by this moment, if one does: it is the greatest from here on.
    pub fn comes_in(&mut self, moment: &Moment) -> Option<u64>
        ensures told { result ≡ epoch_in self.old.epoch moment.now.touch }
        ensures epoch { self.new.epoch ≡ unwrap_or result self.old.epoch }
        ensures holds { self.new.holds ≡ self.old.holds }
        ensures claims { self.new.claims ≡ self.old.claims }
    {
        match &moment.touch {
            Touch::Creates {
                epoch,
                is_made: true,
                ..
            } if self.epoch < *epoch => {
                self.epoch = *epoch;
                Some(*epoch)
            }
            _ => None,
        }
    }

    /// Those who hold an epoch below this are shut out from here on: who they are.
    ///
    /// # Errors
    ///
    /// Want of memory alone. A part of it may be noted then.
    pub fn shut_out(&mut self, alloc: Global, epoch: u64) -> Result<Vec<ShutOut>, AllocError>
        ensures told { IfOk result (λ out. out.items ≡ all_out_by epoch 1 self.old.holds.items) }
        ensures held { OnOk result (self.new.holds.items ≡ map (shut_by epoch) self.old.holds.items) }
        ensures epoch { self.new.epoch ≡ self.old.epoch }
        ensures claims { self.new.claims ≡ self.old.claims }
    {
        let mut out = Vec::new(alloc);
        for index in 0..self.holds.len() {
            let hold = self.holds[index];
            add_out(&mut out, epoch, index as u64 + 1, hold)?;
            self.holds[index] = shut(hold, epoch);
        }
        Ok(out)
    }
}

/// What is held once this epoch has come in.
fn shut(hold: Hold, epoch: u64) -> Hold
    ensures { result ≡ shut_by epoch hold }
{
    match hold {
        Hold::Epoch(held) if held < epoch => Hold::ShutOut(held),
        _ => hold,
    }
}

/// Adds a client that holds this, where it is shut out by an epoch.
fn add_out(out: &mut Vec<ShutOut>, epoch: u64, client: u64, hold: Hold) -> Result<(), AllocError>
    ensures { OnOk result (out.new.items ≡ out.old.items ++ out_by epoch client hold) }
{
    match hold {
        Hold::Epoch(held) if held < epoch => {
            out.push(ShutOut {
                client,
                epoch: held,
            })?;
            Ok(())
        }
        _ => Ok(()),
    }
}

/// What a client does that brings in a greater epoch.
fn does(is_claim: bool) -> &'static str
    ensures { result.now ≡ (if is_claim then codes "claims" else codes "writes") }
{
    if is_claim { "claims" } else { "writes" }
}

/// What is said of a client that is shut out.
fn out_words(alloc: Global, out: &ShutOut) -> Result<String, AllocError>
    ensures { IfOk result (λ words. string_bytes words ≡ out_of out.now) }
{
    let client = out.client;
    let epoch = out.epoch;
    format!(in alloc; ", client {client} (epoch {epoch}) is shut out")
}

/// What is said of a greater epoch that comes in by a client, who claims it or not, and of those who are shut out.
///
/// # Errors
///
/// Want of memory alone.
pub fn fence_words(
    alloc: Global,
    client: u64,
    is_claim: bool,
    epoch: u64,
    out: &[ShutOut],
) -> Result<String, AllocError>
    ensures { IfOk result (λ words. string_bytes words ≡ fence_text client is_claim epoch out.now) }
{
    let does = does(is_claim);
    let mut words = format!(in alloc; "client {client} {does} epoch {epoch}")?;
    for it in out {
        let who = out_words(alloc, it)?;
        words.push_str(who.as_str())?;
    }
    Ok(words)
}
