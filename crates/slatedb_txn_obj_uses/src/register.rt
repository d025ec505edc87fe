//! A protocol that is not sequenced, with ids of its own.
ghost use Rattle.std.specs.Prelude.{◌≡◌, ℕ, List, [], length, ◌+◌, ◌^◌, ◌≤◌, IfOk, IfErr, IsErrOf};
ghost use Rattle.txn_steps_driven.specs.Calls.{Spends};
ghost use Rattle.slatedb_txn_obj.specs.Leaves.{MayCreate};
ghost use Rattle.slatedb_txn_obj.specs.Protocol.{base_number, Appended, Overtaken, MayAppend, Stays, UnheldAt, HasCauseOfWrite};
ghost use Rattle.slatedb_txn_obj_uses.specs.Registered.{Registered};

use slatedb_txn_obj::protocol::TransactionalStorageProtocol;
use std::alloc::Global;
use txn_steps_driven::turns::Turns;
use txn_store::store::ObjectStore;
use txn_store::types::error::TransactionalObjectError;

/// Which value of a register it is: the first is revision 1.
#[derive(Clone, Copy, Debug, PartialEq, Eq)]
pub struct Revision(pub u64);

/// A register that remembers each value that it had. It makes no call of a store.
#[derive(Drop)]
pub struct Register {
    values: Vec<u64>,
}

impl Register {
    /// A register without a value. It takes no memory.
    pub fn new(alloc: Global) -> Register
        ensures { result.values.items ≡ [] }
    {
        Register {
            values: Vec::new(alloc),
        }
    }
}

impl<S: ObjectStore> TransactionalStorageProtocol<u64, Revision, S> for Register {
    ghost use Rattle.std.specs.Prelude.{◌≡◌, ℕ, [], refl};
    ghost use Rattle.std.proofs.Math.Nat.{le_refl, le-add_right};

    ghost stands = { λ p _ h b. Registered p.values.items h b };

    ghost Place = { Unit {0} };

    ghost place = { λ _. tt };

    ghost owns = { λ _ path. path ≡ [] };

    ghost version_file = { λ _ _. [] };

    ghost writes_to = { λ _ s _ _ _ _ t. S.state t ≡ S.state s };

    ghost number = { λ r. r.0 };

    ghost at_hand = { λ _ _. Unit {0} };

    ghost warm_calls = { λ _. 0 };

    ghost warm_calls_few = { λ _. le-add_right 0 2 };

    ghost pages = { λ _ _. 1 };

    ghost pages_some = { λ _ _. le_refl 1 };

    ghost one_number = { λ a b is i. record { 0 = is i } };

    ghost stands_frame = { λ _ _ _ _ _ _ stands. stands };

    ghost owns_version = { λ _ _. refl };

    fn write(
        &mut self,
        _store: &mut S,
        base: Option<Revision>,
        value: &u64,
    ) -> Result<Revision, TransactionalObjectError>
        ensures appended { IfOk result (λ id. Appended (Registered self.old.values.items) (Registered self.new.values.items) (base_number (λ r. r.0) base) value.now id.0) }
        ensures conflict { IsErrOf result TransactionalObjectError.ObjectVersionExists → Overtaken (Registered self.old.values.items) (Registered self.new.values.items) (base_number (λ r. r.0) base) }
        ensures err { IfErr result (λ _. MayAppend (Registered self.old.values.items) (Registered self.new.values.items) (base_number (λ r. r.0) base) value.now) }
        ensures cause { IfErr result (HasCauseOfWrite (UnheldAt (Registered self.old.values.items) (base_number (λ r. r.0) base)) (base_number (λ r. r.0) base) (S.state _store.old) (S.state _store.new)) }
        ensures spends { Spends 2 1 (S.state _store.old) (S.state _store.new) }
        ensures paged { (h : List ℕ) (b : ℕ) → Registered self.old.values.items h b → base_number (λ r. r.0) base ≤ length h → 1 ≤ 1 + 1 }
        ensures creates { MayCreate [] (S.state _store.old) (S.state _store.new) }
        ensures full { base_number (λ r. r.0) base + 1 ≡ 2 ^ 64 → IsErrOf result TransactionalObjectError.IdExhausted }
        ensures exhausted { IsErrOf result TransactionalObjectError.IdExhausted → (S.state _store.new ≡ S.state _store.old) × Stays (Registered self.old.values.items) (Registered self.new.values.items) }
        ensures moved { S.state _store.new ≡ S.state _store.old }
    {
        let newest = self.values.len() as u64;
        let base = match base {
            None => 0,
            Some(revision) => revision.0,
        };
        if base == u64::MAX {
            return Err(TransactionalObjectError::IdExhausted);
        }
        if base != newest {
            return Err(TransactionalObjectError::ObjectVersionExists);
        }
        match self.values.push(*value) {
            Ok(()) => Ok(Revision(newest + 1)),
            Err(_) => Err(TransactionalObjectError::NoMemory),
        }
    }

    fn try_read_latest(
        &mut self,
        _store: &mut S,
        _turns: &mut Turns,
    ) -> Result<Option<(Revision, u64)>, TransactionalObjectError> {
        let newest = self.values.len() as u64;
        match self.values.as_slice().last() {
            None => Ok(None),
            Some(value) => Ok(Some((Revision(newest), *value))),
        }
    }
}
