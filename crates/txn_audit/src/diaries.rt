//! The audit of a log and of clients with diaries.
ghost use Rattle.std.specs.Prelude.{◌≤◌, All, map};
ghost use Rattle.txn_client_journals.specs.Shares.{AreDiaries};
ghost use Rattle.txn_diary.specs.Diaries.{as_diary, IsMadeWith};
ghost use Rattle.txn_audit.specs.Audits.{AuditsDiaries};

use crate::audit::audit;
use txn_client_journals::audited::Logged;
use txn_client_journals::fault::AuditFault;
use txn_client_journals::laws::clients_share_only_the_store;
use txn_diary::diary::Diary;
use txn_store::types::codec::ObjectCodec;
use txn_store::types::epoch::EpochField;

/// Each diary keeps what its journal leads to, as its type says of it.
fn are_diaries<T: Clone, C: ObjectCodec<T> + Drop, E: EpochField<T>>(
    page: u64,
    codec: &C,
    epochs: &E,
    diaries: &[Diary<T, C, E>],
)
    requires { All (IsMadeWith page codec.now epochs.now) diaries.now }
    ensures { AreDiaries page (C.encoded codec.now) (C.decoded codec.now) (E.epoch_of epochs.now) (E.with_epoch epochs.now) (map as_diary diaries.now) }
{
    for diary in diaries {
        let _rows = diary.rows();
    }
}

/// Whether the log and the diaries of these clients agree, which were all made with this page, this codec and this field of
/// epochs. Where they do, the clients shared only the store. It takes no memory.
///
/// # Errors
///
/// As those of [`audit`].
pub fn audit_diaries<T: Clone, C: ObjectCodec<T> + Drop, E: EpochField<T>, L: Logged>(
    page: u64,
    codec: &C,
    epochs: &E,
    log: &L,
    diaries: &[Diary<T, C, E>],
) -> Result<(), AuditFault>
    requires paged { 1 ≤ page }
    requires made { All (IsMadeWith page codec.now epochs.now) diaries.now }
    ensures { AuditsDiaries page (C.encoded codec.now) (C.decoded codec.now) (E.epoch_of epochs.now) (E.with_epoch epochs.now) (L.logged log.now) (map as_diary diaries.now) result }
{
    // The next three say what the types keep, and what follows where the audit agrees.
    let _rows = log.log();
    are_diaries(page, codec, epochs, diaries);
    clients_share_only_the_store::<T, C, E>(codec, epochs);
    audit(log, diaries)
}
