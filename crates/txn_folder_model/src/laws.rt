//! What holds of calls over one folder, whatever happens.
ghost use Rattle.std.specs.Prelude.{ℕ, suc, ◌<◌, ◌≤◌, ◌^◌, List, Contains, [], ◌∷◌, ◌++◌, Option, Some, None, Ok, Err};
ghost use Rattle.txn_store.specs.types.BoundaryText.{boundary_read};
ghost use Rattle.txn_store.specs.Paths.{Segments};
ghost use Rattle.txn_store.specs.VersionName.{Names};
ghost use Rattle.txn_history.specs.Names.{world_names, world_boundary};
ghost use Rattle.std.specs.Prelude.{◌≡◌, Vec};
ghost use Rattle.std.specs.declared.alloc.Global.{Global};
ghost use Rattle.txn_client_journals.specs.declared.rows.Left.{Left};
ghost use Rattle.txn_client_journals.specs.Verdict.{AuditedDiary, clients_in};
ghost use Rattle.txn_client_journals.specs.Shares.{AreDiaries};
ghost use Rattle.txn_store.specs.declared.store.Got.{Got};
ghost use Rattle.txn_store.specs.declared.store.StoreError.TheVariants as errors;
ghost use Rattle.txn_store.specs.declared.request.Reply.TheVariants as replies;
ghost use Rattle.txn_folder.specs.steps.Folders.{Place, Version};
ghost use Rattle.txn_store.specs.declared.store.ObjectMeta.{ObjectMeta};
ghost use Rattle.txn_folder.specs.steps.Listing.{ListSees};
ghost use Rattle.txn_folder.specs.steps.Steps.{Phase, Is, Getting, Gets, Deleting, Deletes};
ghost use Rattle.txn_folder_model.specs.Worlds.{Event, MayHappen, RaisesOnly, world};
ghost use Rattle.txn_folder_model.specs.Power.{AfterCut, Syncs, IsLeft, IsListed, IsOfStore, IsPut, IsWhole, LastsOf, ShowsOf, Stands, TellsOf, name_at};
ghost use Rattle.txn_folder_model.specs.Linear.{AllComeInOrder, AreRuns, IsApart, IsElsewhere, IsLinearizable};
ghost use Rattle.txn_folder_model.specs.Listings.{IsListing, Listing, StoodAt};
ghost use Rattle.txn_folder_model.specs.Clients.{AreOfFolder, ShareAFolder};
ghost use Rattle.txn_folder.specs.steps.Scans.{AreSettled};
ghost use Rattle.txn_folder_model.specs.Examples.{race, RaceEnds, killed_run, KillEnds, killed_left, killed_diary, reader_diary, no_listing, late_run, LateEnds, CutEnds, raise_run, RaiseEnds, beside_run, beside_listing};
ghost use Rattle.txn_folder_model.specs.Runs.{IsRun};

use txn_store::types::codec::ObjectCodec;
use txn_store::types::epoch::EpochField;

/// Whatever the steps of any number of calls over one folder, in whatever order they are taken, whichever of them fail, before
/// their effect or after it, whichever calls are killed, and whichever runs of the machine of a listing go on beside them and tell
/// a page: there is an order of the calls and the listings, each at a point between its begin and its end, in which they are
/// those of one honest store. A call that answered has its answer there; one that failed or was killed stands there
/// only if it took its whole effect. A listing has there the page that it told, where versions are made in order meanwhile.
/// Clients may only raise the boundary.
pub fn calls_in_a_folder_are_those_of_one_store()
    ensures { (names : Names) (boundary : Segments) (floor n many : ℕ) (ops : ℕ → ℕ) (events : ℕ → Event) (listings : ℕ → Listing) → IsApart names boundary → IsElsewhere names boundary → ((t : ℕ) → MayHappen floor (events t)) → ((t : ℕ) → RaisesOnly (events t)) → n < 2 ^ 64 → AreRuns names n (world floor events) listings many → AllComeInOrder (world floor events) listings many → IsLinearizable names boundary ops n (world floor events) listings many }
{}

/// Clients whose calls and listings these are, who made them one after another and kept journals that say what became of them,
/// shared only a store: their diaries are one history, and no audit is asked. Each journal has to be one that its client's
/// operations lead along, its receipts those of its calls, in their order, and what its other calls asked for that would change
/// something has to be left in it. That they make versions in order, and raise the boundary, follows.
pub fn clients_of_a_folder_share_only_a_store<T: Drop, C: ObjectCodec<T>, E: EpochField<T>>(
    _codec: &C,
    _epochs: &E,
)
    ensures { (names : Names) (boundary : Segments) (floor n many : ℕ) (ops : ℕ → ℕ) (events : ℕ → Event) (listings : ℕ → Listing) (page clients : ℕ) (diaries : List (AuditedDiary T)) → IsApart names boundary → IsApart world_names boundary → IsElsewhere names boundary → ((t : ℕ) → MayHappen floor (events t)) → n < 2 ^ 64 → AreRuns names n (world floor events) listings many →
        1 ≤ page → clients_in diaries ≤ clients → AreDiaries page (C.encoded _codec.now) (C.decoded _codec.now) (E.epoch_of _epochs.now) (E.with_epoch _epochs.now) diaries → AreOfFolder names boundary ops n (world floor events) listings many diaries →
        ShareAFolder page (C.encoded _codec.now) (C.decoded _codec.now) (E.epoch_of _epochs.now) (E.with_epoch _epochs.now) clients diaries }
{}

/// Whatever the steps, a cut of power at any moment tears nothing: where a name is left, what is left of its file is just what the
/// call that made it was to put there.
pub fn nothing_is_torn()
    ensures { (floor t number : ℕ) (events : ℕ → Event) (syncs : Syncs) (left : AfterCut) (place : Place) → IsLeft floor events syncs t left → left.names place ≡ Some number → IsWhole floor events t place number (left.files number) }
{}

/// And what was told lasts. A put that was answered Ok took effect between its begin and its end, and each cut leaves the name as
/// it was then or later: if nobody took the name away, with the put's bytes (`stands`). So with a delete that was answered Ok, with
/// what a get told of a file (`told`, `unmodified`), and with each row of a listing's page. A get may leave its sync out where the
/// folder was synced since the file was there.
pub fn what_was_told_lasts()
    ensures put { (floor t call token : ℕ) (events : ℕ → Event) (syncs : Syncs) (place : Place) (bytes : List ℕ) → call < (world floor events t).count → IsPut ((world floor events t).calls call).work place bytes → ((world floor events t).calls call).answer ≡ Some (replies.Put (Ok token)) → LastsOf floor events syncs t call place (Some call) }
    ensures stands { (floor t call token : ℕ) (events : ℕ → Event) (syncs : Syncs) (place : Place) (bytes : List ℕ) (left : AfterCut) → call < (world floor events t).count → IsPut ((world floor events t).calls call).work place bytes → ((world floor events t).calls call).answer ≡ Some (replies.Put (Ok token)) → ((m : ℕ) → m < t → name_at floor events m place ≡ Some call → name_at floor events (suc m) place ≡ Some call) → IsLeft floor events syncs t left → Stands left place call bytes }
    ensures removed { (floor t call id : ℕ) (events : ℕ → Event) (syncs : Syncs) (phase : Phase Deleting) → call < (world floor events t).count → ((world floor events t).calls call).work ≡ Deletes id phase → ((world floor events t).calls call).answer ≡ Some (replies.Delete (Ok tt)) → LastsOf floor events syncs t call (Version id) None }
    ensures told { (floor t call : ℕ) (events : ℕ → Event) (syncs : Syncs) (place : Place) (known : Option ℕ) (phase : Phase Getting) (got : Got) → call < (world floor events t).count → ((world floor events t).calls call).work ≡ Gets place known phase → ((world floor events t).calls call).answer ≡ Some (replies.Get (Ok got)) → TellsOf floor events syncs t call place known (replies.Get (Ok got)) }
    ensures unmodified { (floor t call : ℕ) (events : ℕ → Event) (syncs : Syncs) (place : Place) (known : Option ℕ) (phase : Phase Getting) → call < (world floor events t).count → ((world floor events t).calls call).work ≡ Gets place known phase → ((world floor events t).calls call).answer ≡ Some (replies.Get (Err errors.NotModified)) → TellsOf floor events syncs t call place known (replies.Get (Err errors.NotModified)) }
    ensures listed { (names : Names) (floor t : ℕ) (events : ℕ → Event) (syncs : Syncs) (l : Listing) (run : IsRun names (world floor events) l) (meta : ObjectMeta) → l.ended < t → IsListed floor events syncs names l (Is ListSees) run.steps → Contains l.page.metas meta → ShowsOf floor events syncs names l t meta }
{}

/// What a cut of power leaves is what an honest store has after some of the calls, each at a point between its begin and its end:
/// with all puts and deletes that were answered Ok, all gets that were told of a file and left no sync out, and all listings that
/// synced. (Refusals, and that nothing was there, need not last.)
pub fn what_is_left_is_of_a_store()
    ensures { (names : Names) (boundary : Segments) (floor n many : ℕ) (ops : ℕ → ℕ) (events : ℕ → Event) (listings : ℕ → Listing) (syncs : Syncs) (left : AfterCut) → IsApart names boundary → IsElsewhere names boundary → ((t : ℕ) → MayHappen floor (events t)) → ((t : ℕ) → RaisesOnly (events t)) → n < 2 ^ 64 → (runs : AreRuns names n (world floor events) listings many) → AllComeInOrder (world floor events) listings many → ((number : ℕ) (low : number < many) → IsListed floor events syncs names (listings number) (Is ListSees) (runs number low).0.steps) → IsLeft floor events syncs n left → IsOfStore floor events syncs names boundary ops listings many n left }
{}

/// Beside any calls, a listing that has the lock of removals with others, and whose three scans tell one moment, tells what stood
/// at one: between the end of its first scan and that of its second, exactly the versions that it tells stood, of those above
/// the one that it goes on after. Clients have to make versions in the order of their ids, and to raise the boundary.
pub fn a_settled_listing_tells_a_moment()
    ensures { (names : Names) (boundary : Segments) (floor : ℕ) (events : ℕ → Event) (after : Option ℕ) (last a b c d e f : ℕ) (first second third run : List ℕ) → IsApart names boundary → ((t : ℕ) → MayHappen floor (events t)) → ((t : ℕ) → RaisesOnly (events t)) → f < 2 ^ 64 → IsListing (world floor events) after last a b c d e f first second third → AreSettled last first second third run → StoodAt (world floor events) after b d (first ++ run) }
{}

/// Of two calls that make one version the one whose link is first has made it, and the other is told that it exists.
pub fn one_of_two_creators_makes_it()
    ensures { RaceEnds (world 10 race 23) }
{}

/// A call that is killed between its link and the removal of its temporary name has made its version, which a get reads.
pub fn what_a_killed_call_linked_is_read()
    ensures { (bytes : List ℕ) → KillEnds bytes (world 10 (killed_run bytes) 14) }
{}

/// Two such clients, of which one writes a value and is killed with what its operation left, and one reads it and is told the
/// value, have journals that their operations lead along, and are clients of the folder: the premises of their law are met.
pub fn clients_of_a_killed_call_keep_journals<T: Drop, C: ObjectCodec<T>, E: EpochField<T>>(
    _codec: &C,
    _epochs: &E,
)
    ensures diaries { (page : ℕ) (value : T) (lefts : Vec Left Global) → C.decoded _codec.now (C.encoded _codec.now value) ≡ Some value → lefts.items ≡ killed_left (C.encoded _codec.now value) ∷ [] → AreDiaries page (C.encoded _codec.now) (C.decoded _codec.now) (E.epoch_of _epochs.now) (E.with_epoch _epochs.now) (killed_diary value lefts ∷ reader_diary value (C.encoded _codec.now value) ∷ []) }
    ensures folder { (value : T) (lefts : Vec Left Global) → lefts.items ≡ killed_left (C.encoded _codec.now value) ∷ [] → AreOfFolder world_names world_boundary (λ _. 1) 14 (world 10 (killed_run (C.encoded _codec.now value))) (λ _. no_listing) 0 (killed_diary value lefts ∷ reader_diary value (C.encoded _codec.now value) ∷ []) }
    ensures asked { (t : ℕ) (value : T) → MayHappen 10 (killed_run (C.encoded _codec.now value) t) }
    ensures places { IsApart world_names world_boundary × IsElsewhere world_names world_boundary }
{}

/// A link that is answered with an error and was made is found, and the call is told so.
pub fn a_link_answered_with_an_error_is_found()
    ensures { LateEnds (world 10 late_run 12) }
{}

/// A create whose link was answered with an error is cut: before it syncs the folder its name may be left or not, and after its
/// answer the version is left.
pub fn a_create_that_is_cut()
    ensures { CutEnds }
{}

/// Of two calls that raise the boundary from 1, by its token, the one that has the lock first takes effect, and the other is told
/// that the token is not the file's.
pub fn a_boundary_that_two_raise()
    ensures { (one two three : List ℕ) → boundary_read one ≡ Some 1 → boundary_read two ≡ Some 2 → RaiseEnds two (world 10 (raise_run one two three) 33) }
{}

/// While one call makes version 2, a listing's first scan tells version 1, and its second and third both: these are scans as the
/// file system may tell them, and they are settled. The listing's machine runs so, and tells both versions.
pub fn a_listing_beside_a_create_settles()
    ensures run { (names : Names) → IsRun names (world 10 beside_run) (beside_listing names) }
    ensures listing { IsListing (world 10 beside_run) None 1 7 9 11 15 15 16 (1 ∷ []) (1 ∷ 2 ∷ []) (1 ∷ 2 ∷ []) }
    ensures settled { AreSettled 1 (1 ∷ []) (1 ∷ 2 ∷ []) (1 ∷ 2 ∷ []) (2 ∷ []) }
{}
