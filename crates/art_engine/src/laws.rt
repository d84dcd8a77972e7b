//! Laws of the definitions. Each function does nothing, and its contract is the law.
ghost use Rattle.art_engine.specs.Laws.{OwnReadsBack, OthersAreUntouched, OwnIsInPlace};
ghost use Rattle.art_engine.specs.Laws.{RequestsLeaveOthers, TenantsStandAlone, DeletionsGoByOwnKeys};
ghost use Rattle.art_engine.specs.Laws.{DeletionsGoByOwnNumbers, DropsReadFew, DumpsTellRecords, DumpsAreReadBack};
ghost use Rattle.art_engine.specs.Laws.{FullKeysKeepOrder, FullKeysKeepConflicts, OwnIsUnderPrefix};
ghost use Rattle.art_engine.specs.Laws.{PutsAreUndone, NumberPutsAreUndone, PathsAreOwn};
ghost use Rattle.art_engine.specs.FewVisits.{VisitsAreBounded};
ghost use Rattle.art_engine.specs.OwnAhead.{AheadIsOwn, OwnPathsAreOwn, OwnWaysArePaths};

/// What is put in place for a tenant is what it holds then.
#[tactic(auto, using(crate::proofs::OwnLaws::own_reads_back))]
pub fn own_reads_back()
    ensures { OwnReadsBack }
{}

/// What another tenant holds is untouched by it.
#[tactic(auto, using(crate::proofs::OwnLaws::others_are_untouched))]
pub fn others_are_untouched()
    ensures { OthersAreUntouched }
{}

/// What a tenant holds, put in place again, changes nothing.
#[tactic(auto, using(crate::proofs::OwnLaws::own_is_in_place))]
pub fn own_is_in_place()
    ensures { OwnIsInPlace }
{}

/// Full keys are in order if their tenants are, and within a tenant if its keys are.
#[tactic(auto, using(crate::proofs::FullKeys::full_keys_keep_order))]
pub fn full_keys_keep_order()
    ensures { FullKeysKeepOrder }
{}

/// Full keys conflict if they are one tenant's and its keys do.
#[tactic(auto, using(crate::proofs::FullKeys::full_keys_keep_conflicts))]
pub fn full_keys_keep_conflicts()
    ensures { FullKeysKeepConflicts }
{}

/// What a tenant holds is what the two maps have under the tenant's prefix, with the prefix cut off.
#[tactic(auto, using(crate::proofs::OwnPrefixes::own_is_under_prefix))]
pub fn own_is_under_prefix()
    ensures { OwnIsUnderPrefix }
{}

/// A request of one tenant leaves what all others hold.
#[tactic(auto, using(crate::proofs::Isolation::requests_leave_others))]
pub fn requests_leave_others()
    ensures { RequestsLeaveOthers }
{}

/// The replies to a tenant's lines, and what it holds after them, are those of these lines alone from what it held.
/// Whatever others send changes nothing of that, if the same lines are answered `memory`.
pub fn tenants_stand_alone()
    ensures { TenantsStandAlone }
{}

/// While a tenant has another key, whether the deletion of one may be out of memory depends on what it holds alone.
pub fn deletions_go_by_own_keys()
    ensures { DeletionsGoByOwnKeys }
{}

/// While a tenant has another number, whether the deletion of one may be out of memory depends on what it holds alone.
pub fn deletions_go_by_own_numbers()
    ensures { DeletionsGoByOwnNumbers }
{}

/// A `put` is answered `new`, and then a `del` of that key is not answered `memory`: the records are then as they were.
/// So is what a `dump` and an `audit` write.
#[tactic(auto, using(crate::proofs::Undoing::puts_are_undone))]
pub fn puts_are_undone()
    ensures { PutsAreUndone }
{}

/// A `nput` is answered `new`, and then a `ndel` of that number is not answered `memory`: the records are then as they
/// were. So is what a `dump` and an `audit` write.
#[tactic(auto, using(crate::proofs::Undoing::number_puts_are_undone))]
pub fn number_puts_are_undone()
    ensures { NumberPutsAreUndone }
{}

/// Two dumps are equal exactly if their records are.
pub fn dumps_tell_records()
    ensures { DumpsTellRecords }
{}

/// An empty index with memory to spare carries out the lines of a dump. They are answered `new` once a record and then
/// `bad`, and leave the records that were dumped.
pub fn dumps_are_read_back()
    ensures { DumpsAreReadBack }
{}

/// A drop reads and frees at least as many nodes as the tenant has records. At most they are twice as many, and 20 for
/// each byte of the longest full key and for two.
pub fn drops_read_few()
    ensures { DropsReadFew }
{}

/// What a look-up, a listing or a drop reads lies between bounds, which the keys of the records tell.
///
/// Of a look-up of one record these are 0 and the nodes of its full key's path, and where it finds one all of these. Of
/// a listing of m records they are m and m + 2 * (b + 6) * (L + 2). Here b is the number of bytes of the prefix or
/// of the longer bound, L that of the longest full key. For numbers they are 8 and 12. Those of a drop are told by
/// `drops_read_few`.
#[tactic(auto, using(crate::proofs::FewVisits::visits_are_bounded))]
pub fn visits_are_bounded()
    ensures { VisitsAreBounded }
{}

/// What is read ahead of a tenant's line lies on the path of a full key of this tenant: that of the key, the number,
/// the prefix or the lower bound that the line has.
pub fn paths_are_own()
    ensures { PathsAreOwn }
{}

/// What is read ahead of a line are nodes of the path in its own tenant's tree, and at most four more, if that tenant
/// has a record in the map where the path lies.
pub fn ahead_is_own()
    ensures { AheadIsOwn }
{}

/// So many nodes at most lie on the path of a line's own full key in the tree of some records, and so many at most are
/// told by `run` as read ahead of it.
#[tactic(auto, using(crate::proofs::OwnAhead::own_paths_are_own))]
pub fn own_paths_are_own()
    ensures { OwnPathsAreOwn }
{}

/// Where two maps hold the records, a way in a line's own map is the first nodes of the path of its own full key. They
/// are as many as are told for it.
pub fn own_ways_are_paths()
    ensures { OwnWaysArePaths }
{}
