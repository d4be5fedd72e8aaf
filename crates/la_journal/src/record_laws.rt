// What holds of groups with their records, whatever the bytes: laws that no code runs.
ghost use Rattle.la_journal.specs.Records.{GroupsGrow, OthersAreBehind, BytesAreGroups, HeadsAreRead, RecordsLink, GroupsAreTold, TornIsNoDamage};

/// Bytes behind a head or a record are their groups, each with its record, and what stands behind.
pub fn bytes_are_groups()
    ensures { BytesAreGroups }
{}

/// Behind groups with nothing behind them, a group of whole lines with its record is read too, and again nothing
/// is behind.
#[tactic(auto, using(crate::proofs::RecordLaws::groups_grow))]
pub fn groups_grow()
    ensures { GroupsGrow }
{}

/// Behind groups with nothing behind them, bytes from which no group is read change no group, and are what is behind.
#[tactic(auto, using(crate::proofs::RecordLaws::others_are_behind))]
pub fn others_are_behind()
    ensures { OthersAreBehind }
{}

/// A new file, which is a head alone, has its text and no group.
#[tactic(auto, using(crate::proofs::Told::heads_are_read))]
pub fn heads_are_read()
    ensures { HeadsAreRead }
{}

/// A record ends in the digest of what stands before it.
#[tactic(auto, using(crate::proofs::Told::records_link))]
pub fn records_link()
    ensures { RecordsLink }
{}

/// A group with its record is told as one, whatever lines stand in front of it and whatever bytes behind.
#[tactic(auto, using(crate::proofs::Told::groups_are_told))]
pub fn groups_are_told()
    ensures { GroupsAreTold }
{}

/// What a crash leaves of one group that was put behind others is no damage, or it is the whole group with its record:
/// where no other group that a crash may leave of it has its record.
pub fn torn_is_no_damage()
    ensures { TornIsNoDamage }
{}
