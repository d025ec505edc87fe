//! Lines of which a call may be broken off, by a store that fails or by a growth that is refused, and what that leaves.
use slatedb_txn_obj_script::player::Player;
use std::alloc::{AllocError, Global};
use txn_script_lines::numerals::read_decimal;
use txn_script_lines::record::{Record, read_record};

// Tables: a row is a line, the look at its object, what the line says, and what a read says after it, divided by ` | `.

/// A view is made, and updated.
pub(crate) const AN_UPDATE: &str = "\
1 init 0:1 | show 1 | view 1 at 1 0:1 | read 1 0:1
1 update 1 0:2 | show 1 | view 1 at 2 0:2 | read 2 0:2
1 read | show 1 | read 2 0:2 | read 2 0:2";

/// A stale view is updated by a mutator behind the boundary: the first attempt creates a removed version again, and the
/// second enters the next one.
pub(crate) const AN_UPDATE_BEHIND_THE_BOUNDARY: &str = "\
1 init 0:1 | show 1 | view 1 at 1 0:1 | read 1 0:1
2 write 1 0:2 | show 1 | wrote 2 | read 2 0:2
2 write 2 0:3 | show 1 | wrote 3 | read 3 0:3
1 advance 2 | show 1 | done | read 3 0:3
1 delete 2 | show 1 | done | read 3 0:3
1 apply 1 | show 1 | view 1 at 4 0:2 | read 4 0:2
1 list - - | show 1 | ids 1 2 3 4 | read 4 0:2";

/// A protocol has read a version that others overtook, fenced and removed.
pub(crate) const A_FENCED_VERSION_AT_HAND: &str = "\
2 write - 0:1 | show 1 | wrote 1 | read 1 0:1
1 read | show 1 | read 1 0:1 | read 1 0:1
2 write 1 0:2 | show 1 | wrote 2 | read 2 0:2
2 write 2 0:3 | show 1 | wrote 3 | read 3 0:3
2 advance 2 | show 1 | done | read 3 0:3
2 delete 2 | show 1 | done | read 3 0:3
1 read | show 1 | read 3 0:3 | read 3 0:3";

/// An older holder is fenced.
pub(crate) const HOLDERS: &str = "\
1 init 0:0 | show 1 | view 1 at 1 0:0 | read 1 0:0
copy 1 | show 2 | view 2 at 1 0:0 | read 1 0:0
1 claim 2 | show 2 | holder 2 at 2 1:0 epoch 1 | read 2 1:0
1 load | show 3 | view 3 at 2 1:0 | read 2 1:0
1 claim 3 | show 3 | holder 3 at 3 2:0 epoch 2 | read 3 2:0
1 holder_refresh 2 | show 3 | refused 6 Fenced | read 3 2:0
show 2 | show 2 | holder 2 at 3 2:0 epoch 1 | read 3 2:0
candidate 2 | show 2 | refused 6 Fenced | read 3 2:0
1 holder_refresh 3 | show 3 | view 3 at 3 2:0 | read 3 2:0
candidate 3 | show 3 | read 3 2:0 | read 3 2:0";

/// An epoch is claimed that is not above the version's.
pub(crate) const A_STALE_EPOCH: &str = "\
1 init 3:0 | show 1 | view 1 at 1 3:0 | read 1 3:0
1 claim_at 1 3 | show 1 | refused 6 Fenced | read 1 3:0";

/// An epoch is claimed that is asked for.
pub(crate) const AN_EPOCH: &str = "\
1 init 0:0 | show 1 | view 1 at 1 0:0 | read 1 0:0
1 claim_at 1 7 | show 1 | holder 1 at 2 7:0 epoch 7 | read 2 7:0";

/// What comes of lines.
#[derive(Clone, Copy, Debug, PartialEq, Eq)]
pub(crate) enum Outcome {
    /// What they are to say.
    AsTold,
    /// A call was broken off, and left what it may.
    BrokenOff,
    /// The line of this number, counted from 0, said something else, or left what it may not.
    Other(usize),
}

/// What a line says.
fn say(alloc: Global, player: &mut Player, line: &str) -> Result<String, AllocError> {
    match player.play(line)? {
        None => String::from_str(alloc, "bad line"),
        Some(played) => format!(in alloc; "{played}"),
    }
}

/// The four parts of a row.
fn parts_of(row: &str) -> Option<(&str, &str, &str, &str)> {
    let (line, rest) = row.split_once(" | ")?;
    let (show, rest) = rest.split_once(" | ")?;
    let (told, newest) = rest.split_once(" | ")?;
    Some((line, show, told, newest))
}

/// What a read says after so many lines.
fn newest_after(rows: &str, count: usize) -> &str {
    let Some(last) = count.checked_sub(1) else {
        return "read none";
    };
    match rows.lines().nth(last).and_then(parts_of) {
        Some((_, _, _, newest)) => newest,
        None => "read none",
    }
}

/// Whether an object is at what a read says.
fn is_at(shown: &str, read: &str) -> bool {
    match (shown.split_once(" at "), read.split_once(' ')) {
        (Some((_, shown)), Some((_, read))) => shown == read,
        _ => false,
    }
}

/// Whether a call that was broken off may leave an object that was at `before` at `after`. A claim takes the view with
/// it, and an update by a mutator may have refreshed its view; each other call leaves its object as it was.
fn may_leave(line: &str, before: &str, after: &str, newest: &str) -> bool {
    if line.contains("claim") {
        return after == "misplaced";
    }
    if line.contains("apply") {
        return after == before || is_at(after, newest);
    }
    after == before
}

/// The first line that says something else, counted from 0, with what it says, and whether it left its object as it may.
fn first_other(
    alloc: Global,
    player: &mut Player,
    rows: &str,
) -> Result<Option<(usize, String, bool)>, AllocError> {
    for (at, row) in rows.lines().enumerate() {
        let Some((line, show, told, _)) = parts_of(row) else {
            return Ok(Some((at, String::from_str(alloc, "no row")?, false)));
        };
        let before = say(alloc, player, show)?;
        let said = say(alloc, player, line)?;
        if said.as_str() != told {
            let after = say(alloc, player, show)?;
            let newest = newest_after(rows, at);
            let is_left = may_leave(line, before.as_str(), after.as_str(), newest);
            return Ok(Some((at, said, is_left)));
        }
    }
    Ok(None)
}

/// The number, the id and the record of a view, as it is printed.
fn read_view(shown: &str) -> Option<(u64, u64, Record)> {
    let (number, rest) = shown.strip_prefix("view ")?.split_once(" at ")?;
    let (id, record) = rest.split_once(' ')?;
    let number = read_decimal(number)?;
    let id = read_decimal(id)?;
    Some((number, id, read_record(record.as_bytes())?))
}

/// Whether a new client's update of the newest version is the next one.
fn updates(alloc: Global, player: &mut Player) -> Result<bool, AllocError> {
    let loaded = say(alloc, player, "3 load")?;
    let Some((number, id, Record { epoch, .. })) = read_view(loaded.as_str()) else {
        return Ok(false);
    };
    let update = format!(in alloc; "3 update {number} {epoch}:77")?;
    let updated = say(alloc, player, update.as_str())?;
    let newest = say(alloc, player, "3 read")?;
    let next = id.saturating_add(1);
    let is_newest = newest.as_str() == format!(in alloc; "read {next} {epoch}:77")?.as_str();
    Ok(is_newest && is_at(updated.as_str(), newest.as_str()))
}

/// Whether a new client reads one of these as the newest version, over a store that fails no more, and writes on that.
fn goes_on(
    alloc: Global,
    player: &mut Player,
    before: &str,
    after: &str,
) -> Result<bool, AllocError> {
    player.play("fail 0 before")?;
    let newest = say(alloc, player, "3 read")?;
    let is_written_on = if newest.as_str() == "read none" {
        is_at(say(alloc, player, "3 init 0:77")?.as_str(), "read 1 0:77")
    } else {
        updates(alloc, player)?
    };
    Ok(is_written_on && (newest.as_str() == before || newest.as_str() == after))
}

/// What comes of lines of which a call may be broken off with this error, over a store whose call fails as this line says.
/// Where one is, a new client reads what was newest before its line or after it, and goes on from there.
pub(crate) fn end_of(
    alloc: Global,
    failure: &str,
    rows: &str,
    error: &str,
) -> Result<Outcome, AllocError> {
    let mut player = Player::new(alloc)?;
    player.play(failure)?;
    let Some((at, said, is_left)) = first_other(alloc, &mut player, rows)? else {
        return Ok(Outcome::AsTold);
    };
    let after = newest_after(rows, at.saturating_add(1));
    let is_well = goes_on(alloc, &mut player, newest_after(rows, at), after)?;
    if is_left && is_well && said.as_str() == error {
        return Ok(Outcome::BrokenOff);
    }
    Ok(Outcome::Other(at))
}
