//! Scenes: what is done in a folder of its own, one thing after another, and what is told.

use crate::tests::failing::{Failing, Oddity, never_failing};
use crate::tests::steps::{clean, folder_of, play};
use crate::tests::watched::Log;
use std::alloc::{AllocError, Global};
use std::cell::Cell;
use std::os::unix::fs::symlink;
use std::test::Fail;
use std::time::{Duration, SystemTime};
use std::{fs, io};
use txn_folder_files::lock::{LockFile, Sharing};

/// What is done, and what is told. A table is played by one whose store syncs (`synced`), by one whose store does not (`fast`),
/// by one who may not write (`reader`), while another holds the boundary's lock (`held`), where files keep no time but in whole
/// seconds (`coarse`), where a version is made amid a listing (`growing`), where the clock tells 1970 (`stopped`), or below a
/// folder that is missing (`nowhere`), each with a store of its own. `left` leaves files, `cleaned` removes those of the dead, and `odd` makes what is no regular file.
pub type Block = (&'static str, &'static str);

/// Files of others beside the versions, which no listing tells and no cleaning removes.
const FOREIGN: &[&str] = &[
    "test/notes",
    "test/1.val",
    "test/00000000000000000009.txt",
    "test/0000000000000000000a.val",
    "test/notes#00000000000000000001",
    "test/00000000000000000007.val#1",
];

/// What processes that died have left.
const LEFT: &[&str] = &[
    "test/00000000000000000007.val#00000000000000000001",
    "gc/test.boundary#00000000000000000002",
];

/// What is told is to be nothing.
pub fn verdict(done: io::Result<()>, wrong: &str) -> Result<(), Fail> {
    done?;
    if wrong.is_empty() {
        return Ok(());
    }
    Err(Fail::new(wrong))
}

/// The file of a name in a folder.
fn file_at(alloc: Global, root: &str, name: &str) -> Result<String, AllocError> {
    format!(in alloc; "{root}/{name}")
}

fn write_at(rt: &HostRuntime, root: &str, name: &str) -> io::Result<()> {
    let file = file_at(rt.alloc(), root, name)?;
    fs::write(rt, file.as_str(), "left")
}

/// Leaves files of others and of the dead.
fn leave(rt: &HostRuntime, root: &str) -> io::Result<()> {
    for name in FOREIGN {
        write_at(rt, root, *name)?;
    }
    for name in LEFT {
        write_at(rt, root, *name)?;
    }
    Ok(())
}

fn stands_at(rt: &HostRuntime, root: &str, name: &str) -> io::Result<bool> {
    let file = file_at(rt.alloc(), root, name)?;
    fs::exists(rt, file.as_str())
}

/// How many of these stand.
fn standing(rt: &HostRuntime, root: &str, names: &[&str]) -> io::Result<u64> {
    let mut count: u64 = 0;
    for name in names {
        if stands_at(rt, root, *name)? {
            count = count.saturating_add(1);
        }
    }
    Ok(count)
}

/// Writes how many temporary files were removed at first and then, and how many files of others and of the dead stand.
fn write_counts(
    alloc: Global,
    removed: (u64, u64),
    standing: (u64, u64),
    text: &mut String,
) -> Result<(), AllocError> {
    let (old, new) = removed;
    let (foreign, dead) = standing;
    let told = format!(in alloc; "removed {old}, then {new}; {foreign} and {dead} stand")?;
    text.push_str(told.as_str())
}

/// How many temporary files are removed up to a time. There is such a time.
fn cleaned(rt: &HostRuntime, root: &str, before: Option<SystemTime>) -> io::Result<u64> {
    let Some(before) = before else {
        return Err(io::Error::from(io::ErrorKind::InvalidInput));
    };
    let left = Cell::new(u64::MAX);
    let log = Log::new(rt.alloc(), root);
    match clean(never_failing(rt, &left, &log), root, before)? {
        Some(removed) => Ok(removed),
        None => Err(io::Error::from(io::ErrorKind::Other)),
    }
}

/// Removes temporary files up to an hour ago and up to an hour from now, and writes how many, and what then stands.
fn clean_up(rt: &HostRuntime, root: &str, text: &mut String) -> io::Result<()> {
    let hour = Duration::from_secs(3600);
    let now = SystemTime::now(rt)?;
    let old = cleaned(rt, root, now.checked_sub(hour))?;
    let new = cleaned(rt, root, now.checked_add(hour))?;
    let foreign = standing(rt, root, FOREIGN)?;
    let dead = standing(rt, root, LEFT)?;
    write_counts(rt.alloc(), (old, new), (foreign, dead), text)?;
    Ok(())
}

/// Makes a folder at one of the names of the object's files.
fn folder_at(rt: &HostRuntime, root: &str, name: &str) -> io::Result<()> {
    let folder = file_at(rt.alloc(), root, name)?;
    fs::create_dir_all(rt, folder.as_str())
}

/// Makes a link at one of the names of the object's files.
fn link_at(rt: &HostRuntime, root: &str, name: &str, to: &str) -> io::Result<()> {
    let link = file_at(rt.alloc(), root, name)?;
    symlink(rt, to, link.as_str())
}

/// Puts a link to nothing, a link to a device and a folder at the names of versions, and a folder at that of the boundary.
fn make_odd(rt: &HostRuntime, root: &str) -> io::Result<()> {
    folder_at(rt, root, "test/00000000000000000003.val")?;
    folder_at(rt, root, "gc/test.boundary")?;
    link_at(rt, root, "test/00000000000000000001.val", "elsewhere")?;
    link_at(rt, root, "test/00000000000000000002.val", "/dev/null")
}

/// What is odd about the system of one who plays a table.
fn oddity_of(who: &str) -> Oddity {
    match who {
        "coarse" => Oddity::KeepsSeconds,
        "growing" => Oddity::Grows,
        "stopped" => Oddity::IsStopped,
        _ => Oddity::Nothing,
    }
}

/// Plays a table while another open of the boundary's lock holds it.
fn play_held(rt: &HostRuntime, root: &str, block: &Block, text: &mut String) -> io::Result<()> {
    let name = file_at(rt.alloc(), root, "gc/test.boundary#0")?;
    let held = fs::File::create(rt, name.as_str())?;
    if !held.try_lock_file(Sharing::Alone)? {
        text.push_str("it is not held")?;
    }
    let played = play_table(rt, root, block, text);
    drop(held);
    played
}

/// Plays a table.
fn play_table(rt: &HostRuntime, root: &str, block: &Block, text: &mut String) -> io::Result<()> {
    let left = Cell::new(u64::MAX);
    let log = Log::new(rt.alloc(), root);
    let (who, table) = *block;
    let rt = Failing {
        writes: who != "reader",
        oddity: oddity_of(who),
        ..never_failing(rt, &left, &log)
    };
    play(rt, root, who != "fast", table, text)?;
    Ok(())
}

/// Plays a table below a folder that is missing, and writes it where that was made.
fn play_nowhere(rt: &HostRuntime, root: &str, block: &Block, text: &mut String) -> io::Result<()> {
    let missing = file_at(rt.alloc(), root, "missing")?;
    play_table(rt, missing.as_str(), block, text)?;
    if fs::exists(rt, missing.as_str())? {
        text.push_str("it was made")?;
    }
    Ok(())
}

/// Does what a block says, and writes what is told.
fn play_block(rt: &HostRuntime, root: &str, block: &Block, text: &mut String) -> io::Result<()> {
    match block.0 {
        "left" => leave(rt, root),
        "cleaned" => clean_up(rt, root, text),
        "odd" => make_odd(rt, root),
        "held" => play_held(rt, root, block, text),
        "nowhere" => play_nowhere(rt, root, block, text),
        _ => play_table(rt, root, block, text),
    }
}

/// Writes what is told otherwise than a block says.
fn try_block(rt: &HostRuntime, root: &str, block: &Block, wrong: &mut String) -> io::Result<()> {
    let mut text = String::new(rt.alloc());
    play_block(rt, root, block, &mut text)?;
    if text.as_str() != block.1 {
        wrong.push_str(text.as_str())?;
    }
    Ok(())
}

fn try_blocks(
    rt: &HostRuntime,
    root: &str,
    blocks: &[Block],
    wrong: &mut String,
) -> io::Result<()> {
    for block in blocks {
        try_block(rt, root, block, wrong)?;
    }
    Ok(())
}

/// Writes what is told otherwise than these blocks say, in a folder of their own, which is then removed.
fn try_alone(rt: &HostRuntime, blocks: &[Block], wrong: &mut String) -> io::Result<()> {
    let root = folder_of(rt, "scene")?;
    fs::create_dir(rt, root.as_str())?;
    let tried = try_blocks(rt, root.as_str(), blocks, wrong);
    fs::remove_dir_all(rt, root.as_str())?;
    tried
}

/// Plays a scene.
pub fn play_scene(rt: &HostRuntime, blocks: &[Block]) -> Result<(), Fail> {
    let mut wrong = String::new(rt.alloc());
    let tried = try_alone(rt, blocks, &mut wrong);
    verdict(tried, wrong.as_str())
}
