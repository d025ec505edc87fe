//! A counter of several processes: each adds one so many times, and none loses what another added.
//! `example_counter ROOT NAME TIMES` is recorded in ROOT/NAME.diary, which `txnobj audit` reads.
#![tactic(auto)]

use bytes::Bytes;
use std::{env, str};
use txnobj::{
    CallbackFault, DirtyObject, Error, MonotonicId, NoInvariant, SimpleTransactionalObject,
    TransactionalObject,
};
use txnobj_folder::{Entry, EntryCodec, EntryEpoch, Opening, open};

type View = SimpleTransactionalObject<Entry, NoInvariant>;

type Asked = Result<Option<DirtyObject<Entry, MonotonicId>>, CallbackFault>;

/// The number that a version says.
fn count_of(view: &View) -> u64 {
    let text = str::from_utf8(view.object().payload.as_slice()).unwrap_or("0");
    text.parse().unwrap_or(0)
}

/// A version that says one more. After a conflict it is made anew, of what another wrote.
fn one_more(rt: &HostRuntime, view: &View) -> Asked {
    let count = count_of(view).saturating_add(1);
    let mut dirty = view.prepare_dirty()?;
    dirty.value.payload = Bytes::from_string(format!(in rt.alloc(); "{count}")?)?;
    Ok(Some(dirty))
}

fn count(rt: &HostRuntime, root: &str, name: &str, times: u64) -> Result<(), anyhow::Error> {
    let diary = format!(in rt.alloc(); "{root}/{name}.diary")?;
    let opening = Opening {
        recording: Some(diary.as_str()),
        ..Opening::new()
    };
    let mut client = open(rt, root, "counter", &opening, EntryCodec, EntryEpoch)?;
    let zero = Entry {
        epoch: 0,
        payload: Bytes::new(),
    };
    let mut view = match View::init(rt.alloc(), &mut client, zero) {
        Err(Error::ObjectVersionExists) => View::load(rt.alloc(), &mut client)?,
        begun => begun?,
    };
    let add = |view: &View| one_more(rt, view);
    for _ in 0..times {
        view.maybe_apply_update(&mut client, &add)?;
    }
    println!(rt; "{name} added {times}")?;
    Ok(())
}

fn main(rt: HostRuntime) -> Result<(), anyhow::Error> {
    let words: Vec<String> = env::args(&rt)?.collect(rt.alloc())?;
    match words.as_slice() {
        [_, root, name, times] => count(&rt, root.as_str(), name.as_str(), times.as_str().parse()?),
        _ => Ok(rt.eprintln("usage: example_counter ROOT NAME TIMES")?),
    }
}
