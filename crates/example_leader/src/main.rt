//! A leader: it claims the object, works for as long as it holds it, and stops once a newer leader has claimed it.
//! `example_leader ROOT NAME TURNS` is recorded in ROOT/NAME.diary, which `txnobj audit` reads.
#![tactic(auto)]

use bytes::Bytes;
use std::env;
use txnobj::{
    CallbackFault, DirtyObject, Error, FenceableTransactionalObject, MonotonicId, NoInvariant,
    SimpleTransactionalObject, TransactionalObject,
};
use txnobj_folder::{Entry, EntryCodec, EntryEpoch, MachineClock, Opening, open};

type View = SimpleTransactionalObject<Entry, NoInvariant>;

type Leader = FenceableTransactionalObject<Entry, NoInvariant>;

type Asked = Result<Option<DirtyObject<Entry, MonotonicId>>, CallbackFault>;

/// What a turn writes, straight on the version that the leader is at.
fn done(rt: &HostRuntime, leader: &Leader, says: &str) -> Asked {
    let mut dirty = leader.prepare_dirty()?;
    dirty.value.payload = Bytes::from_string(String::from_str(rt.alloc(), says)?)?;
    Ok(Some(dirty))
}

fn lead(rt: &HostRuntime, root: &str, name: &str, turns: u64) -> Result<(), anyhow::Error> {
    let diary = format!(in rt.alloc(); "{root}/{name}.diary")?;
    let opening = Opening {
        recording: Some(diary.as_str()),
        ..Opening::new()
    };
    let mut client = open(rt, root, "leader", &opening, EntryCodec, EntryEpoch)?;
    let nobody = Entry {
        epoch: 0,
        payload: Bytes::new(),
    };
    let view = match View::init(rt.alloc(), &mut client, nobody) {
        Err(Error::ObjectVersionExists) => View::load(rt.alloc(), &mut client)?,
        begun => begun?,
    };
    let mut leader = Leader::init(view, &mut client, 10_000, &mut MachineClock::new(rt)?)?;
    println!(rt; "{name} leads")?;
    for turn in 0..turns {
        let says = format!(in rt.alloc(); "{name} {turn}")?;
        let work = |leader: &Leader| done(rt, leader, says.as_str());
        match leader.maybe_apply_update(&mut client, &work) {
            Err(Error::Fenced) => return Ok(println!(rt; "{name} is fenced")?),
            written => written?,
        }
    }
    Ok(println!(rt; "{name} has done {turns} turns")?)
}

fn main(rt: HostRuntime) -> Result<(), anyhow::Error> {
    let words: Vec<String> = env::args(&rt)?.collect(rt.alloc())?;
    match words.as_slice() {
        [_, root, name, turns] => lead(&rt, root.as_str(), name.as_str(), turns.as_str().parse()?),
        _ => Ok(rt.eprintln("usage: example_leader ROOT NAME TURNS")?),
    }
}
