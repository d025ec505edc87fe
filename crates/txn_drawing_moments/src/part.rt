//! A part of what happened, by its store calls.

ghost use Rattle.std.specs.Prelude.{◌≡◌, ◌<◌, ◌-◌, ◌≤◌, length, drop, IfSome, IfNone};
ghost use Rattle.txn_drawing_moments.specs.Parts.{is_call, calls_in, IsBehind, IsEnd, IsPart, IsNoPart};

use crate::moment::{Moment, Touch};

/// Moments up to the end of those that are drawn, and how many of them stand before these.
#[derive(Clone, Copy)]
pub struct Part<'a> {
    pub moments: &'a [Moment],
    pub before: usize,
}

impl<'a> Part<'a> {
    /// All of these moments.
    pub fn whole(moments: &'a [Moment]) -> Part<'a>
        ensures moments { result.moments.now ≡ moments.now }
        ensures before { result.before ≡ 0 }
    {
        Part { moments, before: 0 }
    }

    /// The moments that are drawn.
    pub fn shown(self) -> &'a [Moment]
        ensures { result.now ≡ drop self.entry.before self.entry.moments.now }
    {
        match self.moments.get(self.before..) {
            Some(shown) => shown,
            None => &[],
        }
    }
}

/// Whether the store served a call, whoever waited for its reply.
fn is_call(moment: &Moment) -> bool
    ensures { result ≡ is_call moment.now.touch }
{
    !matches!(moment.touch, Touch::None)
}

/// How many calls the store served.
#[tactic(auto, using(crate::proofs::Counting::calls_next))]
pub fn calls_in(moments: &[Moment]) -> u64
    ensures { result ≡ calls_in moments.now }
{
    let mut count = 0u64;
    for moment in moments {
        if is_call(moment) {
            count += 1;
        }
    }
    count
}

/// The place behind the call of this number, where there are so many, and the first place for 0.
#[tactic(auto, using(crate::proofs::Counting::calls_next))]
fn behind(moments: &[Moment], calls: u64) -> Option<usize>
    ensures some { IfSome result (λ place. IsBehind moments.now calls place) }
    ensures none { IfNone result (calls_in moments.now < calls) }
{
    let mut count = 0u64;
    if calls == 0 {
        return Some(0);
    }
    for place in 0..moments.len() {
        if is_call(&moments[place]) {
            count += 1;
            if count == calls {
                return Some(place + 1);
            }
        }
    }
    None
}

/// Where a part of so many calls at most ends.
#[tactic(auto, using(crate::proofs::Counting::whole_end))]
fn end_of(moments: &[Moment], calls: u64) -> usize
    ensures end { IsEnd moments.now calls result }
    ensures within { result ≤ length moments.now }
{
    match behind(moments, calls) {
        Some(end) if calls_in(&moments[end..]) > 0 => end,
        _ => moments.len(),
    }
}

/// The part of moments from the call of a number on, the first of which is 1, with so many calls at most: what stands behind the call
/// before it comes first, and what follows the last call of all comes last. There is none where there are fewer calls, or where it is to
/// have none.
#[tactic(auto, using(crate::proofs::Counting::too_few))]
pub fn part_of<'a>(moments: &'a [Moment], from: u64, calls: u64) -> Option<Part<'a>>
    ensures some { IfSome result (λ part. IsPart moments.now from calls part.before part.moments.now) }
    ensures none { IfNone result (IsNoPart moments.now from calls) }
{
    if from == 0 || calls == 0 {
        return None;
    }
    let before = behind(moments, from - 1)?;
    let rest = &moments[before..];
    if calls_in(rest) == 0 {
        return None;
    }
    let end = before + end_of(rest, calls);
    Some(Part {
        moments: &moments[..end],
        before,
    })
}
