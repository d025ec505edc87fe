//! What stands beside moments: their numbers, or their times, and the pauses between them.

ghost use Rattle.std.specs.Prelude.{◌≡◌, [], IfOk, string_bytes, decimal};

use crate::moment::{Moment, When};
use crate::times::duration;
use std::alloc::{AllocError, Global};

/// A pause is so many times as long as what lies between two times in the middle of all, at least.
const PAUSE: u64 = 20;

/// And it is one of so many parts of all the time, at least.
const PARTS: u64 = 20;

/// What stands beside moments, which are taken in their order.
#[derive(Drop)]
pub struct Axis {
    alloc: Global,
    /// What is longer is a pause; 0 where there is none.
    pause: u64,
    /// The last time by the clock that all share, and the one behind the last pause.
    last: Option<u64>,
    base: u64,
    /// What was said last.
    said: String,
}

/// The time of a moment by the clock that all share.
fn shared(moment: &Moment) -> Option<u64> {
    match moment.when {
        When::Shared(at) => Some(at),
        _ => None,
    }
}

/// How long it is from each time to the next later one.
fn steps(alloc: Global, moments: &[Moment]) -> Result<Vec<u64>, AllocError> {
    let mut steps = Vec::new(alloc);
    let mut last = None;
    for moment in moments {
        if let Some(at) = shared(moment) {
            let before = last.unwrap_or(at);
            if before < at {
                steps.push(at.saturating_sub(before))?;
            }
            last = Some(at.max(before));
        }
    }
    Ok(steps)
}

/// What is longer is a pause: 0 where there is none.
fn pause_of(alloc: Global, moments: &[Moment]) -> Result<u64, AllocError> {
    let mut steps = steps(alloc, moments)?;
    steps.sort()?;
    let mut all = 0u64;
    for step in &steps {
        all = all.saturating_add(*step);
    }
    Ok(match steps.get(steps.len() / 2) {
        Some(middle) => middle.saturating_mul(PAUSE).max(all / PARTS),
        None => 0,
    })
}

/// Whether moments have times.
pub fn are_timed(moments: &[Moment]) -> bool {
    moments.iter().any(|moment| moment.when != When::Number)
}

/// From the first time to the last, where moments have times.
pub fn span(moments: &[Moment]) -> Option<u64> {
    let mut last = None;
    for moment in moments {
        if let When::Shared(at) | When::Own(at) = moment.when {
            last = Some(at.max(last.unwrap_or(0)));
        }
    }
    last
}

impl Axis {
    /// None of these moments was taken yet.
    ///
    /// # Errors
    ///
    /// Want of memory alone.
    pub fn of(alloc: Global, moments: &[Moment]) -> Result<Axis, AllocError> {
        Ok(Axis {
            alloc,
            pause: pause_of(alloc, moments)?,
            last: None,
            base: 0,
            said: String::new(alloc),
        })
    }

    /// How long nothing happened before this moment, in nanoseconds, where that is a pause: it comes next.
    pub fn pause_before(&mut self, moment: &Moment) -> Option<u64> {
        let at = shared(moment)?;
        let last = self.last.unwrap_or(at);
        self.last = Some(at.max(last));
        let step = at.saturating_sub(last);
        if step <= self.pause || self.pause == 0 {
            return None;
        }
        self.base = at;
        Some(step)
    }

    /// The words of a time: since the first moment, or since the last pause.
    fn words(&self, at: u64) -> Result<String, AllocError> {
        if at == 0 {
            return format!(in self.alloc; "0");
        }
        if at <= self.base || self.base == 0 {
            return duration(self.alloc, at);
        }
        let since = duration(self.alloc, at.saturating_sub(self.base))?;
        format!(in self.alloc; "+{since}")
    }

    /// What stands beside a moment, which comes next: its number, or its time, where that is another than the last one.
    ///
    /// # Errors
    ///
    /// Want of memory alone.
    pub fn label(&mut self, moment: &Moment) -> Result<String, AllocError>
        ensures number { moment.now.when ≡ When.Number → IfOk result (λ words. string_bytes words ≡ decimal moment.now.number) }
        ensures unknown { moment.now.when ≡ When.Unknown → IfOk result (λ words. string_bytes words ≡ []) }
    {
        let number = moment.number;
        let words = match moment.when {
            When::Number => return format!(in self.alloc; "{number}"),
            When::Unknown => return Ok(String::new(self.alloc)),
            When::Shared(at) | When::Own(at) => self.words(at)?,
        };
        if words.as_str() == self.said.as_str() {
            return Ok(String::new(self.alloc));
        }
        self.said = words.clone()?;
        Ok(words)
    }
}
