//! Who wrote which boundary.

use crate::calls::{Asked, Name, name_of};
use crate::landings::{Fate, has_place, land};
use std::alloc::{AllocError, Global};
use std::collections::{BTreeMap, HashMap};
use txn_store::request::{Reply, Request};
use txn_store::store::{PutMode, StoreError, Token};
use txn_store::types::boundary::read_boundary;

/// The boundaries that were written, each with the call that wrote it, and the boundary that each token is of.
pub struct Boundaries {
    pub writers: BTreeMap<u64, usize>,
    pub of_token: HashMap<u64, u64>,
}

impl Drop for Boundaries {
    /// Drops both: here, so that no function that owns them, and no crate above, has to prove how each is dropped.
    fn drop(self) {
        let Boundaries {
            writers: _,
            of_token: _,
        } = self;
    }
}

/// The token and the boundary that a get of the boundary file found.
fn found(call: &Asked<'_>) -> Option<(u64, u64)> {
    match (call.request, call.reply) {
        (Request::Get { path, .. }, Some(Reply::Get(Ok(got)))) => match name_of(path) {
            Name::Boundary => Some((got.token.number(), read_boundary(got.bytes.as_slice())?)),
            Name::Version(_) => None,
        },
        _ => None,
    }
}

/// The token over whose put a call writes the boundary file.
fn expected(call: &Asked<'_>) -> Option<Token> {
    match call.request {
        Request::Put {
            mode: PutMode::Update(token),
            ..
        } => Some(*token),
        _ => None,
    }
}

/// Whether a call creates the boundary file.
fn creates(call: &Asked<'_>) -> bool {
    call.raises().is_some() && expected(call).is_none()
}

/// Whether a put was refused with this error.
pub(crate) fn was_refused(call: &Asked<'_>, error: StoreError) -> bool {
    match call.reply {
        Some(Reply::Put(Err(why))) => *why == error,
        _ => false,
    }
}

/// Whether a call of this rank, asked then, is rather the one than another: it has the greater rank, or was asked first.
fn is_rather(rank: u64, from: u64, than: u64, than_from: u64) -> bool {
    rank > than || rank == than && from < than_from
}

/// Of the calls that have a rank and of which nobody knows whether they took effect, the one of the greatest rank, and of those
/// the one asked first.
fn loose<F: Fn(&Asked<'_>) -> Option<u64>>(
    calls: &[Asked<'_>],
    fates: &[Fate],
    rank_of: &F,
) -> Option<usize>
    requires { F.IsAlwaysCallable rank_of.now }
{
    let mut best: Option<(u64, u64, usize)> = None;
    for place in 0..calls.len() {
        if !has_place(fates, place) {
            let from = calls[place].from;
            if let Some(rank) = rank_of(&calls[place]) {
                if best.is_none_or(|(than, than_from, _)| is_rather(rank, from, than, than_from)) {
                    best = Some((rank, from, place));
                }
            }
        }
    }
    best.map(|(_, _, place)| place)
}

impl Boundaries {
    /// No boundaries.
    fn none(alloc: Global) -> Boundaries {
        Boundaries {
            writers: BTreeMap::new(alloc),
            of_token: HashMap::new(alloc),
        }
    }

    /// Notes what the replies of one call say.
    fn note(&mut self, place: usize, call: &Asked<'_>) -> Result<(), AllocError> {
        if let (Some(number), Some(token)) = (call.raises(), call.given()) {
            self.writers.insert(number, place)?;
            self.of_token.insert(token, number)?;
        }
        if let Some((token, number)) = found(call) {
            self.of_token.insert(token, number)?;
        }
        Ok(())
    }

    /// Has a loose call write a boundary that nobody else wrote.
    fn land(
        &mut self,
        fates: &mut Vec<Fate>,
        place: Option<usize>,
        number: u64,
        token: Option<u64>,
    ) -> Result<(), AllocError> {
        if let Some(place) = place {
            land(fates, place, token);
            self.writers.insert(number, place)?;
        }
        Ok(())
    }

    /// The boundary over which a call writes its own, 0 where it creates the file or nobody knows it.
    fn base_of(&self, call: &Asked<'_>) -> u64 {
        match expected(call) {
            Some(token) => self.of_token.get(&token.number()).copied().unwrap_or(0),
            None => 0,
        }
    }

    /// A boundary that was read, and that no call was told to have written, a loose one wrote: of several the one over the
    /// greatest boundary, since that stood last before.
    fn land_read(
        &mut self,
        calls: &[Asked<'_>],
        fates: &mut Vec<Fate>,
        call: &Asked<'_>,
    ) -> Result<(), AllocError> {
        let Some((token, number)) = found(call) else {
            return Ok(());
        };
        if self.writers.contains_key(&number) {
            return Ok(());
        }
        let place = loose(
            calls,
            fates.as_slice(),
            &|call| if call.raises() == Some(number) {
                Some(self.base_of(call))
            } else {
                None
            },
        );
        self.land(fates, place, number, Some(token))
    }

    /// Whether a boundary above this was written.
    fn has_above(&self, number: u64) -> bool {
        match self.writers.last_key_value() {
            Some((last, _)) => number < *last,
            None => false,
        }
    }

    /// What a refusal shows, and no call was told to have done, a loose one did.
    fn land_refused(
        &mut self,
        calls: &[Asked<'_>],
        fates: &mut Vec<Fate>,
        call: &Asked<'_>,
    ) -> Result<(), AllocError> {
        let place = if creates(call) && was_refused(call, StoreError::AlreadyExists) {
            if !self.writers.is_empty() {
                return Ok(());
            }
            loose(calls, fates.as_slice(), &|call| creates(call).then_some(0))
        } else if was_refused(call, StoreError::Precondition) {
            let Some(token) = expected(call) else {
                return Ok(());
            };
            let number = self.of_token.get(&token.number()).copied().unwrap_or(0);
            if self.has_above(number) {
                return Ok(());
            }
            loose(
                calls,
                fates.as_slice(),
                &|call| (expected(call) == Some(token)).then_some(0),
            )
        } else {
            return Ok(());
        };
        let Some(at) = place else {
            return Ok(());
        };
        let number = match calls.get(at) {
            Some(call) => call.raises().unwrap_or(0),
            None => 0,
        };
        self.land(fates, place, number, None)
    }

    /// Notes what all calls show.
    fn find(&mut self, calls: &[Asked<'_>], fates: &mut Vec<Fate>) -> Result<(), AllocError> {
        for place in 0..calls.len() {
            self.note(place, &calls[place])?;
        }
        for call in calls {
            self.land_read(calls, fates, call)?;
        }
        for call in calls {
            self.land_refused(calls, fates, call)?;
        }
        Ok(())
    }
}

/// Who wrote which boundary.
pub(crate) fn written(
    alloc: Global,
    calls: &[Asked<'_>],
    fates: &mut Vec<Fate>,
) -> Result<Boundaries, AllocError> {
    let mut boundaries = Boundaries::none(alloc);
    boundaries.find(calls, fates)?;
    Ok(boundaries)
}
