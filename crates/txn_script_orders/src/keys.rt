//! When two situations are equal: their keys are. Of mirror images the least key is taken.

use crate::members::Member;
use crate::question::{Question, Step};
use crate::signs::{Sign, WAITS};
use crate::situation::{Loose, Situation};
use std::alloc::{AllocError, Global};
use txn_drawing_moments::touches::asked::Asked;
use txn_script_lines::record::{Record, read_record};

/// A number below this is one byte of a key.
const SHORT: u64 = 250;

/// An order of the clients: which stands at each place.
#[derive(Drop)]
pub(crate) struct Mirror {
    pub(crate) order: Vec<usize>,
    /// At which place each client stands.
    places: Vec<u64>,
}

impl Mirror {
    /// The place of a client, from 0.
    fn place(&self, client: u64) -> u64 {
        self.places.get(client as usize).copied().unwrap_or(client)
    }

    /// The payload in the mirror image.
    fn renamed(&self, payload: u64) -> u64 {
        let client = payload / 10;
        if client == 0 || payload >= 100 {
            return payload;
        }
        let place = self.place(client - 1).min(8);
        (place + 1) * 10 + payload % 10
    }
}

/// The bytes of a key.
#[derive(Drop)]
struct Key {
    bytes: Vec<u8>,
}

impl Key {
    fn byte(&mut self, byte: u8) -> Result<(), AllocError> {
        self.bytes.push(byte)?;
        Ok(())
    }

    fn number(&mut self, number: u64) -> Result<(), AllocError> {
        if number < SHORT {
            return self.byte(number as u8);
        }
        self.byte(255)?;
        self.bytes.extend_from_slice(&number.to_le_bytes())?;
        Ok(())
    }

    fn value(&mut self, mirror: &Mirror, value: Record) -> Result<(), AllocError> {
        self.number(value.epoch)?;
        self.number(mirror.renamed(value.payload))
    }

    fn signs(&mut self, mirror: &Mirror, signs: &[Sign]) -> Result<(), AllocError> {
        for sign in signs {
            match *sign {
                Sign::Number(number) => self.number(number)?,
                Sign::Payload(payload) => self.number(mirror.renamed(payload))?,
            }
        }
        self.byte(254)
    }

    fn asked(&mut self, mirror: &Mirror, asked: &Asked) -> Result<(), AllocError> {
        match asked {
            Asked::Create { id, value } => {
                self.byte(1)?;
                self.number(*id)?;
                match read_record(value.as_slice()) {
                    Some(value) => self.value(mirror, value),
                    None => Ok(()),
                }
            }
            Asked::Raise(to) => {
                self.byte(2)?;
                self.number(*to)
            }
            Asked::Remove(id) => {
                self.byte(3)?;
                self.number(*id)
            }
            _ => self.byte(4),
        }
    }
}

/// The client at a place, where there is one.
fn member_at<'a>(
    situation: &'a Situation,
    mirror: &Mirror,
    place: usize,
) -> Option<(usize, &'a Member)> {
    let client = *mirror.order.get(place)?;
    Some((client, situation.members.get(client)?))
}

/// The history, the boundary, and how the calls of each client ended.
fn head(
    key: &mut Key,
    situation: &Situation,
    mirror: &Mirror,
    is_end: bool,
) -> Result<(), AllocError> {
    for entry in situation.entries.as_slice() {
        key.value(mirror, *entry)?;
    }
    key.byte(254)?;
    key.number(situation.boundary())?;
    for place in 0..mirror.order.len() {
        if let Some((client, member)) = member_at(situation, mirror, place) {
            key.signs(mirror, member.answers.as_slice())?;
            if is_end && member.place < situation.length(client) {
                key.number(WAITS)?;
            }
        }
    }
    key.byte(254)
}

/// Whether a request may still change something.
fn is_live(situation: &Situation, loose: &Loose) -> bool {
    if situation.left.lands == 0 {
        return false;
    }
    match &loose.asked {
        Asked::Create { id, .. } => {
            situation.question.removes()
                || (id.saturating_sub(1) as usize) >= situation.entries.len()
        }
        Asked::Raise(_) => loose.token == situation.boundary_token,
        _ => true,
    }
}

/// The key of a request, by the place of its client.
fn loose_key(alloc: Global, mirror: &Mirror, loose: &Loose) -> Result<Vec<u8>, AllocError> {
    let mut key = Key {
        bytes: Vec::new(alloc),
    };
    key.number(mirror.place(loose.client as u64))?;
    key.number(loose.place as u64)?;
    key.number(loose.life)?;
    key.asked(mirror, &loose.asked)?;
    Ok(key.bytes)
}

/// The keys of the requests that may still change something, in order.
fn loose_keys(
    alloc: Global,
    situation: &Situation,
    mirror: &Mirror,
) -> Result<Vec<Vec<u8>>, AllocError> {
    let mut keys = Vec::new(alloc);
    for loose in situation.loose.as_slice() {
        if is_live(situation, loose) {
            keys.push(loose_key(alloc, mirror, loose)?)?;
        }
    }
    keys.sort()?;
    Ok(keys)
}

/// What may still come.
fn rest(key: &mut Key, situation: &Situation) -> Result<(), AllocError> {
    let left = &situation.left;
    key.number(left.before)?;
    key.number(left.after)?;
    key.number(left.loose)?;
    key.number(left.giveups)?;
    key.number(left.lands)?;
    key.number(left.crashes)
}

/// The files that are not as their entries are.
fn files(key: &mut Key, situation: &Situation, mirror: &Mirror) -> Result<(), AllocError> {
    if !situation.question.removes() {
        return Ok(());
    }
    for file in situation.files.as_slice() {
        match file {
            None => key.byte(0)?,
            Some(value) => {
                key.byte(1)?;
                key.value(mirror, *value)?;
            }
        }
    }
    key.byte(254)
}

/// How far each client is, and what it has seen where it goes on.
fn members(key: &mut Key, situation: &Situation, mirror: &Mirror) -> Result<(), AllocError> {
    for place in 0..mirror.order.len() {
        if let Some((client, member)) = member_at(situation, mirror, place) {
            key.number(member.place as u64)?;
            key.number(member.life)?;
            if member.running.is_some() || member.place < situation.length(client) {
                key.number(member.turns)?;
                key.signs(mirror, member.seen.as_slice())?;
            }
        }
    }
    Ok(())
}

/// The key of a situation in one mirror image.
fn key_by(
    alloc: Global,
    situation: &Situation,
    mirror: &Mirror,
    is_end: bool,
) -> Result<Vec<u8>, AllocError> {
    let mut key = Key {
        bytes: Vec::new(alloc),
    };
    head(&mut key, situation, mirror, false)?;
    let loose = loose_keys(alloc, situation, mirror)?;
    if is_end && loose.is_empty() {
        return Ok(key.bytes);
    }
    rest(&mut key, situation)?;
    for one in &loose {
        key.bytes.extend_from_slice(one.as_slice())?;
    }
    key.byte(254)?;
    files(&mut key, situation, mirror)?;
    members(&mut key, situation, mirror)?;
    Ok(key.bytes)
}

/// The key of a situation: the least of those of its mirror images.
pub(crate) fn key_of(
    alloc: Global,
    situation: &Situation,
    mirrors: &[Mirror],
) -> Result<Vec<u8>, AllocError> {
    let is_end = situation.is_end();
    let mut least = Vec::new(alloc);
    for mirror in mirrors {
        let key = key_by(alloc, situation, mirror, is_end)?;
        if least.is_empty() || key.as_slice() < least.as_slice() {
            least = key;
        } else {
            drop(key);
        }
    }
    Ok(least)
}

/// What a situation in which all is at its end came to: the least key of its mirror images, and how many of these differ.
pub(crate) fn outcome_of(
    alloc: Global,
    situation: &Situation,
    mirrors: &[Mirror],
) -> Result<(Vec<u8>, u64), AllocError> {
    let mut least: Vec<u8> = Vec::new(alloc);
    let mut same = 0u64;
    for mirror in mirrors {
        let mut key = Key {
            bytes: Vec::new(alloc),
        };
        head(&mut key, situation, mirror, true)?;
        let key = key.bytes;
        if same != 0 && key.as_slice() == least.as_slice() {
            same = same.saturating_add(1);
            drop(key);
        } else if same == 0 || key.as_slice() < least.as_slice() {
            least = key;
            same = 1;
        } else {
            drop(key);
        }
    }
    let images = if same == 0 {
        1
    } else {
        mirrors.len() as u64 / same
    };
    Ok((least, images))
}

/// Whether two clients have the same calls.
fn are_alike(one: &[Step], other: &[Step]) -> bool {
    one == other
}

/// The orders of the clients that go on with this one at the next place.
fn mirror_of(alloc: Global, order: &[usize]) -> Result<Mirror, AllocError> {
    let mut kept = Vec::new(alloc);
    let mut places = Vec::new(alloc);
    for client in order {
        kept.push(*client)?;
        places.push(0u64)?;
    }
    for (place, client) in order.iter().enumerate() {
        if let Some(at) = places.get_mut(*client) {
            *at = place as u64;
        }
    }
    Ok(Mirror {
        order: kept,
        places,
    })
}

/// The order with one client more.
fn longer(alloc: Global, order: &[usize], client: usize) -> Result<Vec<usize>, AllocError> {
    let mut next = Vec::new(alloc);
    next.extend_from_slice(order)?;
    next.push(client)?;
    Ok(next)
}

/// The orders in which each place has a client with the calls of that place.
pub(crate) fn mirrors_of(alloc: Global, question: &Question) -> Result<Vec<Mirror>, AllocError> {
    let count = question.lists.len();
    let mut orders: Vec<Vec<usize>> = Vec::new(alloc);
    orders.push(Vec::new(alloc))?;
    for list in question.lists.as_slice() {
        let mut next = Vec::new(alloc);
        for order in &orders {
            for client in 0..count {
                let is_like = match question.lists.get(client) {
                    Some(other) => are_alike(list.as_slice(), other.as_slice()),
                    None => false,
                };
                if is_like && !order.contains(&client) {
                    next.push(longer(alloc, order.as_slice(), client)?)?;
                }
            }
        }
        orders = next;
    }
    let mut mirrors = Vec::new(alloc);
    for order in &orders {
        mirrors.push(mirror_of(alloc, order.as_slice())?)?;
    }
    Ok(mirrors)
}
