//! The order of the recorded calls of a store.

use crate::graph::Graph;
use crate::precedence::Precedence;
use crate::times::{Time, link_times, times_asked};
use std::alloc::{AllocError, Global};
use std::fmt;
use txn_audit_effects::boundaries::Boundaries;
use txn_audit_effects::calls::Asked;
use txn_audit_effects::clock::Clock;
use txn_audit_effects::effects::{Effects, effects_of};
use txn_audit_effects::landings::{Fate, fate_of};
use txn_audit_effects::lives::Lives;
use txn_audit_recordings::row::RecordedRow;
use txn_store::request::{Reply, Request};
use txn_store::store::Token;

/// A recorded call: which recording has it, and which row of that asks. Both are counted from 0.
#[derive(Clone, Copy, Debug, PartialEq, Eq)]
pub struct CallPlace {
    pub recording: usize,
    pub row: usize,
}

/// One call in the order.
#[derive(Drop)]
pub struct Placed {
    pub call: CallPlace,
    /// What the store replied where nobody saw a reply, and the call took effect all the same.
    pub landed: Option<Reply>,
}

/// Why a call came before another.
#[derive(Clone, Copy, Debug, PartialEq, Eq)]
pub enum Reason {
    /// Replies show it: one saw what the other did, or did not see it yet.
    Replies,
    /// It had its reply before the other was asked, as each call of a client had before its next one.
    Times,
}

impl fmt::Display for Reason {
    fn fmt<W: fmt::Write>(&self, f: &mut fmt::Formatter<W>) -> fmt::Result {
        match self {
            Reason::Replies => write!(f, "by replies"),
            Reason::Times => write!(f, "by time"),
        }
    }
}

/// A call of a circle, and why it came before the next one.
#[derive(Clone, Copy, Debug, PartialEq, Eq)]
pub struct Link {
    pub call: CallPlace,
    pub reason: Reason,
}

/// Why there is no order.
#[derive(Debug, Drop)]
pub enum OrderFault {
    /// These calls wait for each other: each came before the one behind it, and the last before the first.
    Circle(Vec<Link>),
    /// A growth was refused.
    NoMemory,
}

impl From<AllocError> for OrderFault {
    fn from(_e: AllocError) -> OrderFault {
        OrderFault::NoMemory
    }
}

/// How many nodes are sorted at most, those that are sorted once more counted again.
const MOST_SORTED: usize = 100_000_000;

/// How often so many nodes are sorted at most: twice at least.
fn most_turns(nodes: usize) -> usize {
    (MOST_SORTED / nodes.saturating_add(1)).saturating_add(2)
}

/// The keys by which calls come first that could come next: when they were asked. Times come at once.
fn keys(alloc: Global, calls: &[Asked<'_>], times: usize) -> Result<Vec<u64>, AllocError> {
    let mut keys = Vec::new(alloc);
    for call in calls {
        keys.push(call.from)?;
    }
    for _ in 0..times {
        keys.push(0)?;
    }
    Ok(keys)
}

/// The last call came before the next one by their times.
fn by_times(links: &mut Vec<Link>) {
    if let Some(link) = links.last_mut() {
        link.reason = Reason::Times;
    }
}

/// Whether the last call is of a recording, whose calls follow one another.
fn is_last_of(links: &Vec<Link>, recording: usize) -> bool {
    match links.last() {
        Some(link) => link.call.recording == recording,
        None => false,
    }
}

/// Adds a call behind the last one.
fn add_link(links: &mut Vec<Link>, call: &Asked<'_>) -> Result<(), AllocError> {
    let Asked { recording, row, .. } = *call;
    if is_last_of(links, recording) {
        by_times(links);
    }
    links.push(Link {
        call: CallPlace { recording, row },
        reason: Reason::Replies,
    })?;
    Ok(())
}

/// The calls of these nodes, each before the next one: by their times where a time stands between them or both are of one
/// recording, else by replies.
fn links_of(alloc: Global, nodes: &[usize], calls: &[Asked<'_>]) -> Result<Vec<Link>, AllocError> {
    let mut links = Vec::new(alloc);
    for node in nodes {
        match calls.get(*node) {
            Some(call) => add_link(&mut links, call)?,
            None => by_times(&mut links),
        }
    }
    Ok(links)
}

/// Whether the last of these calls came before the first by their times: a time stands before that, or both are of one recording.
fn turns_by_times(nodes: &[usize], calls: &[Asked<'_>], links: &Vec<Link>) -> bool {
    let Some(first) = nodes.first() else {
        return false;
    };
    match calls.get(*first) {
        Some(call) => links.len() > 1 && is_last_of(links, call.recording),
        None => true,
    }
}

/// The first of these circles.
fn fault_of(
    alloc: Global,
    circles: &[Vec<usize>],
    calls: &[Asked<'_>],
) -> Result<OrderFault, AllocError> {
    match circles.first() {
        Some(nodes) => circle(alloc, nodes.as_slice(), calls),
        None => circle(alloc, &[], calls),
    }
}

/// The calls of a circle of these nodes.
fn circle(alloc: Global, nodes: &[usize], calls: &[Asked<'_>]) -> Result<OrderFault, AllocError> {
    let mut links = links_of(alloc, nodes, calls)?;
    if turns_by_times(nodes, calls, &links) {
        by_times(&mut links);
    }
    Ok(OrderFault::Circle(links))
}

/// The greatest token that any reply told.
fn greatest_token(lives: &Lives, boundaries: &Boundaries) -> u64 {
    let mut greatest = 0u64;
    for (_, token) in lives.of_token.keys() {
        greatest = greatest.max(*token);
    }
    for token in boundaries.of_token.keys() {
        greatest = greatest.max(*token);
    }
    greatest
}

/// What the store replied to a call that landed, and the greatest token then.
fn landing(request: &Request, token: Option<u64>, greatest: u64) -> (Reply, u64) {
    match (request, token) {
        (Request::Put { .. }, Some(token)) => (Reply::Put(Ok(Token::new(token))), greatest),
        (Request::Put { .. }, None) => {
            let fresh = greatest.saturating_add(1);
            (Reply::Put(Ok(Token::new(fresh))), fresh)
        }
        _ => (Reply::Delete(Ok(())), greatest),
    }
}

/// The place of a call in the order, where it has one, and the greatest token then.
fn place_of(effects: &Effects<'_>, node: usize, greatest: u64) -> (Option<Placed>, u64) {
    let Some(asked) = effects.calls.get(node) else {
        return (None, greatest);
    };
    let call = CallPlace {
        recording: asked.recording,
        row: asked.row,
    };
    match fate_of(effects.fates.as_slice(), node) {
        Fate::Answered => (Some(Placed { call, landed: None }), greatest),
        Fate::Unknown => (None, greatest),
        Fate::Landed(token) => {
            let (reply, now) = landing(asked.request, token, greatest);
            let landed = Some(reply);
            (Some(Placed { call, landed }), now)
        }
    }
}

/// Adds the calls that have a place, in the order of their nodes.
fn add_in_order(
    effects: &Effects<'_>,
    nodes: &[usize],
    order: &mut Vec<Placed>,
) -> Result<(), AllocError> {
    let mut greatest = greatest_token(&effects.lives, &effects.boundaries);
    for node in nodes {
        let (placed, now) = place_of(effects, *node, greatest);
        greatest = now;
        if let Some(placed) = placed {
            order.push(placed)?;
        }
    }
    Ok(())
}

/// The calls that have a place, in the order of their nodes.
fn in_order(
    alloc: Global,
    effects: &Effects<'_>,
    nodes: &[usize],
) -> Result<Vec<Placed>, AllocError> {
    let mut order = Vec::new(alloc);
    add_in_order(effects, nodes, &mut order)?;
    Ok(order)
}

/// What edges are made of.
fn precedence_of<'x>(effects: &'x Effects<'_>) -> Precedence<'x> {
    Precedence {
        calls: effects.calls.as_slice(),
        fates: effects.fates.as_slice(),
        lives: &effects.lives,
        boundaries: &effects.boundaries,
    }
}

/// Notes what came before what, by the replies and by these times, which are nodes behind the calls.
fn add_edges(
    alloc: Global,
    effects: &Effects<'_>,
    times: &[Time],
    graph: &mut Graph,
) -> Result<(), AllocError> {
    precedence_of(effects).link(alloc, graph, effects.idle.as_slice())?;
    link_times(
        graph,
        effects.calls.as_slice(),
        effects.fates.as_slice(),
        times,
    )
}

/// Makes a choice otherwise in each circle that has one which can be: whether one has.
fn open(
    effects: &Effects<'_>,
    graph: &mut Graph,
    circles: &[Vec<usize>],
) -> Result<bool, AllocError> {
    let precedence = precedence_of(effects);
    let mut is_open = false;
    for nodes in circles {
        if precedence.open(graph, nodes.as_slice())? {
            is_open = true;
        }
    }
    Ok(is_open)
}

/// The nodes of calls and of times in an order, where none waits for itself. Where some do, choices are made otherwise in their circles.
fn sorted(
    alloc: Global,
    effects: &Effects<'_>,
    times: usize,
    graph: &mut Graph,
) -> Result<Vec<usize>, OrderFault> {
    let calls = effects.calls.as_slice();
    let keys = keys(alloc, calls, times)?;
    let mut nodes = graph.sort(alloc, keys.as_slice())?;
    for turn in 0..most_turns(keys.len()) {
        if nodes.len() == keys.len() {
            return Ok(nodes);
        }
        let circles = graph.circles(alloc)?;
        let is_last = turn.saturating_add(1) == most_turns(keys.len());
        if is_last || !open(effects, graph, circles.as_slice())? {
            return Err(fault_of(alloc, circles.as_slice(), calls)?);
        }
        nodes = graph.sort(alloc, keys.as_slice())?;
    }
    Ok(nodes)
}

/// An order of calls of which this became, whose times are these.
fn ordered_at(
    alloc: Global,
    effects: &Effects<'_>,
    times: &[Time],
) -> Result<Vec<Placed>, OrderFault> {
    let nodes = effects.calls.len().saturating_add(times.len());
    let mut graph = Graph::new(alloc, nodes)?;
    add_edges(alloc, effects, times, &mut graph)?;
    let nodes = sorted(alloc, effects, times.len(), &mut graph)?;
    Ok(in_order(alloc, effects, nodes.as_slice())?)
}

/// An order of calls of which this became.
fn ordered(alloc: Global, effects: &Effects<'_>) -> Result<Vec<Placed>, OrderFault> {
    let times = times_asked(alloc, effects.calls.as_slice(), effects.fates.as_slice())?;
    ordered_at(alloc, effects, times.as_slice())
}

/// An order of the calls in these recordings, each a list of rows, by what the replies show and by the times, which are of these
/// clocks, one for each recording; one that has none here is of the clock of all. A call whose reply nobody saw has a place where
/// a reply shows that it took effect, and none elsewhere. It takes time by the number of calls and what they tell, and as much again
/// for each time that choices are made otherwise; a listing is held against the versions that may have stood meanwhile.
///
/// # Errors
///
/// `Circle` where calls wait for each other, and no choice that lies in their circle can be made otherwise, or as much was sorted as
/// is at most: of each, why it came before the next one. `NoMemory` where a growth was refused.
pub fn order<T>(
    alloc: Global,
    recordings: &[Vec<RecordedRow<T>>],
    clocks: &[Clock],
) -> Result<Vec<Placed>, OrderFault> {
    let effects = effects_of(alloc, recordings, clocks)?;
    ordered(alloc, &effects)
}
