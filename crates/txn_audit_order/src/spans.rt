//! Where a call may stand among the lives of a version, by the times between which it took effect.

use crate::graph::Graph;
use crate::precedence::Precedence;
use std::alloc::AllocError;
use txn_audit_effects::calls::Asked;
use txn_audit_effects::lives::Life;

/// The times between which a call took effect.
#[derive(Clone, Copy)]
pub(crate) struct Span {
    pub from: u64,
    pub until: u64,
}

impl Span {
    /// Those of a call: from when it was asked until its reply was there.
    pub fn of(call: &Asked<'_>) -> Span {
        Span {
            from: call.from,
            until: call.until,
        }
    }
}

/// Where a call stands among the lives of a version, of the places that its times leave it.
#[derive(Clone, Copy)]
pub(crate) struct Choice {
    /// The node of the call, and the times between which it took effect.
    pub at: usize,
    pub span: Span,
    pub id: u64,
    /// Whether it met the version, and so stands in a life; else it did not, and stands in a gap.
    pub is_met: bool,
    /// The place of that life, or of the one that follows the gap.
    pub place: usize,
}

/// A gap among the lives of a version: behind one that a call removed, or before the first, and before the next, where there is one.
#[derive(Clone, Copy)]
pub(crate) struct Gap {
    pub removed: Option<Life>,
    pub next: Option<Life>,
}

impl Gap {
    /// Whether a call may stand in it.
    fn may_hold(&self, span: Span) -> bool {
        let late = match self.removed {
            Some(life) => life.removed_from <= span.until,
            None => true,
        };
        let early = match self.next {
            Some(life) => span.from <= life.until,
            None => true,
        };
        late && early
    }

    /// The part of a call's times that lies in it.
    pub fn narrowed(&self, span: Span) -> Span {
        let from = match self.removed {
            Some(life) => life.removed_from,
            None => 0,
        };
        let until = match self.next {
            Some(life) => life.until,
            None => u64::MAX,
        };
        Span {
            from: span.from.max(from),
            until: span.until.min(until),
        }
    }
}

/// The gaps of a version in which a call may stand that did not see it.
#[derive(Clone, Copy)]
pub(crate) struct Gaps {
    /// The place of the life that follows the first that its times leave it, or of the end.
    pub first: Option<usize>,
    /// Whether they leave it another.
    pub are_more: bool,
}

impl Precedence<'_> {
    /// The gap before the life at a place, or behind the last life of a version, where there is one: behind a life that a call removed, or
    /// before the first.
    pub(crate) fn gap(&self, next: usize, id: u64) -> Option<Gap> {
        let removed = match next.checked_sub(1) {
            Some(before) => self.lives.at(before, id),
            None => None,
        };
        if let Some(life) = removed {
            life.removed_by?;
        }
        let next = self.lives.at(next, id);
        Some(Gap { removed, next })
    }

    /// The first gap of a version from a place on in which a call may stand by its times.
    fn gap_from(&self, span: Span, id: u64, from: usize) -> Option<usize> {
        let (_, end) = self.lives.of(id);
        for next in from..end.saturating_add(1) {
            if self.gap(next, id).is_some_and(|gap| gap.may_hold(span)) {
                return Some(next);
            }
        }
        None
    }

    /// The first life of a version from a place on in which a call may stand by its times.
    fn life_from(&self, span: Span, id: u64, from: usize) -> Option<usize> {
        let (_, end) = self.lives.of(id);
        for place in from..end {
            let life = self.lives.at(place, id);
            if life.is_some_and(|life| life.may_stand(span.from, span.until)) {
                return Some(place);
            }
        }
        None
    }

    /// The gaps in which a call may stand that did not see a version, which was made before where that is known.
    pub(crate) fn gaps(&self, span: Span, id: u64, made: bool) -> Gaps {
        let (start, end) = self.lives.of(id);
        if start == end {
            return Gaps {
                first: None,
                are_more: false,
            };
        }
        let from = if made { start.saturating_add(1) } else { start };
        let first = self.gap_from(span, id, from);
        let are_more = match first {
            Some(next) => self.gap_from(span, id, next.saturating_add(1)).is_some(),
            None => false,
        };
        Gaps { first, are_more }
    }

    /// A call stands in a gap: behind the removal of the life before that, and before the making of the next by this choice.
    fn stand_in_gap(&self, graph: &mut Graph, choice: Choice) -> Result<(), AllocError> {
        let Some(gap) = self.gap(choice.place, choice.id) else {
            return Ok(());
        };
        if let Some(life) = gap.removed {
            graph.edge(life.removed_by, Some(choice.at))?;
        }
        match gap.next {
            Some(life) => graph.choose(choice.at, life.made_by, choice),
            None => Ok(()),
        }
    }

    /// A call stands in a life: behind its making, and before its removal by this choice.
    fn stand_in_life(&self, graph: &mut Graph, choice: Choice) -> Result<(), AllocError> {
        let Some(life) = self.lives.at(choice.place, choice.id) else {
            return Ok(());
        };
        graph.edge(Some(life.made_by), Some(choice.at))?;
        match life.removed_by {
            Some(removed) => graph.choose(choice.at, removed, choice),
            None => Ok(()),
        }
    }

    /// A call did not see a version, which was made before where that is known: it stands before the first making, or between
    /// a removal and the next making.
    pub(crate) fn absent(
        &self,
        graph: &mut Graph,
        at: usize,
        span: Span,
        id: u64,
        made: bool,
    ) -> Result<(), AllocError> {
        let (start, _) = self.lives.of(id);
        let choice = Choice {
            at,
            span,
            id,
            is_met: false,
            place: self.gaps(span, id, made).first.unwrap_or(start),
        };
        self.stand_in_gap(graph, choice)
    }

    /// A call saw that a version was there: in the first life that its times leave it.
    pub(crate) fn present(
        &self,
        graph: &mut Graph,
        at: usize,
        span: Span,
        id: u64,
    ) -> Result<(), AllocError> {
        let (start, _) = self.lives.of(id);
        let choice = Choice {
            at,
            span,
            id,
            is_met: true,
            place: self.life_from(span, id, start).unwrap_or(start),
        };
        self.stand_in_life(graph, choice)
    }

    /// A call that stands before a node by a choice stands in the next gap or life that its times leave it, where there is one: whether
    /// there is.
    fn go_on(&self, graph: &mut Graph, before: usize, choice: Choice) -> Result<bool, AllocError> {
        let Choice { span, id, .. } = choice;
        let from = choice.place.saturating_add(1);
        let next = if choice.is_met {
            self.life_from(span, id, from)
        } else {
            self.gap_from(span, id, from)
        };
        let Some(place) = next else {
            return Ok(false);
        };
        graph.cut(choice.at, before);
        let choice = Choice { place, ..choice };
        if choice.is_met {
            self.stand_in_life(graph, choice)?;
        } else {
            self.stand_in_gap(graph, choice)?;
        }
        Ok(true)
    }

    /// Opens a circle of nodes, each before the next one and the last before the first, at the first choice in it that can go on: whether
    /// there is one.
    ///
    /// # Errors
    ///
    /// Want of memory alone. The graph may lack an edge then.
    pub(crate) fn open(&self, graph: &mut Graph, circle: &[usize]) -> Result<bool, AllocError> {
        let Some(mut from) = circle.last().copied() else {
            return Ok(false);
        };
        for node in circle {
            if let Some(choice) = graph.choice(from, *node) {
                if self.go_on(graph, *node, choice)? {
                    return Ok(true);
                }
            }
            from = *node;
        }
        Ok(false)
    }
}
