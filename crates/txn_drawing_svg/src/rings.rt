//! The rings of calls that an audit refuses, and the arrows between the calls of a circle.

use crate::legend::{BY_REPLIES, BY_TIME, CIRCLE, RINGED};
use crate::places::Places;
use crate::shapes::{At, Box, across, begin_group, circle, end_group, rectangle, text};
use crate::xml::Xml;
use std::alloc::{AllocError, Global};
use txn_drawing_moments::moment::{Edge, Ring};

/// A call of a circle: the number of its ring, how high it stands, and what it came before.
#[derive(Clone, Copy)]
struct Placed {
    number: u64,
    y: u64,
    edge: Edge,
}

/// Where a ringed call stands in its row: its bar, where its words end, and what it reached in the store.
#[derive(Clone, Copy)]
pub struct Ringed {
    pub bar: At,
    pub from: u64,
    pub target: Option<u64>,
}

/// The rings so far, and which of them are of a circle.
#[derive(Drop)]
pub struct Rings {
    alloc: Global,
    circle: Vec<Placed>,
    /// Which marks there are, as bits.
    pub used: u64,
    pub drawn: Xml,
}

/// Up to here the arrow between two calls of a circle comes from the side.
const NEAR: u64 = 40;

/// So far on: back where it leads up, else forth.
fn on(from: u64, by: u64, is_up: bool) -> u64 {
    if is_up {
        return from.saturating_sub(by);
    }
    from.saturating_add(by)
}

impl Rings {
    /// There is none.
    pub fn new(alloc: Global) -> Rings {
        Rings {
            alloc,
            circle: Vec::new(alloc),
            used: 0,
            drawn: Xml::new(alloc),
        }
    }

    /// Draws the number of a ring.
    fn number(&mut self, number: u64, at: At) -> Result<(), AllocError> {
        let words = format!(in self.alloc; "{number}")?;
        circle(self.alloc, &mut self.drawn, "no", at, 80)?;
        let below = At {
            x: at.x,
            y: at.y.saturating_add(4),
        };
        text(self.alloc, &mut self.drawn, "v on", below, words.as_str())
    }

    /// Draws that a call of a circle leads to its number in the lane of the circle, at this place, and from there to what it reached.
    fn lead(&mut self, ringed: Ringed, x: u64) -> Result<(), AllocError> {
        let y = ringed.bar.y;
        let from = ringed.from.max(ringed.bar.x.saturating_add(10));
        across(self.alloc, &mut self.drawn, "ns w15", from, x, y)?;
        match ringed.target {
            Some(target) => across(
                self.alloc,
                &mut self.drawn,
                "ns w15",
                x.saturating_add(8),
                target.saturating_sub(11),
                y,
            ),
            None => Ok(()),
        }
    }

    /// Draws the ring of a call, with its number: in the lane of the circle, where there is one, else at the ring.
    ///
    /// # Errors
    ///
    /// Want of memory alone. A part of what it draws may stand then.
    pub fn add(&mut self, places: &Places, ring: Ring, ringed: Ringed) -> Result<(), AllocError> {
        let At { x, y } = ringed.bar;
        let area = Box {
            x: x.saturating_sub(9),
            y: y.saturating_sub(9),
            width: 18,
            height: 18,
        };
        rectangle(self.alloc, &mut self.drawn, "o ns w2", area, 8)?;
        if let Some(target) = ringed.target {
            circle(
                self.alloc,
                &mut self.drawn,
                "o ns w2",
                At { x: target, y },
                110,
            )?;
        }
        let number = ring.number;
        match (places.circle, ring.before) {
            (Some(x), Some(edge)) => {
                self.used |= CIRCLE;
                self.lead(ringed, x)?;
                self.circle.push(Placed { number, y, edge })?;
                self.number(number, At { x, y })
            }
            _ => {
                self.used |= RINGED;
                let corner = At {
                    x: x.saturating_sub(9),
                    y: y.saturating_sub(9),
                };
                self.number(number, corner)
            }
        }
    }

    /// How high the call of a circle stands whose ring has this number.
    fn height_of(&self, number: u64) -> Option<u64> {
        for placed in &self.circle {
            if placed.number == number {
                return Some(placed.y);
            }
        }
        None
    }

    /// Draws a curve with the point of an arrow.
    fn curve(
        &mut self,
        class: &str,
        from: At,
        side: At,
        to: At,
        tip: At,
        point: &str,
    ) -> Result<(), AllocError> {
        let (x, y) = (from.x, from.y);
        let (aside, middle) = (side.x, side.y);
        let (right, below) = (to.x, to.y);
        let (tip_x, tip_y) = (tip.x, tip.y);
        let drawn = format!(in self.alloc;
            "<path class='ns {class}' d='M{x} {y}Q{aside} {middle} {right} {below}'/><path class='no' d='M{tip_x} {tip_y}{point}'/>\n"
        )?;
        self.drawn.push_markup(drawn.as_str())
    }

    /// Draws an arrow in the lane of the circle, which stands here, from one height to another: down on the right of what lies between,
    /// up on its left.
    fn arrow(&mut self, x: u64, from: u64, to: u64, class: &str) -> Result<(), AllocError> {
        let is_up = to < from;
        let side = At {
            x: on(x, 30, is_up),
            y: from.midpoint(to),
        };
        if from.abs_diff(to) <= NEAR {
            let begin = At {
                x: on(x, 8, is_up),
                y: from,
            };
            let end = At {
                x: on(x, 16, is_up),
                y: to,
            };
            let tip = At {
                x: on(x, 8, is_up),
                y: to,
            };
            let point = if is_up { "l-10 -4v8z" } else { "l10 -4v8z" };
            return self.curve(class, begin, side, end, tip, point);
        }
        let x = on(x, 9, is_up);
        let begin = At {
            x,
            y: on(from, 6, is_up),
        };
        let end = At {
            x,
            y: on(to, 18, !is_up),
        };
        let tip = At {
            x,
            y: on(to, 8, !is_up),
        };
        let point = if is_up { "l-4 10h8z" } else { "l-4 -10h8z" };
        self.curve(class, begin, side, end, tip, point)
    }

    /// Draws that a call of a circle came before another.
    fn draw(&mut self, x: u64, placed: Placed) -> Result<(), AllocError> {
        let Some(to) = self.height_of(placed.edge.to) else {
            return Ok(());
        };
        let (class, why, mark) = if placed.edge.is_by_time {
            ("w15 dash", "by time", BY_TIME)
        } else {
            ("w2", "by replies", BY_REPLIES)
        };
        self.used |= mark;
        let (number, next) = (placed.number, placed.edge.to);
        let tip = format!(in self.alloc; "{number} came before {next}, {why}")?;
        begin_group(&mut self.drawn, tip.as_str())?;
        self.arrow(x, placed.y, to, class)?;
        end_group(&mut self.drawn)
    }

    /// Draws an arrow from each call of a circle to the one that it came before.
    ///
    /// # Errors
    ///
    /// Want of memory alone. A part of what it draws may stand then.
    pub fn finish(&mut self, places: &Places) -> Result<(), AllocError> {
        let Some(x) = places.circle else {
            return Ok(());
        };
        for place in 0..self.circle.len() {
            if let Some(placed) = self.circle.get(place).copied() {
                self.draw(x, placed)?;
            }
        }
        Ok(())
    }

    /// Nothing that was drawn up to here stands.
    pub fn clear(&mut self) {
        self.circle.clear();
        self.used = 0;
        self.drawn.clear();
    }
}
