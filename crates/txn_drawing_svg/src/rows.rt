//! The rows of a picture, one a moment.

use crate::columns::Columns;
use crate::flights::Flights;
use crate::head::add_names;
use crate::labels::Labels;
use crate::legend::{CRASHED, FAILED, FAULT, FENCE, FLIGHT, HOLDS, PAUSE, REFUSED, SHUT_OUT};
use crate::marks::{Marks, Row, target_of};
use crate::places::Places;
use crate::plan::{Plan, is_end, is_last, is_shown, lands_last};
use crate::rings::{Ringed, Rings};
use crate::shapes::{
    At, Box, CROSS, STOP, across, begin_group, circle, colour, end_group, rectangle, shape, text,
};
use crate::versions::Versions;
use crate::xml::Xml;
use std::alloc::{AllocError, Global};
use txn_drawing_moments::axis::Axis;
use txn_drawing_moments::holds::{Hold, Holds, fence_words};
use txn_drawing_moments::moment::{Kind, Moment, Touch};
use txn_drawing_moments::times::duration;
use txn_drawing_moments::words::answer_words;

/// How high the row of a pause is.
const PAUSE_HEIGHT: u64 = 16;

/// After so many pixels the names of the columns stand once more.
const NAMES_EVERY: u64 = 900;

/// How high their row is.
const NAMES_HEIGHT: u64 = 20;

/// They stand only where more rows than these follow.
const NAMES_ABOVE: usize = 12;

/// The rows of a picture that were drawn so far, and what they leave for those that follow.
#[derive(Drop)]
pub(crate) struct Rows<'a> {
    alloc: Global,
    pub plan: &'a Plan,
    pub places: &'a Places,
    /// Where the next row begins, and where the names of the columns stood last.
    y: u64,
    named: u64,
    /// How many rows are to come.
    left: usize,
    holds: Holds,
    pub columns: Columns,
    pub versions: Versions,
    flights: Flights,
    pub marks: Marks,
    /// Text, which stands over the lines, and fences.
    labels: Labels<'a>,
    fences: Xml,
    rings: Rings,
    axis: Axis,
}

impl<'a> Rows<'a> {
    /// No row is drawn yet: the first begins below this height.
    pub(crate) fn new(
        alloc: Global,
        plan: &'a Plan,
        places: &'a Places,
        top: u64,
        axis: Axis,
    ) -> Result<Rows<'a>, AllocError> {
        Ok(Rows {
            alloc,
            plan,
            places,
            y: top.saturating_add(2),
            named: top,
            left: plan.rows,
            holds: Holds::new(alloc, places.columns.len())?,
            columns: Columns::new(alloc, places)?,
            versions: Versions::new(alloc, top),
            flights: Flights::new(alloc),
            marks: Marks::new(alloc),
            labels: Labels::new(alloc, places)?,
            fences: Xml::new(alloc),
            rings: Rings::new(alloc),
            axis,
        })
    }

    /// Begins the bar of a call.
    fn begin(&mut self, moment: &Moment, y: u64) -> Result<(), AllocError> {
        if moment.kind != Kind::Begins {
            return Ok(());
        }
        let client = moment.client;
        let op = moment.op;
        let call = moment.words.as_str();
        let words = format!(in self.alloc; "client {client}, operation {op}: {call}")?;
        self.columns.begin(client, op, y, words)
    }

    /// Ends what a moment ends: the bar of its call, or all of a client that is no more.
    fn end(&mut self, moment: &Moment, y: u64) -> Result<(), AllocError> {
        if is_last(moment) {
            self.columns.end_all_of(self.places, moment.client, y)?;
            return self.columns.end_hold(self.places, moment.client, y);
        }
        if !is_end(moment) {
            return Ok(());
        }
        match &moment.answer {
            Some(answer) => {
                if answer.is_refusal {
                    self.marks.used |= REFUSED;
                }
                let said = answer_words(self.alloc, answer)?;
                self.columns.end(self.places, moment.op, y, said.as_str(), answer.is_refusal)
            }
            None => self
                .columns
                .end(self.places, moment.op, y, "given up", false),
        }
    }

    /// Draws the requests that are in flight from here on.
    fn leave(&mut self, moment: &Moment, from: At) -> Result<(), AllocError> {
        for k in &moment.left {
            self.marks.used |= FLIGHT;
            self.flights
                .leave(self.places, &mut self.marks.drawn, *k, from)?;
        }
        Ok(())
    }

    /// The mark of an event in its call's bar.
    fn dot(&mut self, moment: &Moment, bar: At, from: u64) -> Result<(), AllocError> {
        match moment.kind {
            Kind::Serves => circle(self.alloc, &mut self.marks.drawn, "if", bar, 20),
            Kind::Fails => {
                self.marks.used |= FAILED;
                shape(self.alloc, &mut self.marks.drawn, "ns w2", bar, CROSS)?;
                if moment.left.is_empty() && matches!(&moment.touch, Touch::None) {
                    let end = from.saturating_add(22);
                    let at = At { x: end, y: bar.y };
                    across(
                        self.alloc,
                        &mut self.marks.drawn,
                        "ns w1 dash",
                        from,
                        end,
                        bar.y,
                    )?;
                    shape(self.alloc, &mut self.marks.drawn, "ns w2", at, STOP)?;
                }
                Ok(())
            }
            Kind::Crashes | Kind::Killed => {
                self.marks.used |= CRASHED;
                circle(self.alloc, &mut self.marks.drawn, "bs ns w1", bar, 60)?;
                shape(self.alloc, &mut self.marks.drawn, "ns w2", bar, CROSS)
            }
            Kind::Refused => {
                self.marks.used |= FAULT;
                Ok(())
            }
            _ => Ok(()),
        }
    }

    /// Where the mark of a moment's store call begins.
    fn start(&mut self, moment: &Moment, y: u64, from: u64) -> Result<u64, AllocError> {
        match moment.kind {
            Kind::Lands(k) => {
                let is_last = lands_last(self.plan.lands.as_slice(), k, moment.number);
                self.flights.land(self.places, k, y, is_last)
            }
            _ => Ok(from),
        }
    }

    /// What a moment says where a pointer rests on its mark.
    fn tip(&self, moment: &Moment) -> Result<String, AllocError> {
        let number = moment.number;
        let client = moment.client;
        let words = moment.words.as_str();
        format!(in self.alloc; "event {number}, client {client}: {words}")
    }

    /// Draws the store call of a moment.
    fn touch(&mut self, moment: &Moment, y: u64, from: u64) -> Result<(), AllocError> {
        let from = self.start(moment, y, from)?;
        let row = Row {
            from,
            y,
            is_landing: matches!(moment.kind, Kind::Lands(_)),
            client: moment.client,
        };
        if let Touch::Creates { is_made: true, .. } = &moment.touch {
            self.columns.make(moment.op, y);
        }
        self.marks
            .touch(self.places, &mut self.versions, row, &moment.touch)
    }

    /// Notes what a client holds from here on.
    fn hold(&mut self, moment: &Moment, y: u64) -> Result<(), AllocError> {
        self.holds.note(moment)?;
        let is_held = match &moment.answer {
            Some(answer) => answer.held.is_some(),
            None => false,
        };
        if !is_held {
            return Ok(());
        }
        self.marks.used |= HOLDS;
        let index = moment.client.saturating_sub(1) as usize;
        let from = self.columns.made(moment.op).unwrap_or(y);
        match self.holds.of(index) {
            Hold::Epoch(epoch) => self
                .columns
                .hold(self.places, moment.client, epoch, from, false),
            Hold::ShutOut(epoch) => self
                .columns
                .hold(self.places, moment.client, epoch, y, true),
            Hold::None => Ok(()),
        }
    }

    /// Draws a line across at a height, with words.
    fn line_across(
        &mut self,
        words: &str,
        k: u64,
        y: u64,
        is_fence: bool,
    ) -> Result<(), AllocError> {
        let end = self.places.width.saturating_sub(8);
        begin_group(&mut self.fences, words)?;
        if is_fence {
            let class = format!(in self.alloc; "s{k} w15")?;
            across(self.alloc, &mut self.fences, class.as_str(), 52, end, y)?;
            let class = format!(in self.alloc; "s{k} post")?;
            across(self.alloc, &mut self.fences, class.as_str(), 52, end, y)?;
        } else {
            let class = format!(in self.alloc; "s{k} w1 dot")?;
            across(self.alloc, &mut self.fences, class.as_str(), 52, end, y)?;
        }
        let count = words.chars().count() as u64;
        let x = self.places.column(1).left.saturating_add(24);
        let label = Box {
            x: x.saturating_sub(6),
            y: y.saturating_sub(8),
            width: (count.saturating_mul(62) / 10).saturating_add(14),
            height: 16,
        };
        rectangle(self.alloc, &mut self.fences, "bs", label, 8)?;
        let class = format!(in self.alloc; "fe f{k}")?;
        let at = At {
            x,
            y: y.saturating_add(4),
        };
        text(self.alloc, &mut self.fences, class.as_str(), at, words)?;
        end_group(&mut self.fences)
    }

    /// Draws a fence where a greater epoch comes in.
    fn fence(&mut self, moment: &Moment) -> Result<(), AllocError> {
        let Some(epoch) = self.holds.comes_in(moment) else {
            return Ok(());
        };
        let is_claim = self.holds.is_claim(moment);
        let out = self.holds.shut_out(self.alloc, epoch)?;
        let words = fence_words(self.alloc, moment.client, is_claim, epoch, out.as_slice())?;
        let y = self.y.saturating_add(10);
        for it in out.as_slice() {
            self.marks.used |= FENCE | SHUT_OUT;
            self.columns.shut_out(self.places, it.client, it.epoch, y)?;
        }
        self.columns.told.push_text(words.as_str())?;
        self.columns.told.push_text("; ")?;
        self.line_across(words.as_str(), colour(epoch), y, !out.is_empty())?;
        self.y = self.y.saturating_add(21);
        Ok(())
    }

    /// Makes room for a version that is created where there is none to the right.
    fn scroll(&mut self, moment: &Moment) -> Result<(), AllocError> {
        match &moment.touch {
            Touch::Creates {
                id,
                is_made: true,
                ..
            } if self.versions.is_beyond(self.places, *id) => {
                self.versions.scroll(self.places, *id, self.y)
            }
            _ => Ok(()),
        }
    }

    /// Draws the ring of a moment, where it has one.
    fn ring(
        &mut self,
        moment: &Moment,
        bar: At,
        from: u64,
        target: Option<u64>,
    ) -> Result<(), AllocError> {
        match moment.ring {
            Some(ring) => self
                .rings
                .add(self.places, ring, Ringed { bar, from, target }),
            None => Ok(()),
        }
    }

    /// Draws the row of a moment at a height.
    fn row(&mut self, moment: &Moment, y: u64) -> Result<(), AllocError> {
        let label = self.axis.label(moment)?;
        self.labels.number(label.as_str(), y)?;
        self.begin(moment, y)?;
        let lane = self.columns.lane(moment.op);
        let bar = At {
            x: self.places.bar(moment.client, lane),
            y,
        };
        let tip = self.tip(moment)?;
        begin_group(&mut self.marks.drawn, tip.as_str())?;
        let from = self.labels.words_of(&self.holds, moment, y, bar.x)?;
        let target = target_of(self.places, &self.versions, &moment.touch);
        self.touch(moment, y, from)?;
        self.dot(moment, bar, from)?;
        self.ring(moment, bar, from, target)?;
        self.leave(moment, At { x: from, y })?;
        end_group(&mut self.marks.drawn)?;
        self.end(moment, y)
    }

    /// Draws a line across where nothing happened for long before a moment.
    fn pause(&mut self, moment: &Moment) -> Result<(), AllocError> {
        let Some(long) = self.axis.pause_before(moment) else {
            return Ok(());
        };
        self.marks.used |= PAUSE;
        let long = duration(self.alloc, long)?;
        let words = format!(in self.alloc; "{long} later")?;
        let y = self.y.saturating_add(8);
        let end = self.places.width.saturating_sub(8);
        across(self.alloc, &mut self.fences, "ax w1 dot", 12, end, y)?;
        let at = At {
            x: end.saturating_sub(6),
            y: y.saturating_sub(2),
        };
        text(
            self.alloc,
            &mut self.fences,
            "a r mu halo",
            at,
            words.as_str(),
        )?;
        self.y = self.y.saturating_add(PAUSE_HEIGHT);
        Ok(())
    }

    /// Says the names of the columns once more, where they stood long before.
    fn names(&mut self) -> Result<(), AllocError> {
        let is_long = self.y.saturating_sub(self.named) > NAMES_EVERY;
        if !is_long || self.left <= NAMES_ABOVE {
            return Ok(());
        }
        self.named = self.y;
        let y = self.y.saturating_add(12);
        add_names(
            self.alloc,
            &mut self.labels.words,
            self.places,
            "cl halo",
            y,
        )?;
        self.y = self.y.saturating_add(NAMES_HEIGHT);
        Ok(())
    }

    /// Draws a moment.
    pub(crate) fn moment(&mut self, moment: &Moment) -> Result<(), AllocError> {
        if !is_shown(moment) {
            if self.places.pitch > 12 {
                self.y = self.y.saturating_add(5);
            }
            return Ok(());
        }
        self.names()?;
        self.left = self.left.saturating_sub(1);
        self.pause(moment)?;
        self.scroll(moment)?;
        let pitch = self.places.pitch;
        let height = if moment.kind == Kind::Begins && pitch > 12 {
            pitch.saturating_add(2)
        } else {
            pitch
        };
        let y = self.y.saturating_add(height / 2);
        self.row(moment, y)?;
        self.y = self.y.saturating_add(height);
        self.hold(moment, y)?;
        self.fence(moment)
    }

    /// What is still there goes on to the bottom: its height.
    pub(crate) fn finish(&mut self) -> Result<u64, AllocError> {
        let bottom = self.y.saturating_add(8);
        self.columns.finish(self.places, bottom)?;
        self.versions.draw_all(self.places, bottom)?;
        self.flights.finish(self.places, bottom)?;
        self.rings.finish(self.places)?;
        self.marks.used |= self.rings.used;
        Ok(bottom)
    }

    /// The next row is the first of the picture, below this height: of what was drawn before, nothing stands but what goes on.
    pub(crate) fn begin_at(&mut self, top: u64) {
        self.y = top.saturating_add(2);
        self.named = top;
        self.left = self.plan.rows;
        self.columns.begin_at(top);
        self.versions.begin_at(top);
        self.flights.begin_at(top);
        self.marks.clear();
        self.labels.clear();
        self.fences.clear();
        self.rings.clear();
        for index in 0..self.places.columns.len() {
            self.marks.used |= match self.holds.of(index) {
                Hold::Epoch(_) => HOLDS,
                Hold::ShutOut(_) => SHUT_OUT,
                Hold::None => 0,
            };
        }
    }

    /// Adds all that was drawn, one over the other.
    pub(crate) fn add_to(&self, xml: &mut Xml, top: u64, bottom: u64) -> Result<(), AllocError> {
        self.columns.bands(self.places, xml, top, bottom)?;
        xml.push_part(&self.columns.grounds)?;
        xml.push_part(&self.versions.grounds)?;
        xml.push_part(&self.versions.drawn)?;
        xml.push_part(&self.columns.drawn)?;
        xml.push_part(&self.flights.drawn)?;
        xml.push_part(&self.marks.drawn)?;
        xml.push_part(&self.fences)?;
        xml.push_part(&self.rings.drawn)?;
        xml.push_part(&self.labels.words)
    }
}
