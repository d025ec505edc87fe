//! The columns of the clients: the bars of their calls, and what they hold.

use crate::places::Places;
use crate::shapes::{At, Box, begin_group, colour, end_group, line, rectangle, shape};
use crate::slots::Slots;
use crate::xml::Xml;
use std::alloc::{AllocError, Global};
use std::collections::{BTreeMap, BTreeSet};

/// The bar of a call.
#[derive(Drop)]
pub struct Bar {
    pub client: u64,
    /// Its lane in its client's column, counted from 0.
    pub lane: usize,
    /// Where it begins, and whether it has not ended yet.
    from: u64,
    is_running: bool,
    /// Where it created a version last.
    made: Option<u64>,
    /// Who called what.
    words: String,
}

/// What a client holds, and from where on.
#[derive(Clone, Copy)]
struct Tint {
    from: u64,
    epoch: u64,
    is_shut_out: bool,
}

/// The columns of the clients.
#[derive(Drop)]
pub struct Columns {
    alloc: Global,
    bars: Vec<Bar>,
    /// Of each client, which of its operations run.
    running: BTreeMap<u64, BTreeSet<u64>>,
    slots: Vec<Slots>,
    tints: Vec<Option<Tint>>,
    /// How far a bar goes beyond the rows of its ends.
    edge: u64,
    /// What is drawn of what clients hold, and the bars.
    pub grounds: Xml,
    pub drawn: Xml,
    /// What is told to those who do not see it.
    pub told: Xml,
}

impl Columns {
    /// The columns of clients that have called nothing.
    ///
    /// # Errors
    ///
    /// Want of memory alone.
    pub fn new(alloc: Global, places: &Places) -> Result<Columns, AllocError> {
        let mut slots = Vec::new(alloc);
        let mut tints = Vec::new(alloc);
        for _ in 0..places.columns.len() {
            slots.push(Slots::new(alloc))?;
            tints.push(None)?;
        }
        Ok(Columns {
            alloc,
            bars: Vec::new(alloc),
            running: BTreeMap::new(alloc),
            slots,
            tints,
            edge: if places.pitch < 12 { 1 } else { 6 },
            grounds: Xml::new(alloc),
            drawn: Xml::new(alloc),
            told: Xml::new(alloc),
        })
    }

    /// The picture begins at this height: of what was drawn before, nothing stands but what goes on.
    pub fn begin_at(&mut self, top: u64) {
        self.grounds.clear();
        self.drawn.clear();
        self.told.clear();
        for bar in self.bars.iter_mut() {
            bar.from = top.saturating_add(self.edge);
            bar.made = None;
        }
        for tint in self.tints.iter_mut() {
            if let Some(tint) = tint {
                tint.from = top;
            }
        }
    }

    /// The lane that a client's operation takes.
    fn lane_for(&mut self, client: u64, op: u64) -> Result<usize, AllocError> {
        let index = client.saturating_sub(1) as usize;
        if index < self.slots.len() {
            self.slots[index].take(op)
        } else {
            Ok(0)
        }
    }

    /// A call begins.
    ///
    /// # Errors
    ///
    /// Want of memory alone. A part of what it draws may stand then.
    pub fn begin(&mut self, client: u64, op: u64, y: u64, words: String) -> Result<(), AllocError> {
        let lane = self.lane_for(client, op)?;
        self.bars.push(Bar {
            client,
            lane,
            from: y,
            is_running: true,
            made: None,
            words,
        })?;
        let op = self.bars.len() as u64;
        self.starts(client, op)
    }

    /// Notes that an operation of a client runs.
    fn starts(&mut self, client: u64, op: u64) -> Result<(), AllocError> {
        if let Some(running) = self.running.get_mut(&client) {
            running.insert(op)?;
            return Ok(());
        }
        let mut running = BTreeSet::new(self.alloc);
        running.insert(op)?;
        self.running.insert(client, running)?;
        Ok(())
    }

    /// Notes that an operation of a client has ended.
    fn ends(&mut self, client: u64, op: u64) {
        if let Some(running) = self.running.get_mut(&client) {
            running.remove(&op);
        }
    }

    /// The lane of an operation.
    pub fn lane(&self, op: u64) -> usize {
        match self.bars.get(op.saturating_sub(1) as usize) {
            Some(bar) if op != 0 => bar.lane,
            _ => 0,
        }
    }

    /// An operation created a version here.
    pub fn make(&mut self, op: u64, y: u64) {
        let place = op.saturating_sub(1) as usize;
        if op != 0 && place < self.bars.len() {
            self.bars[place].made = Some(y);
        }
    }

    /// Where an operation created a version last.
    pub fn made(&self, op: u64) -> Option<u64> {
        match self.bars.get(op.saturating_sub(1) as usize) {
            Some(bar) if op != 0 => bar.made,
            _ => None,
        }
    }

    /// Draws the bar of an operation, which ends here with these words.
    fn draw_bar(
        &mut self,
        places: &Places,
        place: usize,
        y: u64,
        said: &str,
        is_refused: bool,
    ) -> Result<(), AllocError> {
        let Some(bar) = self.bars.get(place) else {
            return Ok(());
        };
        let x = places.bar(bar.client, bar.lane);
        let top = bar.from.saturating_sub(self.edge);
        let end = y.saturating_add(self.edge);
        let words = bar.words.as_str();
        let tip = format!(in self.alloc; "{words} {said}")?;
        self.told.push_text(tip.as_str())?;
        self.told.push_text("; ")?;
        begin_group(&mut self.drawn, tip.as_str())?;
        let at = Box {
            x: x.saturating_sub(4),
            y: top,
            width: 8,
            height: end.saturating_sub(top),
        };
        rectangle(self.alloc, &mut self.drawn, "bar", at, self.edge / 2)?;
        if is_refused {
            let x = x.saturating_sub(5);
            shape(
                self.alloc,
                &mut self.drawn,
                "ns w2",
                At { x, y: end },
                "h10",
            )?;
        }
        end_group(&mut self.drawn)
    }

    /// An operation ends here with these words.
    ///
    /// # Errors
    ///
    /// Want of memory alone. A part of what it draws may stand then.
    pub fn end(
        &mut self,
        places: &Places,
        op: u64,
        y: u64,
        said: &str,
        is_refused: bool,
    ) -> Result<(), AllocError> {
        let place = op.saturating_sub(1) as usize;
        if op == 0 || place >= self.bars.len() || !self.bars[place].is_running {
            return Ok(());
        }
        let client = self.bars[place].client;
        self.bars[place].is_running = false;
        self.ends(client, op);
        let index = client.saturating_sub(1) as usize;
        if index < self.slots.len() {
            self.slots[index].free(op);
        }
        self.draw_bar(places, place, y, said, is_refused)
    }

    /// An operation ends here without an answer.
    fn end_unanswered(&mut self, places: &Places, op: u64, y: u64) -> Result<(), AllocError> {
        self.end(places, op, y, "has no answer", false)
    }

    /// The operations of a client that run end here without an answer.
    ///
    /// # Errors
    ///
    /// Want of memory alone. A part of what it draws may stand then.
    pub fn end_all_of(&mut self, places: &Places, client: u64, y: u64) -> Result<(), AllocError> {
        let Some(running) = self.running.remove(&client) else {
            return Ok(());
        };
        for op in &running {
            self.end_unanswered(places, *op, y)?;
        }
        Ok(())
    }

    /// Draws what a client held from `from` up to here.
    fn draw_tint(
        &mut self,
        places: &Places,
        client: u64,
        tint: Tint,
        y: u64,
    ) -> Result<(), AllocError> {
        if y <= tint.from {
            return Ok(());
        }
        let column = places.column(client);
        let k = colour(tint.epoch);
        let (x, top, width) = (column.left, tint.from, column.width);
        let height = y.saturating_sub(top);
        let epoch = tint.epoch;
        let does = if tint.is_shut_out {
            "held, and is shut out"
        } else {
            "holds"
        };
        let tip = format!(in self.alloc; "client {client} {does}: epoch {epoch}")?;
        begin_group(&mut self.grounds, tip.as_str())?;
        let drawn = if tint.is_shut_out {
            format!(in self.alloc;
                "<rect fill='url(#x{k})' x='{x}' y='{top}' width='{width}' height='{height}'/>"
            )?
        } else {
            format!(in self.alloc;
                "<rect class='t{k}' x='{x}' y='{top}' width='{width}' height='{height}'/><rect class='f{k}' x='{x}' y='{top}' width='3' height='{height}'/>"
            )?
        };
        self.grounds.push_markup(drawn.as_str())?;
        end_group(&mut self.grounds)
    }

    /// What a client held ends here.
    ///
    /// # Errors
    ///
    /// Want of memory alone. A part of what it draws may stand then.
    pub fn end_hold(&mut self, places: &Places, client: u64, y: u64) -> Result<(), AllocError> {
        let index = client.saturating_sub(1) as usize;
        if index < self.tints.len() {
            let held = self.tints[index];
            self.tints[index] = None;
            if let Some(tint) = held {
                self.draw_tint(places, client, tint, y)?;
            }
        }
        Ok(())
    }

    /// A client holds an epoch from here on, which is shut out or not.
    ///
    /// # Errors
    ///
    /// Want of memory alone. A part of what it draws may stand then.
    pub fn hold(
        &mut self,
        places: &Places,
        client: u64,
        epoch: u64,
        from: u64,
        is_shut_out: bool,
    ) -> Result<(), AllocError> {
        self.end_hold(places, client, from)?;
        let index = client.saturating_sub(1) as usize;
        if index < self.tints.len() {
            self.tints[index] = Some(Tint {
                from,
                epoch,
                is_shut_out,
            });
        }
        Ok(())
    }

    /// A client that holds this epoch is shut out from here on.
    ///
    /// # Errors
    ///
    /// Want of memory alone. A part of what it draws may stand then.
    pub fn shut_out(
        &mut self,
        places: &Places,
        client: u64,
        epoch: u64,
        y: u64,
    ) -> Result<(), AllocError> {
        self.hold(places, client, epoch, y, true)
    }

    /// Whether a client holds something.
    pub fn holds(&self, client: u64) -> bool {
        match self.tints.get(client.saturating_sub(1) as usize) {
            Some(tint) => tint.is_some(),
            None => false,
        }
    }

    /// The grounds of all columns, with their lifelines.
    ///
    /// # Errors
    ///
    /// Want of memory alone. A part of what it draws may stand then.
    pub fn bands(
        &self,
        places: &Places,
        xml: &mut Xml,
        top: u64,
        bottom: u64,
    ) -> Result<(), AllocError> {
        for column in &places.columns {
            let band = Box {
                x: column.left,
                y: top.saturating_sub(22),
                width: column.width,
                height: bottom.saturating_sub(top).saturating_add(22),
            };
            rectangle(self.alloc, xml, "bd", band, 5)?;
            let x = column.bar;
            line(
                self.alloc,
                xml,
                "hl w1",
                At { x, y: top },
                At { x, y: bottom },
            )?;
        }
        Ok(())
    }

    /// What runs and is held goes on to here, where the picture ends.
    ///
    /// # Errors
    ///
    /// Want of memory alone. A part of what it draws may stand then.
    pub fn finish(&mut self, places: &Places, y: u64) -> Result<(), AllocError> {
        for place in 0..self.bars.len() {
            self.end_unanswered(places, place as u64 + 1, y)?;
        }
        for index in 0..self.tints.len() {
            self.end_hold(places, (index as u64).saturating_add(1), y)?;
        }
        Ok(())
    }
}
