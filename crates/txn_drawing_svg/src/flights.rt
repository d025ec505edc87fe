//! The requests in flight: each a line down from where its client left it to where it lands.

use crate::places::Places;
use crate::shapes::{At, across, circle, line, text};
use crate::slots::Slots;
use crate::xml::Xml;
use std::alloc::{AllocError, Global};

/// A request in flight.
#[derive(Clone, Copy)]
struct Flight {
    lane: usize,
    from: u64,
    /// Whether it has landed, and for the last time.
    has_landed: bool,
    is_over: bool,
}

/// The requests in flight, in the order of their numbers.
#[derive(Drop)]
pub struct Flights {
    alloc: Global,
    flights: Vec<Flight>,
    slots: Slots,
    pub drawn: Xml,
}

impl Flights {
    /// There is none.
    pub fn new(alloc: Global) -> Flights {
        Flights {
            alloc,
            flights: Vec::new(alloc),
            slots: Slots::new(alloc),
            drawn: Xml::new(alloc),
        }
    }

    /// The next request is in flight from here on: its number.
    ///
    /// # Errors
    ///
    /// Want of memory alone. A part of what it draws may stand then.
    pub fn leave(
        &mut self,
        places: &Places,
        xml: &mut Xml,
        k: u64,
        from: At,
    ) -> Result<(), AllocError> {
        let lane = self.slots.take(k)?;
        let x = places.in_flight(lane);
        let y = from.y;
        across(self.alloc, xml, "ns w1 dot", from.x, x, y)?;
        circle(self.alloc, xml, "bs ns w1", At { x, y }, 55)?;
        let number = format!(in self.alloc; "{k}")?;
        let at = At {
            x,
            y: y.saturating_add(3),
        };
        text(self.alloc, xml, "a m no", at, number.as_str())?;
        self.flights.push(Flight {
            lane,
            from: y.saturating_add(5),
            has_landed: false,
            is_over: false,
        })?;
        Ok(())
    }

    /// Draws the line of a request down to here.
    fn draw(&mut self, places: &Places, place: usize, y: u64) -> Result<u64, AllocError> {
        let Some(flight) = self.flights.get(place) else {
            return Ok(0);
        };
        let x = places.in_flight(flight.lane);
        let from = At { x, y: flight.from };
        line(self.alloc, &mut self.drawn, "ns w15 dot", from, At { x, y })?;
        Ok(x)
    }

    /// A request lands here, for the last time or not: where it comes from.
    ///
    /// # Errors
    ///
    /// Want of memory alone. A part of what it draws may stand then.
    pub fn land(
        &mut self,
        places: &Places,
        k: u64,
        y: u64,
        is_last: bool,
    ) -> Result<u64, AllocError> {
        let place = k.saturating_sub(1) as usize;
        if k == 0 || place >= self.flights.len() || self.flights[place].is_over {
            return Ok(places.flight);
        }
        let x = self.draw(places, place, y)?;
        if let Some(flight) = self.flights.get_mut(place) {
            flight.from = y;
            flight.has_landed = true;
            flight.is_over = is_last;
        }
        if is_last {
            self.slots.free(k);
        }
        Ok(x)
    }

    /// The picture begins at this height: of what was drawn before, nothing stands but what goes on.
    pub fn begin_at(&mut self, top: u64) {
        self.drawn.clear();
        for flight in self.flights.iter_mut() {
            flight.from = top;
        }
    }

    /// Whether the request at a place may still land.
    fn is_in_flight(&self, place: usize) -> bool {
        match self.flights.get(place) {
            Some(flight) => !flight.is_over,
            None => false,
        }
    }

    /// How far below its line the words of a request stand: so that those of lanes side by side stand apart.
    fn below(&self, place: usize) -> u64 {
        let lane = match self.flights.get(place) {
            Some(flight) => flight.lane as u64,
            None => 0,
        };
        (lane % 3).saturating_mul(10).saturating_add(11)
    }

    /// What is still in flight goes on to here, where the picture ends.
    ///
    /// # Errors
    ///
    /// Want of memory alone. A part of what it draws may stand then.
    pub fn finish(&mut self, places: &Places, y: u64) -> Result<(), AllocError> {
        for place in 0..self.flights.len() {
            if self.is_in_flight(place) {
                let x = self.draw(places, place, y)?;
                let at = At {
                    x,
                    y: y.saturating_add(self.below(place)),
                };
                text(self.alloc, &mut self.drawn, "a m no", at, "never")?;
            }
        }
        Ok(())
    }
}
