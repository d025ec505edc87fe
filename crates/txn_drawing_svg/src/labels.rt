//! The words of a picture, where they have room.

use crate::places::{Places, pixels};
use crate::shapes::{At, text};
use crate::xml::Xml;
use std::alloc::{AllocError, Global};
use txn_drawing_moments::holds::{Hold, Holds};
use txn_drawing_moments::moment::{Kind, Moment, Touch};
use txn_drawing_moments::words::{answer_words, cut, event_words};

/// What is said of the moments, each in its row: the numbers of events, and the words of calls and answers.
#[derive(Drop)]
pub(crate) struct Labels<'a> {
    alloc: Global,
    places: &'a Places,
    pub words: Xml,
    /// Where the last number of an event stands, and the last words of each column.
    last_number: u64,
    last_words: Vec<u64>,
}

impl<'a> Labels<'a> {
    /// Nothing is said yet.
    pub(crate) fn new(alloc: Global, places: &'a Places) -> Result<Labels<'a>, AllocError> {
        let mut last_words = Vec::new(alloc);
        last_words.resize(places.columns.len(), 0)?;
        Ok(Labels {
            alloc,
            places,
            words: Xml::new(alloc),
            last_number: 0,
            last_words,
        })
    }

    /// Adds words at a place, and the height of a row's middle: where they end.
    fn say(
        &mut self,
        class: &str,
        at: At,
        words: &str,
        room: usize,
    ) -> Result<(u64, usize), AllocError> {
        let words = cut(self.alloc, words, room)?;
        let count = words.as_str().chars().count();
        let below = At {
            x: at.x,
            y: at.y.saturating_add(4),
        };
        text(self.alloc, &mut self.words, class, below, words.as_str())?;
        let end = at.x.saturating_add(pixels(count.saturating_add(1)));
        Ok((end, room.saturating_sub(count.saturating_add(1))))
    }

    /// Whether the words of a client have room at this height.
    fn has_room(&mut self, client: u64, y: u64) -> bool {
        let index = if self.places.is_wide {
            client.saturating_sub(1) as usize
        } else {
            0
        };
        if index >= self.last_words.len() {
            return true;
        }
        let has_room = self.places.pitch > 12 || y >= self.last_words[index].saturating_add(11);
        if has_room {
            self.last_words[index] = y;
        }
        has_room
    }

    /// The class of words with this one, in the column of a client.
    fn class_of(&self, holds: &Holds, client: u64, class: &str) -> Result<String, AllocError> {
        let index = client.saturating_sub(1) as usize;
        let is_covered = match holds.of(index) {
            Hold::ShutOut(_) => client != 0,
            _ => false,
        };
        if is_covered || self.places.pitch < 12 {
            format!(in self.alloc; "{class} halo")
        } else {
            String::from_str(self.alloc, class)
        }
    }

    /// Says what an event was: where that ends, and how many characters have room after it.
    fn say_event(
        &mut self,
        holds: &Holds,
        moment: &Moment,
        at: At,
        room: usize,
    ) -> Result<(u64, usize), AllocError> {
        let words = event_words(self.alloc, moment)?;
        if words.as_str().is_empty() {
            return Ok((at.x, room));
        }
        let class = match moment.kind {
            Kind::Begins => "b",
            Kind::Crashes | Kind::Killed => "no b",
            _ => "no",
        };
        let class = self.class_of(holds, moment.client, class)?;
        self.say(class.as_str(), at, words.as_str(), room)
    }

    /// Says what an event was and what it was answered: where that ends.
    fn say_moment(&mut self, holds: &Holds, moment: &Moment, y: u64) -> Result<u64, AllocError> {
        let column = self.places.column(moment.client);
        let mut at = At { x: column.text, y };
        let mut room = column.room;
        if !self.places.is_wide {
            let client = moment.client;
            let who = format!(in self.alloc; "c{client}")?;
            let class = self.class_of(holds, moment.client, "mu")?;
            (at.x, room) = self.say(class.as_str(), at, who.as_str(), room)?;
        }
        (at.x, room) = self.say_event(holds, moment, at, room)?;
        if let Some(answer) = &moment.answer {
            if room > 2 {
                let words = answer_words(self.alloc, answer)?;
                let class = if answer.is_refusal { "no b" } else { "an" };
                let class = self.class_of(holds, moment.client, class)?;
                (at.x, room) = self.say(class.as_str(), at, words.as_str(), room)?;
            }
        }
        let is_lost = moment.kind == Kind::Fails && !matches!(&moment.touch, Touch::None);
        if is_lost && room > 2 {
            let class = self.class_of(holds, moment.client, "no")?;
            (at.x, _) = self.say(class.as_str(), at, "(reply lost)", room)?;
        }
        Ok(at.x)
    }

    /// Whether a moment has words.
    fn has_words(moment: &Moment) -> bool {
        match moment.kind {
            Kind::Looks | Kind::Serves | Kind::Lands(_) => moment.answer.is_some(),
            _ => true,
        }
    }

    /// The words of a moment, where they have room: where they end, or the right of the bar.
    pub(crate) fn words_of(
        &mut self,
        holds: &Holds,
        moment: &Moment,
        y: u64,
        bar: u64,
    ) -> Result<u64, AllocError> {
        if Labels::has_words(moment) && self.has_room(moment.client, y) {
            self.say_moment(holds, moment, y)
        } else {
            Ok(bar.saturating_add(5))
        }
    }

    /// The number of an event, or its time, where it has room.
    pub(crate) fn number(&mut self, words: &str, y: u64) -> Result<(), AllocError> {
        if words.is_empty() || y < self.last_number.saturating_add(11) {
            return Ok(());
        }
        self.last_number = y;
        let at = At {
            x: 50,
            y: y.saturating_add(3),
        };
        text(self.alloc, &mut self.words, "a r mu", at, words)
    }

    /// Nothing that was said up to here is drawn.
    pub(crate) fn clear(&mut self) {
        self.words.clear();
        self.last_number = 0;
        for last in self.last_words.iter_mut() {
            *last = 0;
        }
    }
}
