//! A player of lines: the clients of a script, what their calls are lent, and the objects that they made.
use crate::beyond::call_beyond;
use crate::clock::LineClock;
use crate::files::{erase, look, put};
use crate::objects::Object;
use crate::plain::{perform, said_of};
use crate::reading::{first_word, read_failure, read_numbers};
use crate::said::{Cost, Played, Said};
use crate::setting::{Client, Desk, Store, clients, new_desk};
use crate::views::{copy, keep_at, place, prepare, show, view_call};
use slatedb_txn_obj::Turns;
use std::alloc::{AllocError, Global};
use txn_history::event::Call;
use txn_script_lines::numerals::read_decimal;
use txn_script_lines::record::Record;
use txn_script_lines::text_form::TextForm;
use txn_store::failing::Counts;
use txn_store::types::layout::PAGE;

/// The turns of a call, where no line sets them.
const TURNS: u64 = 20;

/// The clients of a script, what their calls are lent, and the objects that they made, by number.
pub struct Player {
    desk: Desk<Store>,
    clients: Vec<Client>,
    objects: Vec<Object>,
    /// How many files a page of a listing has.
    page: u64,
    /// How many turns each call has.
    turns: u64,
    /// Whether what a line took is printed.
    shows_costs: bool,
}

impl Drop for Player {
    /// Drops what the player keeps: here, so that no function that owns one has to prove how each part is dropped.
    fn drop(self) {
        let Player {
            desk: _,
            clients: _,
            objects: _,
            page: _,
            turns: _,
            shows_costs: _,
        } = self;
    }
}

/// The calls of the store between two counts.
fn made(before: Counts, after: Counts) -> Counts {
    Counts {
        puts: after.puts.saturating_sub(before.puts),
        gets: after.gets.saturating_sub(before.gets),
        lists: after.lists.saturating_sub(before.lists),
        deletes: after.deletes.saturating_sub(before.deletes),
    }
}

/// A call of a client, where the words say one.
fn call(
    alloc: Global,
    client: &mut Client,
    objects: &mut Vec<Object>,
    desk: &mut Desk<Store>,
    words: &str,
) -> Result<Option<Said>, AllocError> {
    let read: Option<Call<Record>> = TextForm::read_text(alloc, words)?;
    match read {
        None => call_beyond(client, objects, desk, words),
        Some(Call::Plain(call)) => {
            let Desk { store, turns, .. } = desk;
            let answer = perform(alloc, &mut client.protocol, store, turns, call);
            Ok(Some(said_of(answer)))
        }
        Some(Call::View(call)) => {
            Ok(Some(view_call(objects, &mut client.protocol, desk, call)?))
        }
    }
}

/// A look at an object, or something done to one, that no client does: its word, its number and the numbers after that.
fn handle(
    alloc: Global,
    objects: &mut Vec<Object>,
    word: &str,
    number: u64,
    more: &[u64],
) -> Result<Option<Said>, AllocError> {
    if word == "keep" {
        return Ok(Some(keep_at(alloc, objects, number, more)?));
    }
    if !more.is_empty() {
        return Ok(None);
    }
    match word {
        "show" => Ok(Some(show(objects, number))),
        "candidate" => Ok(Some(prepare(objects, number))),
        "copy" => Ok(Some(copy(objects, number)?)),
        _ => Ok(None),
    }
}

impl Player {
    /// Four clients over an empty store, with pages of 1,000 files and 20 turns a call.
    ///
    /// # Errors
    ///
    /// Want of memory alone.
    pub fn new(alloc: Global) -> Result<Player, AllocError> {
        Ok(Player {
            desk: new_desk(alloc, 1),
            clients: clients(alloc, PAGE)?,
            objects: Vec::new(alloc),
            page: PAGE,
            turns: TURNS,
            shows_costs: false,
        })
    }

    /// Another store with nothing in it, which gives this token first, other clients, and no object.
    fn begin_anew(&mut self, first: u64) -> Result<(), AllocError> {
        let alloc = self.desk.alloc;
        self.clients = clients(alloc, self.page)?;
        self.desk = new_desk(alloc, first);
        self.objects.clear();
        Ok(())
    }

    /// Other clients, with so many files a page.
    fn begin_paged(&mut self, page: u64) -> Result<(), AllocError> {
        self.clients = clients(self.desk.alloc, page)?;
        self.page = page;
        Ok(())
    }

    /// Sets what one number says.
    fn set_number(&mut self, word: &str, number: u64) -> Result<Option<Said>, AllocError> {
        match word {
            "turns" => self.turns = number,
            "timeout" => self.desk.timeout = number,
            "page" => self.begin_paged(number)?,
            "store" => self.begin_anew(number)?,
            _ => return Ok(None),
        }
        Ok(Some(Said::Set))
    }

    fn set_clock(&mut self, words: &str) -> Result<Option<Said>, AllocError> {
        match read_numbers(self.desk.alloc, words)? {
            None => Ok(None),
            Some(script) => {
                self.desk.clock = LineClock::new(script);
                Ok(Some(Said::Set))
            }
        }
    }

    fn set_failure(&mut self, words: &str) -> Option<Said> {
        let (nth, when) = read_failure(words)?;
        self.desk.fail(nth, when);
        Some(Said::Set)
    }

    /// A line of no client, by its word and the words after it.
    fn arrange(&mut self, word: &str, rest: &str) -> Result<Option<Said>, AllocError> {
        let alloc = self.desk.alloc;
        match word {
            "file" => look(alloc, &mut self.desk.store, rest),
            "put" => put(alloc, &mut self.desk.store, rest),
            "erase" => erase(alloc, &mut self.desk.store, rest),
            "clock" => self.set_clock(rest),
            "fail" => Ok(self.set_failure(rest)),
            _ => match read_decimal(rest) {
                Some(number) => self.set_number(word, number),
                None => Ok(None),
            },
        }
    }

    /// The same by its word and the words after it.
    fn handle_words(&mut self, word: &str, rest: &str) -> Result<Option<Said>, AllocError> {
        let alloc = self.desk.alloc;
        let Some(numbers) = read_numbers(alloc, rest)? else {
            return Ok(None);
        };
        match numbers.as_slice() {
            [] => Ok(None),
            [number, more @ ..] => handle(alloc, &mut self.objects, word, *number, more),
        }
    }

    /// What a line says, by its word and the words after it.
    fn said(&mut self, word: &str, rest: &str) -> Result<Option<Said>, AllocError> {
        match word {
            "show" | "candidate" | "copy" | "keep" => self.handle_words(word, rest),
            "costs" => {
                self.shows_costs = true;
                Ok(Some(Said::Set))
            }
            "readings" => Ok(Some(Said::Read(self.desk.clock.read()))),
            _ => self.arrange(word, rest),
        }
    }

    /// What a line says, where it can be played.
    fn play_words(&mut self, words: &str) -> Result<Option<Said>, AllocError> {
        let (word, rest) = first_word(words);
        let Some(number) = read_decimal(word) else {
            return self.said(word, rest);
        };
        let Player {
            desk,
            clients,
            objects,
            ..
        } = self;
        match clients.get_mut(place(number)) {
            Some(client) => call(desk.alloc, client, objects, desk, rest),
            None => Ok(None),
        }
    }

    /// What a line took since the store's calls were counted, where that is printed.
    fn cost_since(&self, before: Counts) -> Option<Cost> {
        let cost = Cost {
            made: made(before, self.desk.store.counts()),
            turns: self.turns.saturating_sub(self.desk.turns.left()),
        };
        self.shows_costs.then_some(cost)
    }

    /// Plays a line to its end. `None` where no such line can be played.
    ///
    /// # Errors
    ///
    /// Want of memory alone. The line may have been played in part, so that the player is of no more use.
    pub fn play(&mut self, words: &str) -> Result<Option<Played>, AllocError> {
        let before = self.desk.store.counts();
        self.desk.turns = Turns::new(self.turns);
        match self.play_words(words)? {
            None => Ok(None),
            Some(said) => {
                let cost = self.cost_since(before);
                Ok(Some(Played { said, cost }))
            }
        }
    }
}
