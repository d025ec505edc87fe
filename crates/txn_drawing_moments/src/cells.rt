//! A line of text, place by place.

ghost use Rattle.std.specs.Prelude.{◌≡◌, ℕ, ◌<◌, ◌≤◌, ◌++◌, nat_lt, length, replicate, slice_set, slice_index, IfOk, string_bytes, encode_utf8_all};
ghost use Rattle.txn_drawing_moments.specs.Lines.{filled_place, is_lane_sign};

use std::alloc::{AllocError, Global};
use std::marker::Model;

/// A line of so many places, each of one character.
#[derive(Drop)]
pub struct Cells {
    cells: Vec<char>,
}

impl Model for Cells {
    ghost use Rattle.std.specs.Prelude.{ℕ, List};

    ghost Value = { List ℕ };

    ghost view = { λ it. it.cells.items };
}

/// Whether this stands at a client's lane.
fn is_lane(cell: char) -> bool
    ensures { result ≡ is_lane_sign cell }
{
    matches!(cell, '│' | '┃' | '┆')
}

/// What a place has that is filled with a sign, where a lane there is crossed or not.
fn filled(cell: char, sign: char, is_crossed: bool) -> char
    ensures { (at crossed : ℕ) → is_crossed ≡ nat_lt at crossed → result ≡ filled_place sign crossed at cell }
{
    match cell {
        ' ' => sign,
        _ if is_crossed && is_lane(cell) => '┼',
        _ => cell,
    }
}

impl Cells {
    /// A line of blanks.
    ///
    /// # Errors
    ///
    /// Want of memory alone.
    pub fn new(alloc: Global, width: usize) -> Result<Cells, AllocError>
        ensures { IfOk result (λ line. line ≡ replicate width 32) }
    {
        let mut cells = Vec::new(alloc);
        cells.resize(width, ' ')?;
        Ok(Cells { cells })
    }

    /// Only blanks again.
    pub fn clear(&mut self)
        ensures { self.new ≡ replicate (length self.old) 32 }
    {
        for cell in self.cells.iter_mut() {
            *cell = ' ';
        }
    }

    /// Puts a character at a place, where the line has it.
    pub fn put(&mut self, at: usize, sign: char)
        ensures { self.new ≡ slice_set self.old at sign }
    {
        if at < self.cells.len() {
            self.cells[at] = sign;
        }
    }

    /// Puts a text at a place, so much of it as the line has places for.
    pub fn put_text(&mut self, at: usize, text: &str)
        ensures width { length self.new ≡ length self.old }
        ensures before { (k : ℕ) → k < at → slice_index self.new k ≡ slice_index self.old k }
    {
        for (place, sign) in text.chars().enumerate() {
            self.put(at.saturating_add(place), sign);
        }
    }

    /// Fills the blanks from one place up to another with this. Lanes before the place `crossed` show that it crosses them.
    pub fn fill(&mut self, from: usize, to: usize, sign: char, crossed: usize)
        ensures width { length self.new ≡ length self.old }
        ensures before { (k : ℕ) → k < from → slice_index self.new k ≡ slice_index self.old k }
        ensures between { (k : ℕ) → from ≤ k → k < to → k < length self.old → slice_index self.new k ≡ filled_place sign crossed k (slice_index self.old k) }
        ensures behind { (k : ℕ) → to ≤ k → slice_index self.new k ≡ slice_index self.old k }
    {
        for at in from..to.min(self.cells.len()) {
            self.cells[at] = filled(self.cells[at], sign, at < crossed);
        }
    }

    /// The line, without the blanks at its end.
    ///
    /// # Errors
    ///
    /// Want of memory alone.
    pub fn text(&self, alloc: Global) -> Result<String, AllocError>
        ensures { IfOk result (λ text. (blanks : ℕ) × (string_bytes text ++ replicate blanks 32 ≡ encode_utf8_all self.now)) }
    {
        let mut text = String::new(alloc);
        let mut blanks: usize = 0;
        for cell in &self.cells {
            if *cell == ' ' {
                blanks = blanks.saturating_add(1);
            } else {
                for _ in 0..blanks {
                    text.push(' ')?;
                }
                blanks = 0;
                text.push(*cell)?;
            }
        }
        Ok(text)
    }
}
