//! What may happen next.

use crate::members::Member;
use crate::moves::Move;
use crate::situation::Situation;
use std::alloc::AllocError;
use txn_drawing_moments::touches::asked::Asked;
use txn_history::event::Failure;
use txn_steps::boundary::ask::Ask;

impl Situation<'_> {
    /// What the client makes alone before all others begin, where there is something left.
    pub(crate) fn first_move(&self) -> Option<Move> {
        if self.question.before.is_empty() {
            return None;
        }
        let client = self.question.lists.len();
        let member = self.members.get(client)?;
        match member.running {
            Some(op) => Some(self.going(client, op)),
            None if self.may_begin(client) => Some(Move::Begin(client)),
            None => None,
        }
    }

    /// What gives an operation what it asks for.
    fn going(&self, client: usize, op: u64) -> Move {
        match self.world.asks(op) {
            Some(Ask::Look) => Move::Look(client),
            Some(Ask::Store(_)) => Move::Serve(client),
            None => Move::Serve(client),
        }
    }

    /// What a client may do where no call of it runs.
    fn idle_moves(
        &self,
        client: usize,
        place: usize,
        moves: &mut Vec<Move>,
    ) -> Result<(), AllocError> {
        if place >= self.length(client) || !self.may_begin(client) {
            return Ok(());
        }
        moves.push(Move::Begin(client))?;
        if self.left.crashes > 0 && place > 0 {
            moves.push(Move::Crash(client))?;
        }
        Ok(())
    }

    /// How the store call of an operation may fail.
    fn failing_moves(
        &self,
        client: usize,
        op: u64,
        moves: &mut Vec<Move>,
    ) -> Result<(), AllocError> {
        let asked = self.asked_of(op)?;
        if matches!(asked, Asked::Nothing) {
            return Ok(());
        }
        if self.left.before > 0 {
            moves.push(Move::Fail(client, Failure::Before))?;
        }
        if asked.is_loose() {
            if self.left.after > 0 {
                moves.push(Move::Fail(client, Failure::After))?;
            }
            if self.left.loose > 0 {
                moves.push(Move::Fail(client, Failure::Loose))?;
            }
        }
        Ok(())
    }

    /// What may happen to a client, whose place in its list this is.
    fn moves_of(
        &self,
        client: usize,
        member: &Member,
        moves: &mut Vec<Move>,
    ) -> Result<(), AllocError> {
        let Some(op) = member.running else {
            return self.idle_moves(client, member.place, moves);
        };
        moves.push(self.going(client, op))?;
        self.failing_moves(client, op, moves)?;
        if self.left.giveups > 0 {
            moves.push(Move::GiveUp(client))?;
        }
        if self.left.crashes > 0 {
            moves.push(Move::Crash(client))?;
        }
        Ok(())
    }

    /// What may happen next, once the calls before all others are made.
    pub(crate) fn moves(&self) -> Result<Vec<Move>, AllocError> {
        let mut moves = Vec::new(self.alloc);
        let count = self.question.lists.len();
        for (client, member) in self.members.iter().enumerate() {
            if client < count {
                self.moves_of(client, member, &mut moves)?;
            }
        }
        if self.left.lands > 0 {
            for index in 0..self.loose.len() {
                moves.push(Move::Land((index as u64).saturating_add(1)))?;
            }
        }
        Ok(moves)
    }

    /// Whether each list is at its end, or waits for what nobody may do any more.
    pub(crate) fn is_end(&self) -> bool {
        for (client, member) in self.members.iter().enumerate() {
            if client < self.question.lists.len() {
                if member.running.is_some() {
                    return false;
                }
                if member.place < self.length(client) && self.may_begin(client) {
                    return false;
                }
            }
        }
        true
    }
}
