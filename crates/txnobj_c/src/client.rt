//! A value on the C heap, as C holds it.
ghost use Rattle.std.specs.Prelude.{◌≡◌, Option, Some, None, option_map};
ghost use Rattle.txn_client_seat.specs.Seats.{SeatState};
ghost use Rattle.txnobj_c.specs.Owned.{owned};
ghost use Rattle.txn_client_seat.specs.contracts.seat.Seat as state;
ghost use Rattle.txnobj_c.specs.Held.{held_in, boxed_in};

use crate::loose::Loose;
use std::alloc::Global;
use std::marker::Model;
use std::mem;
use std::ptr::null_mut;
use txn_client_seat::seat::Seat;

/// Where a state lies, if one was made. Zero bytes are none.
#[repr(C)]
pub struct Client {
    at: *mut u8,
    made: bool,
    ghost value: { Option SeatState },
}

impl Model for Client {
    ghost also_owns = { λ h. owned state.the_row h.made h.at h.value };
}

impl Client {
    /// Nothing.
    fn none() -> Client
        ensures { result.value ≡ None }
    {
        Client {
            at: null_mut(),
            made: false,
        }
    }

    /// Where a state lies.
    fn of(state: Loose<Seat, Global>) -> Client
        ensures { result.value ≡ Some state.value }
    {
        let Loose { at, alloc: _ } = state;
        Client {
            at: at.cast::<u8>(),
            made: true,
        }
    }

    /// Where it lies, if there is one.
    fn open(self, alloc: Global) -> Option<Loose<Seat, Global>>
        ensures { held_in result ≡ self.value }
    {
        let Client { at, made } = self;
        if made {
            let at = at.cast::<Seat>();
            Some(Loose { at, alloc })
        } else {
            None
        }
    }

    /// Takes the state, and leaves nothing.
    pub(crate) fn take(&mut self, alloc: Global) -> Option<Box<Seat>>
        ensures taken { boxed_in result ≡ self.old.value }
        ensures left { self.new.value ≡ None }
    {
        let held = mem::replace(self, Client::none());
        match held.open(alloc) {
            Some(loose) => Some(loose.into_box()),
            None => None,
        }
    }

    /// Puts a state there. What was there is dropped.
    pub(crate) fn put(&mut self, alloc: Global, state: Box<Seat>)
        ensures { self.new.value ≡ Some state.value }
    {
        let held = mem::replace(self, Client::of(Loose::of(state)));
        match held.open(alloc) {
            Some(loose) => drop(loose.into_box()),
            None => {}
        }
    }
}
