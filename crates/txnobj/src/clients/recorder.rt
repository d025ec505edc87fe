//! What a client tells of what it does, as it happens.
use std::io;
use txn_history::event::{Answer, Call};
use txn_store::request::{Reply, Request};

/// Keeps what a client does, as it happens: a file that grows by whole rows, say, so that a client that is killed leaves all
/// that it asked for. After an error a part of what it was handed may stand behind what it has.
pub trait Recorder<T> {
    ghost use Rattle.std.specs.Prelude.{OnOk};
    ghost use Rattle.txnobj.specs.clients.Noted.{Noted, Begun, Asked, Replied, Failed, GaveUp, Answered};

    /// It was handed this, and has it beside what it had.
    ghost hands: { Self → Noted T → Self → Type 0 };

    /// A call begins as the operation of this number, before anything is asked.
    fn begun(&mut self, op: u64, call: &Call<T>) -> io::Result<()>
        ensures { OnOk result (hands self.old (Begun op call.now) self.new) };

    /// The operation asks the store for this, which is called once this is kept.
    fn asked(&mut self, op: u64, request: &Request) -> io::Result<()>
        ensures { OnOk result (hands self.old (Asked op request.now) self.new) };

    /// The store replied so to what the operation asked.
    fn replied(&mut self, op: u64, reply: &Reply) -> io::Result<()>
        ensures { OnOk result (hands self.old (Replied op reply.now) self.new) };

    /// What the operation asked failed, and nobody knows whether it took effect.
    fn failed(&mut self, op: u64) -> io::Result<()>
        ensures { OnOk result (hands self.old (Failed op) self.new) };

    /// The operation is given up.
    fn gave_up(&mut self, op: u64) -> io::Result<()>
        ensures { OnOk result (hands self.old (GaveUp op) self.new) };

    /// The operation is answered.
    fn answered(&mut self, op: u64, answer: &Answer<T>) -> io::Result<()>
        ensures { OnOk result (hands self.old (Answered op answer.now) self.new) };
}
