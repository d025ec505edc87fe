//! An unchecked operation.
ghost use Rattle.std.specs.Prelude.{◌≡◌, Decides};
ghost use Rattle.txn_steps.specs.boundary.Steps.{turned_by_number};
ghost use Rattle.txn_steps.specs.Latest.{IsLatestReply};
ghost use Rattle.txn_steps.specs.Deletes.{IsRemovalReply};
ghost use Rattle.txn_client_seat.specs.UncheckedOps.{read_told, delete_told};

use std::alloc::Global;
use txn_history::event::PlainAnswer;
use txn_script_lines::values::entry::{Entry, EntryCodec};
use txn_steps::boundary::ask::Ask;
use txn_steps::boundary::turned::Turned;
use txn_steps::boundary::window::Window;
use txn_steps::delete::{DeleteAnswer, DeleteUncheckedOp, RemovalStep};
use txn_steps::latest::{LatestOp, ReadAnswer};
use txn_store::request::Reply;
use txn_store::types::layout::Layout;

/// An unchecked operation, which tests no boundary.
#[derive(Drop)]
pub enum UncheckedOp {
    /// A read of the newest version.
    Read(LatestOp<Entry>),
    /// A delete.
    Delete(DeleteUncheckedOp),
}

/// Whether a read asks for a reply of this kind, or for a look where there is none.
fn suits_read(read: &LatestOp<Entry>, reply: &Option<Reply>) -> bool
    ensures { Decides result (IsLatestReply read.now reply.now) }
{
    match (read, reply) {
        (LatestOp::Looks, None) => true,
        (LatestOp::Probes(..), Some(Reply::Get(_))) => true,
        (LatestOp::Finds(..), None) => true,
        (LatestOp::Lists(..), Some(Reply::List(_))) => true,
        (LatestOp::Chooses(_), None) => true,
        (LatestOp::Gets(..), Some(Reply::Get(_))) => true,
        (LatestOp::Keeps(..), None) => true,
        (LatestOp::Drops(_), None) => true,
        _ => false,
    }
}

/// Whether a delete asks for a reply of this kind, or for a look where there is none.
fn suits_delete(delete: &DeleteUncheckedOp, reply: &Option<Reply>) -> bool
    ensures { Decides result (IsRemovalReply delete.now reply.now) }
{
    match (delete.step, reply) {
        (RemovalStep::Removes, Some(Reply::Delete(_))) => true,
        (RemovalStep::Drops, None) => true,
        _ => false,
    }
}

/// How a read ended, if it did.
fn read_told(turned: Turned<ReadAnswer<Entry>>) -> Option<PlainAnswer<Entry>>
    ensures { result ≡ read_told (turned_by_number turned) }
{
    match turned {
        Turned::Goes => None,
        Turned::Done(Ok(None)) => Some(PlainAnswer::Read(None)),
        Turned::Done(Ok(Some((id, value)))) => Some(PlainAnswer::Read(Some((id.id(), value)))),
        Turned::Done(Err(error)) => Some(PlainAnswer::Refused(error.number())),
    }
}

/// How a delete ended, if it did.
fn delete_told(turned: Turned<DeleteAnswer>) -> Option<PlainAnswer<Entry>>
    ensures { result ≡ delete_told (turned_by_number turned) }
{
    match turned {
        Turned::Goes => None,
        Turned::Done(Ok(())) => Some(PlainAnswer::Done),
        Turned::Done(Err(error)) => Some(PlainAnswer::Refused(error.number())),
    }
}

impl UncheckedOp {
    ghost use Rattle.std.specs.Prelude.{◌≡◌, Decides};
    ghost use Rattle.txn_history.specs.Names.{world_names};
    ghost use Rattle.txn_steps.specs.boundary.Asking.{asks};
    ghost use Rattle.txn_client_seat.specs.UncheckedOps.{unchecked_asked, IsUncheckedReply, IsInRange, UncheckedTurns};

    /// What it asks for. It takes no memory.
    pub fn ask(&self) -> Ask<'_>
        ensures { asks result ≡ unchecked_asked self.now }
    {
        match self {
            UncheckedOp::Read(read) => read.ask(),
            UncheckedOp::Delete(delete) => delete.ask(),
        }
    }

    /// Whether it asks for a reply of this kind, or for a look where there is none. It takes no memory.
    pub fn suits(&self, reply: &Option<Reply>) -> bool
        ensures { Decides result (IsUncheckedReply self.now reply.now) }
    {
        match self {
            UncheckedOp::Read(read) => suits_read(read, reply),
            UncheckedOp::Delete(delete) => suits_delete(delete, reply),
        }
    }

    /// Takes the store's reply to what it asks, or none for a look, over the versions that unchecked operations cached: its
    /// answer, where it ends. Its steps are those of [`LatestOp`] and of [`DeleteUncheckedOp`]. An error is answered by its
    /// number, want of memory among them.
    pub fn take(
        &mut self,
        alloc: Global,
        layout: &Layout<EntryCodec>,
        cached: &mut Window,
        reply: Option<Reply>,
    ) -> Option<PlainAnswer<Entry>>
        requires names { layout.now.names ≡ world_names }
        requires reply { IsUncheckedReply self.old reply }
        requires range { IsInRange self.old }
        ensures turns { UncheckedTurns layout.now.page self.old cached.old reply self.new cached.new result }
        ensures range { IsInRange self.new }
    {
        match self {
            UncheckedOp::Read(read) => read_told(read.take(alloc, layout, cached, reply)),
            UncheckedOp::Delete(delete) => delete_told(delete.take(cached, reply)),
        }
    }
}
