//! Whether a reply, or none for a look, is what a read or a check asks for.
ghost use Rattle.std.specs.Prelude.{IsTrue};
ghost use Rattle.txn_steps.specs.boundary.Asking.{IsLook, IsGot, IsListed};
ghost use Rattle.txn_steps.specs.boundary.BoundaryReads.{IsBoundaryReply};
ghost use Rattle.txn_steps.specs.boundary.BoundaryChecks.{IsBoundaryCheckReply};
ghost use Rattle.txn_steps.specs.boundary.Checks.{IsCheckReply};
ghost use Rattle.txn_steps.specs.Latest.{IsLatestReply, InRange};
ghost use Rattle.txn_steps.specs.Reads.{IsReadReply, IsInRange};

use txn_steps::boundary::boundary_read::BoundaryRead;
use txn_steps::boundary::check::{BoundaryCheck, BoundaryStep, CheckOp};
use txn_steps::latest::LatestOp;
use txn_steps::read::ReadOp;
use txn_store::request::Reply;

fn is_look(reply: &Option<Reply>) -> bool
    ensures { IsTrue result → IsLook reply.now }
{
    reply.is_none()
}

fn is_got(reply: &Option<Reply>) -> bool
    ensures { IsTrue result → IsGot reply.now }
{
    matches!(reply, Some(Reply::Get(_)))
}

fn is_listed(reply: &Option<Reply>) -> bool
    ensures { IsTrue result → IsListed reply.now }
{
    matches!(reply, Some(Reply::List(_)))
}

fn fits_boundary(op: &BoundaryRead, reply: &Option<Reply>) -> bool
    ensures { IsTrue result → IsBoundaryReply op.now reply.now }
{
    match op {
        BoundaryRead::Gets(_) => is_got(reply),
        _ => is_look(reply),
    }
}

fn fits_boundary_check(op: &BoundaryCheck, reply: &Option<Reply>) -> bool
    ensures { IsTrue result → IsBoundaryCheckReply op.now reply.now }
{
    match op.step {
        BoundaryStep::Looks => is_look(reply),
        BoundaryStep::Reads => fits_boundary(&op.read, reply),
    }
}

pub(crate) fn fits_check(op: &CheckOp, reply: &Option<Reply>) -> bool
    ensures { IsTrue result → IsCheckReply op.now reply.now }
{
    match op {
        CheckOp::Checks(check) => fits_boundary_check(check, reply),
        CheckOp::Drops(_) => is_look(reply),
    }
}

/// It has found no more than four successors besides.
pub(crate) fn fits_latest(op: &LatestOp<u64>, reply: &Option<Reply>) -> bool
    ensures reply { IsTrue result → IsLatestReply op.now reply.now }
    ensures range { IsTrue result → InRange op.now }
{
    match op {
        LatestOp::Probes(_, found, _, _) => *found < 4 && is_got(reply),
        LatestOp::Finds(_, found) => *found <= 4 && is_look(reply),
        LatestOp::Lists(..) => is_listed(reply),
        LatestOp::Gets(..) => is_got(reply),
        LatestOp::Ended => false,
        _ => is_look(reply),
    }
}

pub(crate) fn fits_read(op: &ReadOp<u64>, reply: &Option<Reply>) -> bool
    ensures reply { IsTrue result → IsReadReply op.now reply.now }
    ensures range { IsTrue result → IsInRange op.now }
{
    match op {
        ReadOp::Reads(latest, _) => fits_latest(latest, reply),
        ReadOp::Checks(_, _, check) => fits_check(check, reply),
        ReadOp::Ended => false,
    }
}
