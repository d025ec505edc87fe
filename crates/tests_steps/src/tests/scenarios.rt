//! Scenarios: calls of two clients over one store, each with what it says and how many calls of the store and looks it
//! took.
use crate::tests::operations::Call;
use crate::tests::operations::Call::{
    Advance, Check, Delete, DeleteUnchecked, Holds, Knows, Latest, Lists, Put, Read, ReadSeen,
    ReadUnchecked, Write, WriteUnchecked,
};
use crate::tests::place::Seat::{A, B};
use crate::tests::place::{Row, Scenario};
use crate::tests::told::Told::{Did, Fails, GoesOn, Is, Newest, Value, Wrote};
use std::ops::Bound::{Excluded, Included, Unbounded};

const BOUNDARY: &str = "root/gc/test.boundary";

const SECOND: &str = "root/test/00000000000000000002.val";

const FIFTH: &str = "root/test/00000000000000000005.val";

/// Bytes that a number's codec refuses.
const REFUSED: &[u8] = b"7 bytes";

/// Eight bytes, which it reads.
const NOTES: &[u8] = b"8 bytes!";

pub(crate) const SCENARIOS: &[Scenario<Call>] = &[
    (
        "one client alone knows what it wrote, as far as it holds that",
        &[
            (A, Write(0, 1), Wrote(1), 2, 3),
            (A, Holds(&[1]), Is(true), 0, 0),
            (A, Knows(None), Is(true), 0, 0),
            (A, Write(1, 2), Wrote(2), 2, 3),
            (A, Write(2, 3), Wrote(3), 2, 3),
            (A, Write(3, 4), Wrote(4), 2, 3),
            (A, Write(4, 5), Wrote(5), 2, 3),
            (A, Write(5, 6), Wrote(6), 2, 3),
            (A, Write(6, 7), Wrote(7), 2, 3),
            (A, Write(7, 8), Wrote(8), 2, 3),
            (A, Write(8, 9), Wrote(9), 2, 3),
            (A, Holds(&[2, 3, 4, 5, 6, 7, 8, 9]), Is(true), 0, 0),
            (A, ReadSeen(9), Value(Some(9)), 0, 1),
            (A, ReadSeen(2), Value(Some(2)), 0, 1),
            (A, ReadSeen(1), Value(Some(1)), 1, 2),
            (A, ReadSeen(1), Value(Some(1)), 1, 2),
            (A, Advance(4), Did, 2, 4),
            (A, Holds(&[5, 6, 7, 8, 9]), Is(true), 0, 0),
            (A, ReadSeen(4), Value(Some(4)), 1, 2),
            (A, ReadSeen(4), Value(Some(4)), 0, 1),
            (B, Advance(7), Did, 2, 5),
            (A, Check(6), Fails(5), 1, 4),
            (A, ReadSeen(7), Value(Some(7)), 0, 1),
            (A, ReadSeen(6), Value(Some(6)), 1, 2),
            (A, Holds(&[6, 7, 8, 9]), Is(true), 0, 0),
            (A, Knows(Some(7)), Is(true), 0, 0),
        ],
    ),
    (
        "calls with nothing cached and with something cached",
        &[
            (A, Read, Newest(None), 1, 2),
            (A, Write(0, 10), Wrote(1), 2, 3),
            (A, Write(1, 20), Wrote(2), 2, 3),
            (B, Read, Newest(Some((2, 20))), 3, 5),
            (B, Holds(&[2]), Is(true), 0, 0),
            (B, Read, Newest(Some((2, 20))), 2, 3),
            (B, Check(1), Did, 1, 2),
            (A, Advance(1), Did, 2, 4),
            (A, Holds(&[2]), Is(true), 0, 0),
            (A, Knows(Some(1)), Is(true), 0, 0),
            (B, Check(2), Did, 1, 3),
            (B, Knows(Some(1)), Is(true), 0, 0),
            (B, Check(2), Did, 1, 3),
            (B, Check(1), Fails(5), 0, 2),
            (B, Holds(&[2]), Is(true), 0, 0),
            (A, Check(2), Did, 1, 3),
            (B, Read, Newest(Some((2, 20))), 2, 4),
            (A, Write(2, 30), Wrote(3), 2, 4),
            (B, Write(2, 31), Fails(5), 1, 0),
            (B, Holds(&[2]), Is(true), 0, 0),
            (B, Read, Newest(Some((3, 30))), 3, 5),
            (B, Holds(&[2, 3]), Is(true), 0, 0),
            (A, Advance(2), Did, 1, 3),
            (A, Holds(&[3]), Is(true), 0, 0),
            // Its put comes too late.
            (B, Advance(2), Did, 2, 5),
            (B, Holds(&[3]), Is(true), 0, 0),
            // The boundary is known, so nothing is put.
            (B, Advance(2), Did, 0, 2),
            (B, Advance(1), Did, 0, 2),
            (B, Knows(Some(2)), Is(true), 0, 0),
            (A, Delete(1), Did, 1, 3),
            (A, Delete(3), Fails(7), 1, 3),
            (A, Holds(&[3]), Is(true), 0, 0),
            (B, Delete(2), Did, 1, 3),
            (A, ReadUnchecked(2), Value(None), 1, 0),
            (A, ReadUnchecked(3), Value(Some(30)), 1, 0),
            (A, ReadSeen(2), Value(None), 1, 1),
            (A, DeleteUnchecked(3), Did, 1, 1),
            (A, Holds(&[]), Is(true), 0, 0),
            (A, Read, Newest(None), 1, 2),
            // It reads what it holds.
            (B, Read, Newest(Some((3, 30))), 2, 4),
        ],
    ),
    (
        "a delete drops its own id, and a refused one all below it",
        &[
            (A, WriteUnchecked(0, 10), Wrote(1), 1, 1),
            (A, WriteUnchecked(1, 20), Wrote(2), 1, 1),
            (A, WriteUnchecked(2, 30), Wrote(3), 1, 1),
            (A, DeleteUnchecked(2), Did, 1, 1),
            (A, Holds(&[1, 3]), Is(true), 0, 0),
            (A, DeleteUnchecked(2), Did, 1, 1),
            (A, Delete(1), Fails(7), 1, 2),
            (B, Advance(2), Did, 2, 4),
            // Nothing is known of the boundary.
            (A, Delete(2), Did, 2, 5),
            (A, Holds(&[3]), Is(true), 0, 0),
            (A, Delete(1), Did, 1, 3),
            (A, ReadUnchecked(1), Value(None), 1, 0),
            (A, ReadUnchecked(3), Value(Some(30)), 1, 0),
        ],
    ),
    (
        "an advance raises the boundary and never lowers it",
        &[
            (A, Advance(0), Did, 1, 3),
            (A, Knows(None), Is(true), 0, 0),
            (A, Advance(3), Did, 2, 4),
            (B, Advance(3), Did, 1, 4),
            (B, Knows(Some(3)), Is(true), 0, 0),
            (B, Advance(2), Did, 0, 2),
            (B, Advance(5), Did, 1, 3),
            // Its put comes too late, and again it puts.
            (A, Advance(7), Did, 3, 6),
            (A, Knows(Some(7)), Is(true), 0, 0),
            // Its put comes too late, and the boundary has reached its target.
            (B, Advance(6), Did, 2, 5),
            (B, Knows(Some(7)), Is(true), 0, 0),
        ],
    ),
    (
        "an advance above a boundary of which nothing is known",
        &[
            (A, Advance(3), Did, 2, 4),
            (B, Advance(5), Did, 2, 5),
            (A, Check(5), Fails(5), 1, 4),
            (A, Check(6), Did, 1, 3),
        ],
    ),
    (
        "a write under the boundary conflicts and stays",
        &[
            (A, Advance(2), Did, 2, 4),
            (A, Write(0, 10), Fails(5), 1, 3),
            (A, Holds(&[]), Is(true), 0, 0),
            (B, Write(1, 20), Fails(5), 2, 5),
            (B, Holds(&[]), Is(true), 0, 0),
            (B, Write(2, 30), Wrote(3), 2, 4),
            (B, Holds(&[3]), Is(true), 0, 0),
            (B, WriteUnchecked(2, 31), Fails(5), 1, 0),
            (B, ReadUnchecked(1), Value(Some(10)), 1, 0),
            (B, ReadUnchecked(2), Value(Some(20)), 1, 0),
        ],
    ),
    (
        "a bad boundary is an unexpected state",
        &[
            (A, Put(BOUNDARY, b"seven"), Is(true), 1, 0),
            (A, Check(8), Fails(7), 1, 2),
            (A, Advance(8), Fails(7), 1, 2),
            (A, Delete(8), Fails(7), 1, 2),
            (A, Write(7, 40), Fails(7), 2, 3),
            (A, Holds(&[8]), Is(true), 0, 0),
            (A, Read, Fails(7), 2, 3),
            (A, Knows(None), Is(true), 0, 0),
        ],
    ),
    (
        "no id is after the greatest",
        &[
            (A, Write(u64::MAX, 7), Fails(10), 0, 0),
            (A, WriteUnchecked(u64::MAX, 7), Fails(10), 0, 0),
            (A, Write(u64::MAX - 1, 7), Wrote(u64::MAX), 2, 3),
            (A, Latest, Newest(Some((u64::MAX, 7))), 0, 1),
            (A, Read, Newest(Some((u64::MAX, 7))), 1, 3),
            (B, Read, Newest(Some((u64::MAX, 7))), 3, 5),
        ],
    ),
    (
        "a read probes four successors, and then lists",
        &[
            (A, WriteUnchecked(0, 10), Wrote(1), 1, 1),
            (B, Latest, Newest(Some((1, 10))), 2, 3),
            (B, Latest, Newest(Some((1, 10))), 1, 1),
            (A, WriteUnchecked(1, 20), Wrote(2), 1, 1),
            (A, WriteUnchecked(2, 30), Wrote(3), 1, 1),
            (A, WriteUnchecked(3, 40), Wrote(4), 1, 1),
            (A, WriteUnchecked(4, 50), Wrote(5), 1, 1),
            // The greatest listed is the fourth that it found.
            (B, Latest, Newest(Some((5, 50))), 5, 7),
            (B, Holds(&[1, 2, 3, 4, 5]), Is(true), 0, 0),
            (A, WriteUnchecked(5, 60), Wrote(6), 1, 1),
            (A, WriteUnchecked(6, 70), Wrote(7), 1, 1),
            (A, WriteUnchecked(7, 80), Wrote(8), 1, 1),
            (A, WriteUnchecked(8, 90), Wrote(9), 1, 1),
            (A, WriteUnchecked(9, 100), Wrote(10), 1, 1),
            // The greatest listed is one more.
            (B, Latest, Newest(Some((10, 100))), 6, 7),
            (B, Holds(&[3, 4, 5, 6, 7, 8, 9, 10]), Is(true), 0, 0),
            (A, WriteUnchecked(10, 110), Wrote(11), 1, 1),
            (A, WriteUnchecked(11, 120), Wrote(12), 1, 1),
            (A, WriteUnchecked(12, 130), Wrote(13), 1, 1),
            (B, Latest, Newest(Some((13, 130))), 4, 4),
            (B, Holds(&[6, 7, 8, 9, 10, 11, 12, 13]), Is(true), 0, 0),
            (B, Read, Newest(Some((13, 130))), 2, 3),
        ],
    ),
    (
        "versions are removed under a reader",
        &[
            (A, Write(0, 10), Wrote(1), 2, 3),
            (A, Write(1, 20), Wrote(2), 2, 3),
            (A, Write(2, 30), Wrote(3), 2, 3),
            (B, WriteUnchecked(3, 40), Wrote(4), 1, 1),
            (B, WriteUnchecked(4, 50), Wrote(5), 1, 1),
            (B, Advance(4), Did, 2, 4),
            (B, Holds(&[5]), Is(true), 0, 0),
            (B, Delete(1), Did, 1, 3),
            (B, Delete(2), Did, 1, 3),
            (B, Delete(3), Did, 1, 3),
            (B, Delete(4), Did, 1, 3),
            // It finds no successor of what it holds, which the boundary has reached.
            (A, Read, Newest(Some((5, 50))), 5, 11),
            (A, Holds(&[5]), Is(true), 0, 0),
            (A, Knows(Some(4)), Is(true), 0, 0),
        ],
    ),
    (
        "a read passes over what is no version",
        &[
            (
                A,
                Put("root/test/00000000000000000009.vat", NOTES),
                Is(true),
                1,
                0,
            ),
            (A, Latest, Newest(None), 1, 2),
            (A, Put("root/test/9.val", NOTES), Is(true), 1, 0),
            (A, Latest, Newest(None), 1, 2),
            (A, Put("root/test/notes.txt", NOTES), Is(true), 1, 0),
            (A, Latest, Newest(None), 1, 2),
            (
                A,
                Put("root/test/a/00000000000000000009.val", NOTES),
                Is(true),
                1,
                0,
            ),
            (A, Latest, Newest(None), 1, 2),
            (
                A,
                Put("root/00000000000000000009.val", NOTES),
                Is(true),
                1,
                0,
            ),
            (A, Latest, Newest(None), 1, 2),
            (A, WriteUnchecked(0, 40), Wrote(1), 1, 1),
            (B, Read, Newest(Some((1, 40))), 3, 5),
        ],
    ),
    (
        "bytes that the codec refuses",
        &[
            (A, Write(0, 10), Wrote(1), 2, 3),
            (A, Put(SECOND, REFUSED), Is(true), 1, 0),
            (B, Latest, Fails(8), 2, 2),
            (B, Read, Fails(8), 2, 2),
            (B, ReadSeen(2), Fails(8), 1, 1),
            (B, ReadUnchecked(2), Fails(8), 1, 0),
            (B, Holds(&[]), Is(true), 0, 0),
            // What a probe finds is cached before it is read.
            (A, Latest, Fails(8), 2, 2),
            (A, Holds(&[1, 2]), Is(true), 0, 0),
            (A, Latest, Fails(8), 1, 1),
            (A, ReadSeen(2), Fails(8), 0, 1),
        ],
    ),
    (
        "bytes that the codec refuses, as the fourth that is found",
        &[
            (A, WriteUnchecked(0, 10), Wrote(1), 1, 1),
            (B, Latest, Newest(Some((1, 10))), 2, 3),
            (A, WriteUnchecked(1, 20), Wrote(2), 1, 1),
            (A, WriteUnchecked(2, 30), Wrote(3), 1, 1),
            (A, WriteUnchecked(3, 40), Wrote(4), 1, 1),
            (A, Put(FIFTH, REFUSED), Is(true), 1, 0),
            (B, Latest, Fails(8), 5, 6),
            (B, Holds(&[1, 2, 3, 4, 5]), Is(true), 0, 0),
        ],
    ),
    (
        "what too few steps leave",
        &[
            // It has created its version.
            (A, WriteUnchecked(0, 7), GoesOn, 1, 0),
            (A, Holds(&[]), Is(true), 0, 0),
            (A, WriteUnchecked(0, 8), Fails(5), 1, 0),
            // It has not asked for the boundary.
            (A, Check(1), GoesOn, 0, 2),
            // It has raised the boundary.
            (A, Advance(1), GoesOn, 2, 2),
            (A, Knows(None), Is(true), 0, 0),
            (B, Check(1), Fails(5), 1, 4),
            // It has not removed its version.
            (A, Delete(1), GoesOn, 1, 2),
            (A, ReadUnchecked(1), Value(Some(7)), 1, 0),
            // None of these has got its version.
            (A, ReadSeen(1), GoesOn, 0, 1),
            (A, Latest, GoesOn, 0, 1),
            (A, Read, GoesOn, 0, 1),
            (A, Holds(&[]), Is(true), 0, 0),
        ],
    ),
];

/// Five versions that one client wrote, listed in pages of two files. Each page is asked for once.
pub(crate) const FIVE: &[Row<Call>] = &[
    (A, Lists(Unbounded, Unbounded, &[]), Is(true), 1, 0),
    (A, WriteUnchecked(0, 10), Wrote(1), 1, 1),
    (A, WriteUnchecked(1, 20), Wrote(2), 1, 1),
    (A, WriteUnchecked(2, 30), Wrote(3), 1, 1),
    (A, WriteUnchecked(3, 40), Wrote(4), 1, 1),
    (
        A,
        Lists(Unbounded, Unbounded, &[1, 2, 3, 4]),
        Is(true),
        2,
        0,
    ),
    (A, WriteUnchecked(4, 50), Wrote(5), 1, 1),
    (
        A,
        Lists(Unbounded, Unbounded, &[1, 2, 3, 4, 5]),
        Is(true),
        3,
        0,
    ),
    (A, Lists(Included(2), Excluded(4), &[2, 3]), Is(true), 3, 0),
    (A, Lists(Excluded(2), Included(4), &[3, 4]), Is(true), 3, 0),
    (A, Lists(Included(6), Unbounded, &[]), Is(true), 3, 0),
    (A, Lists(Unbounded, Excluded(1), &[]), Is(true), 3, 0),
    // Three pages, a get of the newest and one of the boundary.
    (B, Read, Newest(Some((5, 50))), 5, 5),
    (B, Holds(&[5]), Is(true), 0, 0),
    (B, Read, Newest(Some((5, 50))), 2, 3),
    // A file that is no version is a file of a page.
    (A, Put("root/test/notes.txt", b"8 bytes!"), Is(true), 1, 0),
    (A, Put("root/test/zzz.txt", b"8 bytes!"), Is(true), 1, 0),
    (
        A,
        Lists(Unbounded, Unbounded, &[1, 2, 3, 4, 5]),
        Is(true),
        4,
        0,
    ),
    (A, Lists(Included(5), Included(5), &[5]), Is(true), 4, 0),
];

/// Calls of the store that fail, counted from 1, and what is said then.
pub(crate) const FAILING: &[(u64, &[Row<Call>])] = &[
    (
        1,
        &[
            (A, Write(0, 10), Fails(2), 1, 0),
            (A, Holds(&[]), Is(true), 0, 0),
            (A, Read, Newest(None), 1, 2),
        ],
    ),
    (
        2,
        &[
            (A, Write(0, 10), Fails(2), 2, 3),
            (A, Holds(&[1]), Is(true), 0, 0),
            (A, Read, Newest(Some((1, 10))), 2, 3),
        ],
    ),
    (1, &[(A, WriteUnchecked(0, 10), Fails(2), 1, 0)]),
    (1, &[(A, Check(1), Fails(2), 1, 2)]),
    (1, &[(A, Latest, Fails(2), 1, 1)]),
    (1, &[(A, Read, Fails(2), 1, 1)]),
    (
        3,
        &[
            (A, WriteUnchecked(0, 10), Wrote(1), 1, 1),
            (B, Latest, Fails(2), 2, 2),
            (B, Holds(&[]), Is(true), 0, 0),
        ],
    ),
    (
        2,
        &[
            (A, WriteUnchecked(0, 10), Wrote(1), 1, 1),
            (A, Latest, Fails(2), 1, 1),
            (A, Holds(&[1]), Is(true), 0, 0),
        ],
    ),
    (1, &[(A, ReadSeen(1), Fails(2), 1, 1)]),
    (1, &[(A, ReadUnchecked(1), Fails(2), 1, 0)]),
    (1, &[(A, Lists(Unbounded, Unbounded, &[]), Fails(2), 1, 0)]),
    (1, &[(A, Advance(3), Fails(2), 1, 2)]),
    (
        2,
        &[
            (A, Advance(3), Fails(2), 2, 2),
            (A, Knows(None), Is(true), 0, 0),
            (A, Advance(3), Did, 2, 4),
        ],
    ),
    (
        2,
        &[
            (A, WriteUnchecked(0, 10), Wrote(1), 1, 1),
            (A, DeleteUnchecked(1), Fails(2), 1, 0),
            (A, Holds(&[1]), Is(true), 0, 0),
        ],
    ),
    (1, &[(A, Delete(3), Fails(2), 1, 2)]),
    (
        3,
        &[(A, Advance(3), Did, 2, 4), (A, Delete(3), Fails(2), 1, 2)],
    ),
];
