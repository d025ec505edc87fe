//! Holders: their refreshes and updates, with their own epoch and with others.
use crate::tests::place::Scenario;
use crate::tests::place::Seat::{A, B};
use crate::tests::told::Told::{Fails, Held, Is, Shut, Viewed};
use crate::tests::view_calls::Step;
use crate::tests::view_calls::Step::{
    Boundary, Claim, ClaimAt, HolderRefresh, HolderUpdate, Init, Load, Refresh, Update,
};

pub(crate) const SCENARIOS: &[Scenario<Step>] = &[
    (
        "a holder moves with its own epoch",
        &[
            (A, Init(0, 1), Viewed(1, 0, 1), 2, 3),
            (A, Claim(None), Held(2, 1, 1, 1), 2, 3),
            (A, HolderUpdate(1, 2), Viewed(3, 1, 2), 2, 3),
            (B, Load, Viewed(3, 1, 2), 3, 5),
            (B, Update(1, 3), Viewed(4, 1, 3), 2, 3),
            (A, HolderRefresh, Viewed(4, 1, 3), 3, 4),
            (A, HolderUpdate(1, 4), Viewed(5, 1, 4), 2, 3),
        ],
    ),
    (
        "an older holder is shut",
        &[
            (A, Init(0, 1), Viewed(1, 0, 1), 2, 3),
            (B, Load, Viewed(1, 0, 1), 3, 5),
            (A, Claim(None), Held(2, 1, 1, 1), 2, 3),
            (B, Claim(None), Held(3, 2, 1, 2), 6, 7),
            (A, HolderUpdate(1, 2), Fails(5), 1, 0),
            (A, HolderRefresh, Shut(3, 2, 1, 6), 3, 4),
            (A, HolderUpdate(1, 3), Fails(6), 0, 0),
            (B, HolderUpdate(2, 4), Viewed(4, 2, 4), 2, 3),
        ],
    ),
    (
        "a holder that finds a smaller epoch is shut",
        &[
            (A, Init(0, 1), Viewed(1, 0, 1), 2, 3),
            (A, Claim(None), Held(2, 1, 1, 1), 2, 3),
            (B, Load, Viewed(2, 1, 1), 3, 5),
            (B, Update(0, 2), Viewed(3, 0, 2), 2, 3),
            (A, HolderRefresh, Shut(3, 0, 2, 7), 3, 4),
            (A, HolderUpdate(1, 3), Fails(7), 0, 0),
        ],
    ),
    (
        "a holder writes no other epoch",
        &[
            (A, Init(0, 1), Viewed(1, 0, 1), 2, 3),
            (A, Claim(None), Held(2, 1, 1, 1), 2, 3),
            (A, HolderUpdate(2, 5), Fails(7), 0, 0),
            (A, HolderUpdate(0, 5), Fails(7), 0, 0),
            (A, HolderUpdate(1, 5), Viewed(3, 1, 5), 2, 3),
        ],
    ),
    (
        "a holder below the boundary looks most often",
        &[
            (A, Init(0, 1), Viewed(1, 0, 1), 2, 3),
            (A, Claim(None), Held(2, 1, 1, 1), 2, 3),
            (A, Boundary(b"5"), Is(true), 1, 0),
            (A, HolderUpdate(1, 2), Fails(5), 2, 5),
        ],
    ),
    (
        "a holder claims from an older view, and a greater epoch is claimed from its view",
        &[
            (A, Init(5, 0), Viewed(1, 5, 0), 2, 3),
            (B, Load, Viewed(1, 5, 0), 3, 5),
            (B, Update(6, 0), Viewed(2, 6, 0), 2, 3),
            (A, Claim(None), Held(3, 7, 0, 7), 6, 7),
            (A, HolderRefresh, Viewed(3, 7, 0), 2, 3),
            (A, HolderUpdate(7, 0), Viewed(4, 7, 0), 2, 3),
            (A, HolderUpdate(8, 0), Fails(7), 0, 0),
            (B, Refresh, Viewed(4, 7, 0), 4, 5),
            (B, ClaimAt(9, None), Held(5, 9, 0, 9), 2, 3),
            (A, HolderRefresh, Shut(5, 9, 0, 6), 3, 4),
            (B, ClaimAt(9, None), Fails(6), 0, 0),
        ],
    ),
];
