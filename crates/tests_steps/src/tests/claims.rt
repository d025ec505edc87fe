//! Claims: of the next epoch or of one that is asked for, alone and overtaken.
use crate::tests::place::Scenario;
use crate::tests::place::Seat::{A, B};
use crate::tests::told::Told::{Fails, Held, Is, Viewed};
use crate::tests::view_calls::Step;
use crate::tests::view_calls::Step::{Boundary, Claim, ClaimAt, Has, Init, Load, Update};

pub(crate) const SCENARIOS: &[Scenario<Step>] = &[
    (
        "a claim holds with the next epoch",
        &[
            (A, Init(4, 1), Viewed(1, 4, 1), 2, 3),
            (A, Claim(None), Held(2, 5, 1, 5), 2, 3),
            (B, Load, Viewed(2, 5, 1), 3, 5),
        ],
    ),
    (
        "an overtaken claim goes on from the newest version",
        &[
            (A, Init(0, 1), Viewed(1, 0, 1), 2, 3),
            (A, Claim(Some((1, 3, 7))), Held(3, 4, 7, 4), 6, 7),
            (B, Load, Viewed(3, 4, 7), 3, 4),
        ],
    ),
    (
        "a claim below the boundary goes on above it",
        &[
            (A, Boundary(b"6"), Is(true), 1, 0),
            (B, Has(6, 0, 1), Viewed(6, 0, 1), 0, 0),
            (B, Update(0, 2), Viewed(7, 0, 2), 2, 4),
            (A, Has(1, 0, 1), Viewed(1, 0, 1), 0, 0),
            (A, Claim(None), Held(8, 1, 2, 1), 7, 15),
        ],
    ),
    (
        "no epoch is above the greatest",
        &[
            (A, Init(u64::MAX, 1), Viewed(1, u64::MAX, 1), 2, 3),
            (A, Claim(None), Fails(10), 0, 0),
            (A, Has(1, u64::MAX - 1, 1), Viewed(1, u64::MAX - 1, 1), 0, 0),
            (A, Claim(Some((1, u64::MAX, 2))), Fails(10), 4, 4),
            (B, Load, Viewed(2, u64::MAX, 2), 2, 3),
        ],
    ),
    (
        "a claim of an epoch holds with it",
        &[
            (A, Init(3, 1), Viewed(1, 3, 1), 2, 3),
            (A, ClaimAt(7, None), Held(2, 7, 1, 7), 2, 3),
            (B, Load, Viewed(2, 7, 1), 3, 5),
            (B, ClaimAt(9, Some((2, 8, 2))), Held(4, 9, 2, 9), 6, 7),
        ],
    ),
    (
        "a claim of an epoch that stands is fenced",
        &[
            (A, Init(3, 1), Viewed(1, 3, 1), 2, 3),
            (A, ClaimAt(3, None), Fails(6), 0, 0),
            (A, Load, Viewed(1, 3, 1), 2, 3),
            (A, ClaimAt(2, None), Fails(6), 0, 0),
        ],
    ),
    (
        "a claim of an epoch tests it after each conflict",
        &[
            (A, Init(0, 1), Viewed(1, 0, 1), 2, 3),
            (A, ClaimAt(2, Some((1, 5, 7))), Fails(6), 4, 4),
            (A, Load, Viewed(2, 5, 7), 2, 3),
        ],
    ),
];
