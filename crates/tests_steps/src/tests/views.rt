//! Views: made, moved and written on.
use crate::tests::place::Scenario;
use crate::tests::place::Seat::{A, B};
use crate::tests::told::Told::{Fails, GoesOn, Is, Viewed};
use crate::tests::view_calls::Step;
use crate::tests::view_calls::Step::{Boundary, Has, Init, Load, Refresh, Update};

pub(crate) const SCENARIOS: &[Scenario<Step>] = &[
    (
        "an overtaken update leaves its view, which a refresh moves to what another client wrote",
        &[
            (A, Init(0, 1), Viewed(1, 0, 1), 2, 3),
            (B, Load, Viewed(1, 0, 1), 3, 5),
            (B, Update(0, 2), Viewed(2, 0, 2), 2, 3),
            (A, Update(0, 3), Fails(5), 1, 0),
            (A, Update(0, 4), Fails(5), 1, 0),
            (A, Refresh, Viewed(2, 0, 2), 3, 4),
            (A, Update(0, 5), Viewed(3, 0, 5), 2, 3),
            (B, Update(0, 6), Fails(5), 1, 0),
        ],
    ),
    (
        "the first version is written once",
        &[
            (A, Init(0, 1), Viewed(1, 0, 1), 2, 3),
            (B, Init(0, 2), Fails(5), 1, 0),
            (B, Load, Viewed(1, 0, 1), 3, 5),
        ],
    ),
    (
        "where nothing stands nothing is viewed",
        &[
            (A, Load, Fails(4), 1, 2),
            (A, Has(1, 0, 1), Viewed(1, 0, 1), 0, 0),
            (A, Refresh, Fails(7), 1, 2),
        ],
    ),
    (
        "a write below the boundary looks most often",
        &[
            (A, Boundary(b"5"), Is(true), 1, 0),
            (A, Init(0, 1), Fails(5), 2, 5),
            (B, Has(1, 0, 1), Viewed(1, 0, 1), 0, 0),
            (B, Update(0, 2), Fails(5), 2, 5),
        ],
    ),
    (
        "no id is above the greatest",
        &[
            (A, Has(u64::MAX, 0, 1), Viewed(u64::MAX, 0, 1), 0, 0),
            (A, Update(0, 2), Fails(10), 0, 0),
        ],
    ),
    (
        "a call that goes on leaves what it wrote",
        &[
            (A, Init(5, 0), GoesOn, 1, 0),
            (A, Init(5, 0), Fails(5), 1, 0),
            (A, Load, Viewed(1, 5, 0), 3, 5),
        ],
    ),
];
