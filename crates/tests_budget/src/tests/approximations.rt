//! Approximate lists that were worked out by hand, or by a look at all ways to cut small lists.
ghost use Rattle.lists_postings.specs.Lists.{IsList};

use super::given::{Part, expect_same_in, listed};
use base_types::{NOW, Posting, Tolerance};
use lists_approx::approximate;
use std::alloc::Global;
use std::process::Abort;

/// A tolerance, and the list that comes of it.
type Wanted = ((u32, u32), &'static [Part]);

/// A list, and what comes of it by tolerances.
type Row = (&'static [Part], &'static [Wanted]);

/// Small lists, each with what a look at all ways to cut them gave.
const SMALL: &[Row] = &[
    (
        &[
            (1, 0, 1, 8),
            (1, 1, 2, 10),
            (1, 2, 4, 11),
            (1, 4, 5, 2),
            (1, 5, 7, 8),
            (2, 0, 1, 3),
            (2, 2, 4, 2),
            (2, 5, 6, 5),
        ],
        &[
            (
                (0, 1),
                &[
                    (1, 0, 1, 8),
                    (1, 1, 2, 10),
                    (1, 2, 4, 11),
                    (1, 4, 5, 2),
                    (1, 5, 7, 8),
                    (2, 0, 1, 3),
                    (2, 2, 4, 2),
                    (2, 5, 6, 5),
                ],
            ),
            (
                (1, 4),
                &[
                    (1, 0, 4, 9),
                    (1, 4, 5, 2),
                    (1, 5, 7, 6),
                    (2, 0, 1, 3),
                    (2, 2, 4, 2),
                    (2, 5, 6, 4),
                ],
            ),
            (
                (1, 2),
                &[
                    (1, 0, 4, 6),
                    (1, 4, 5, 1),
                    (1, 5, 7, 4),
                    (2, 0, 1, 2),
                    (2, 2, 4, 1),
                    (2, 5, 6, 3),
                ],
            ),
            (
                (9, 10),
                &[(1, 0, 7, 2), (2, 0, 1, 1), (2, 2, 4, 1), (2, 5, 6, 1)],
            ),
        ],
    ),
    (
        &[
            (1, 1, 2, 11),
            (1, 3, 5, 2),
            (1, 5, 6, 10),
            (2, 0, 2, 8),
            (2, 2, 3, 11),
            (2, 3, 4, 3),
            (2, 5, 6, 7),
        ],
        &[
            (
                (0, 1),
                &[
                    (1, 1, 2, 11),
                    (1, 3, 5, 2),
                    (1, 5, 6, 10),
                    (2, 0, 2, 8),
                    (2, 2, 3, 11),
                    (2, 3, 4, 3),
                    (2, 5, 6, 7),
                ],
            ),
            (
                (1, 4),
                &[
                    (1, 1, 2, 9),
                    (1, 3, 5, 2),
                    (1, 5, 6, 8),
                    (2, 0, 3, 9),
                    (2, 3, 4, 3),
                    (2, 5, 6, 6),
                ],
            ),
            (
                (1, 2),
                &[
                    (1, 1, 2, 6),
                    (1, 3, 5, 1),
                    (1, 5, 6, 5),
                    (2, 0, 3, 6),
                    (2, 3, 4, 2),
                    (2, 5, 6, 4),
                ],
            ),
            (
                (9, 10),
                &[(1, 1, 2, 2), (1, 3, 6, 1), (2, 0, 4, 2), (2, 5, 6, 1)],
            ),
        ],
    ),
    (
        &[
            (1, 0, 1, 11),
            (1, 1, 2, 9),
            (1, 3, 5, 7),
            (1, 5, 7, 7),
            (2, 0, 1, 4),
            (2, 1, 2, 11),
            (2, 2, 4, 7),
            (2, 4, 6, 11),
        ],
        &[
            (
                (0, 1),
                &[
                    (1, 0, 1, 11),
                    (1, 1, 2, 9),
                    (1, 3, 7, 7),
                    (2, 0, 1, 4),
                    (2, 1, 2, 11),
                    (2, 2, 4, 7),
                    (2, 4, 6, 11),
                ],
            ),
            (
                (1, 4),
                &[
                    (1, 0, 2, 9),
                    (1, 3, 7, 6),
                    (2, 0, 1, 3),
                    (2, 1, 2, 9),
                    (2, 2, 4, 6),
                    (2, 4, 6, 9),
                ],
            ),
            ((1, 2), &[(1, 0, 2, 6), (1, 3, 7, 4), (2, 0, 6, 6)]),
            ((9, 10), &[(1, 0, 2, 2), (1, 3, 7, 1), (2, 0, 6, 2)]),
        ],
    ),
    (
        &[
            (1, 0, 1, 10),
            (1, 1, 2, 7),
            (1, 2, 4, 8),
            (1, 4, 5, 10),
            (2, 0, 2, 11),
            (2, 2, 4, 3),
            (2, 4, 6, 9),
        ],
        &[
            (
                (0, 1),
                &[
                    (1, 0, 1, 10),
                    (1, 1, 2, 7),
                    (1, 2, 4, 8),
                    (1, 4, 5, 10),
                    (2, 0, 2, 11),
                    (2, 2, 4, 3),
                    (2, 4, 6, 9),
                ],
            ),
            (
                (1, 4),
                &[(1, 0, 5, 8), (2, 0, 2, 9), (2, 2, 4, 3), (2, 4, 6, 7)],
            ),
            (
                (1, 2),
                &[(1, 0, 5, 5), (2, 0, 2, 6), (2, 2, 4, 2), (2, 4, 6, 5)],
            ),
            ((9, 10), &[(1, 0, 5, 1), (2, 0, 6, 2)]),
        ],
    ),
    (
        &[
            (1, 0, 1, 6),
            (1, 2, 4, 6),
            (1, 4, 6, 2),
            (2, 0, 2, 4),
            (2, 3, 4, 9),
            (2, 4, 5, 6),
            (2, 5, 6, 8),
        ],
        &[
            (
                (0, 1),
                &[
                    (1, 0, 1, 6),
                    (1, 2, 4, 6),
                    (1, 4, 6, 2),
                    (2, 0, 2, 4),
                    (2, 3, 4, 9),
                    (2, 4, 5, 6),
                    (2, 5, 6, 8),
                ],
            ),
            (
                (1, 4),
                &[
                    (1, 0, 1, 5),
                    (1, 2, 4, 5),
                    (1, 4, 6, 2),
                    (2, 0, 2, 3),
                    (2, 3, 6, 7),
                ],
            ),
            (
                (1, 2),
                &[(1, 0, 1, 3), (1, 2, 6, 3), (2, 0, 2, 2), (2, 3, 6, 5)],
            ),
            (
                (9, 10),
                &[(1, 0, 1, 1), (1, 2, 6, 1), (2, 0, 2, 1), (2, 3, 6, 1)],
            ),
        ],
    ),
    (
        &[
            (1, 0, 2, 3),
            (1, 2, 4, 8),
            (1, 5, 7, 4),
            (2, 0, 2, 8),
            (2, 2, 4, 5),
            (2, 4, 5, 4),
            (2, 5, 6, 12),
        ],
        &[
            (
                (0, 1),
                &[
                    (1, 0, 2, 3),
                    (1, 2, 4, 8),
                    (1, 5, 7, 4),
                    (2, 0, 2, 8),
                    (2, 2, 4, 5),
                    (2, 4, 5, 4),
                    (2, 5, 6, 12),
                ],
            ),
            (
                (1, 4),
                &[
                    (1, 0, 2, 3),
                    (1, 2, 4, 6),
                    (1, 5, 7, 3),
                    (2, 0, 4, 6),
                    (2, 4, 5, 3),
                    (2, 5, 6, 9),
                ],
            ),
            ((1, 2), &[(1, 0, 4, 4), (1, 5, 7, 2), (2, 0, 6, 6)]),
            ((9, 10), &[(1, 0, 4, 1), (1, 5, 7, 1), (2, 0, 6, 2)]),
        ],
    ),
];

/// The list within a tolerance is approximated by this one.
fn expect_near(
    rt: &impl Abort,
    alloc: Global,
    list: &[Posting],
    tolerance: (u32, u32),
    near: &[Part],
)
    requires { IsList list.now }
{
    let (part, whole) = tolerance;
    let tolerance = Tolerance::new(part, whole).expect(rt, "a tolerance");
    let short = approximate(alloc, list, tolerance).expect(rt, "memory");
    let wanted = listed(rt, alloc, near);
    expect_same_in(rt, (part, whole), short.as_slice(), wanted.as_slice());
}

/// Each tolerance gives the list that is wanted.
fn expect_approximated(rt: &impl Abort, alloc: Global, parts: &[Part], wanted: &[Wanted]) {
    let list = listed(rt, alloc, parts);
    for (tolerance, near) in wanted {
        expect_near(rt, alloc, &list, *tolerance, near);
    }
}

/// 4, 5 and 6 times.
const GROWING: &[Part] = &[(1, 10, 20, 4), (1, 20, 30, 5), (1, 30, 40, 6)];

#[test]
fn the_lists_of_a_growing_text(rt: HostRuntime) {
    let wanted: &[Wanted] = &[
        ((0, 1), GROWING),
        ((1, 4), &[(1, 10, 40, 5)]),
        ((1, 5), &[(1, 10, 30, 4), (1, 30, 40, 5)]),
    ];
    expect_approximated(&rt, rt.alloc(), GROWING, wanted);
}

/// One frequency, and then the same document after a gap, and another one.
const TOUCHING: &[Part] = &[
    (1, 10, 20, 3),
    (1, 20, NOW, 3),
    (2, 5, 6, 3),
    (2, 7, 8, 3),
    (3, 8, 9, 3),
];

const JOINED: &[Part] = &[(1, 10, NOW, 3), (2, 5, 6, 3), (2, 7, 8, 3), (3, 8, 9, 3)];

#[test]
fn what_the_tolerance_0_joins(rt: HostRuntime) {
    let wanted: &[Wanted] = &[((0, 1), JOINED), ((0, u32::MAX), JOINED), ((1, 4), JOINED)];
    expect_approximated(&rt, rt.alloc(), TOUCHING, wanted);
    let none: &[Wanted] = &[((0, 1), &[]), ((1, 2), &[])];
    expect_approximated(&rt, rt.alloc(), &[], none);
}

/// The highest frequency, and the highest denominator.
const MOST: u32 = u32::MAX;

/// Whole numbers of 32 bits, and tolerances that are nearly 0 and nearly 1.
const WIDEST: &[Row] = &[
    // 1 is near the highest frequency, and no less is near 1
    (
        &[(7, 0, 1, 1), (7, 1, 2, MOST)],
        &[((MOST - 1, MOST), &[(7, 0, 2, 1)])],
    ),
    (
        &[(7, 0, 1, MOST), (7, 1, 2, 1)],
        &[((MOST - 1, MOST), &[(7, 0, 2, 1)])],
    ),
    (
        &[(7, 0, 1, 2), (7, 1, 2, MOST)],
        &[((MOST - 1, MOST), &[(7, 0, 2, 1)])],
    ),
    (
        &[(7, 0, 1, MOST), (7, 1, 2, MOST)],
        &[((0, 1), &[(7, 0, 2, MOST)])],
    ),
    // 2^32 - 2 is near both by 1 in 2^32 - 1 alone
    (
        &[(7, 0, 1, MOST - 1), (7, 1, 2, MOST)],
        &[
            ((0, 1), &[(7, 0, 1, MOST - 1), (7, 1, 2, MOST)]),
            ((1, MOST), &[(7, 0, 2, MOST - 1)]),
        ],
    ),
    // 2^31 is the least that is near 2^32 - 1, and what is near 2^30 is below
    (
        &[(7, 0, 1, 1 << 30), (7, 1, 2, MOST)],
        &[((1, 2), &[(7, 0, 1, 1 << 29), (7, 1, 2, 1 << 31)])],
    ),
    (
        &[(7, 0, 1, 1 << 31), (7, 1, 2, MOST)],
        &[((1, 2), &[(7, 0, 2, 1 << 31)])],
    ),
];

#[test]
fn the_widest_frequencies_and_tolerances(rt: HostRuntime) {
    for (parts, wanted) in WIDEST {
        expect_approximated(&rt, rt.alloc(), parts, wanted);
    }
}

/// Each list is the only one that is longest first among all ways to cut the seconds of its documents.
#[test]
fn small_lists_beside_all_approximations(rt: HostRuntime) {
    for (parts, wanted) in SMALL {
        expect_approximated(&rt, rt.alloc(), parts, wanted);
    }
}
