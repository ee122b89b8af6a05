//! Choices that were worked out by hand, or by a look at all choices of small offers.
ghost use Rattle.std.specs.Prelude.{◌≡◌, true};
ghost use Rattle.plans_share.specs.Steps.{AreCheap};

use super::given::{expect_same, expect_same_in};
use plans_share::{Choice, Offer, combine};
use plans_space::Point;
use std::alloc::Global;
use std::process::Abort;

/// A charge and a cost.
type Pair = (u64, u128);

/// The whole, and the points of the front.
type Plain = (Pair, &'static [Pair]);

/// Offers of few points, each with budgets and the least costs that a look at all choices gave.
const SMALL: &[(&[Plain], &[Pair])] = &[
    (
        &[
            ((1, 51), &[(1, 31), (1, 28)]),
            ((3, 59), &[(2, 23), (2, 15), (5, 8), (8, 1)]),
        ],
        &[
            (0, 110),
            (3, 43),
            (6, 36),
            (9, 29),
            (12, 29),
            (15, 29),
            (20, 29),
            (4096, 29),
        ],
    ),
    (
        &[
            ((4, 23), &[(1, 19)]),
            ((1, 41), &[]),
            ((5, 29), &[(0, 38), (0, 36), (1, 26), (4, 23)]),
            ((5, 43), &[]),
        ],
        &[
            (0, 136),
            (3, 136),
            (6, 136),
            (9, 129),
            (12, 126),
            (15, 126),
            (20, 126),
            (4096, 126),
        ],
    ),
    (
        &[
            ((4, 50), &[]),
            ((2, 26), &[(2, 31), (3, 22), (3, 18)]),
            ((6, 54), &[(0, 48), (0, 36)]),
        ],
        &[
            (0, 130),
            (3, 130),
            (6, 112),
            (9, 104),
            (12, 104),
            (15, 104),
            (20, 104),
            (4096, 104),
        ],
    ),
    (
        &[
            ((2, 42), &[(1, 49), (3, 38), (4, 28), (5, 24)]),
            ((2, 32), &[]),
            ((1, 37), &[(3, 31)]),
        ],
        &[
            (0, 111),
            (3, 111),
            (6, 107),
            (9, 91),
            (12, 87),
            (15, 87),
            (20, 87),
            (4096, 87),
        ],
    ),
    (
        &[
            ((3, 43), &[]),
            ((2, 50), &[(1, 36)]),
            ((5, 20), &[(3, 56), (3, 45)]),
            ((6, 32), &[(3, 26), (5, 24), (8, 16)]),
        ],
        &[
            (0, 145),
            (3, 145),
            (6, 145),
            (9, 145),
            (12, 125),
            (15, 123),
            (20, 115),
            (4096, 115),
        ],
    ),
    (
        &[((6, 30), &[]), ((2, 57), &[(3, 56)])],
        &[
            (0, 87),
            (3, 87),
            (6, 87),
            (9, 86),
            (12, 86),
            (15, 86),
            (20, 86),
            (4096, 86),
        ],
    ),
];

/// The point of this charge and cost.
fn point((charge, cost): Pair) -> Point {
    Point { charge, cost }
}

/// The offer of a whole and a front.
fn offered(rt: &impl Abort, alloc: Global, (whole, points): Plain) -> Offer {
    let mut front = Vec::new(alloc);
    for pair in points {
        front.push(point(*pair)).expect(rt, "memory");
    }
    Offer::new(point(whole), front)
}

/// The offers of a table.
fn offers_of(rt: &impl Abort, alloc: Global, table: &[Plain]) -> Vec<Offer> {
    let mut offers = Vec::new(alloc);
    for plain in table {
        offers.push(offered(rt, alloc, *plain)).expect(rt, "memory");
    }
    offers
}

/// The highest cost.
const MOST: u128 = (1 << 100) - 1;

/// Whether an offer has no cost that is too high for a choice.
fn is_cheap(offer: &Offer) -> bool
    ensures { result ≡ true → AreCheap offer.now }
{
    offer.whole().cost <= MOST && offer.front().iter().all(|p| p.cost <= MOST)
}

/// What is chosen.
fn chosen(rt: &impl Abort, alloc: Global, offers: &[Offer], budget: u64) -> Choice {
    assert!(rt; offers.len() <= 16 && budget <= 4096);
    assert!(rt; offers.iter().all(|o| o.front().len() <= 4097));
    assert!(rt; offers.iter().all(|o| is_cheap(o)));
    combine(alloc, offers, budget).expect(rt, "memory")
}

/// The charge and the cost of picks together, one of each offer.
fn totals(rt: &impl Abort, offers: &[Offer], picks: &[usize]) -> Pair {
    expect_same(rt, picks.len(), offers.len());
    let mut charges = 0u64;
    let mut costs = 0u128;
    for (offer, pick) in offers.iter().zip(picks) {
        assert!(rt; *pick <= offer.front().len());
        let point = offer.point(*pick);
        charges = charges.saturating_add(point.charge);
        costs = costs.saturating_add(point.cost);
    }
    (charges, costs)
}

/// The choice costs so much, is told so, and may be taken.
fn expect_costs(rt: &impl Abort, alloc: Global, offers: &[Offer], (budget, cost): Pair) {
    let choice = chosen(rt, alloc, offers, budget);
    let (charges, costs) = totals(rt, offers, &choice.picks);
    expect_same_in(rt, budget, (choice.cost, costs), (cost, cost));
    let is_kept = charges <= budget || choice.picks.iter().all(|k| *k == 0);
    expect_same_in(rt, budget, is_kept, true);
}

/// Offers with these budgets cost so much.
fn expect_chosen(rt: &impl Abort, alloc: Global, table: &[Plain], wanted: &[Pair]) {
    let offers = offers_of(rt, alloc, table);
    for pair in wanted {
        expect_costs(rt, alloc, &offers, *pair);
    }
}

#[test]
fn small_offers_beside_all_choices(rt: HostRuntime) {
    for (table, wanted) in SMALL {
        expect_chosen(&rt, rt.alloc(), table, wanted);
    }
}

/// Offers of one word, and budgets with the least costs.
const ALONE: [(Plain, &[Pair]); 3] = [
    // the whole, which may be taken whatever it is charged
    (((u64::MAX, 9), &[]), &[(0, 9), (4096, 9)]),
    // the point of which the charge is the budget; and those past any budget
    (
        ((2, 6), &[(2, 6), (3, 4), (4097, 1), (u64::MAX, 0)]),
        &[(0, 6), (1, 6), (2, 6), (3, 4), (4, 4), (4096, 4)],
    ),
    // two points of one charge, and a dearer one behind
    (
        ((5, 50), &[(0, 40), (0, 30), (1, 45)]),
        &[(0, 30), (4096, 30)],
    ),
];

#[test]
fn no_word_and_one_word(rt: HostRuntime) {
    expect_chosen(&rt, rt.alloc(), &[], &[(0, 0), (4096, 0)]);
    for (word, wanted) in &ALONE {
        expect_chosen(&rt, rt.alloc(), &[*word], wanted);
    }
}

/// Alone this word would spend two more units on 1 of cost less.
const ONE: Plain = ((1, 10), &[(1, 10), (3, 9)]);

/// This one would spend them on 90.
const OTHER: Plain = ((1, 100), &[(1, 100), (3, 10)]);

#[test]
fn the_budget_is_not_filled_word_by_word(rt: HostRuntime) {
    let alloc = rt.alloc();
    let wanted = [(1, 110), (3, 110), (4, 20), (5, 20), (6, 19)];
    expect_chosen(&rt, alloc, &[ONE, OTHER], &wanted);
    expect_chosen(&rt, alloc, &[OTHER, ONE], &wanted);
    // one word twice counts twice
    expect_chosen(&rt, alloc, &[OTHER, OTHER], &[(3, 200), (4, 110), (6, 20)]);
}

/// Budgets, and the least costs of sixteen words with the same offer.
const SIXTEEN: [Pair; 10] = [
    (0, 160),
    (15, 160),
    (16, 128),
    (17, 124),
    (20, 112),
    (32, 64),
    (33, 61),
    (47, 19),
    (48, 16),
    (4096, 16),
];

#[test]
fn sixteen_words(rt: HostRuntime) {
    let word: Plain = ((2, 10), &[(1, 8), (2, 4), (3, 1)]);
    expect_chosen(&rt, rt.alloc(), &[word; 16], &SIXTEEN);
}

#[test]
fn sixteen_words_of_the_highest_costs(rt: HostRuntime) {
    let word: Plain = ((0, MOST), &[(1, MOST - 1)]);
    let wanted = [(0, 16 * MOST), (16, 16 * MOST - 16), (4096, 16 * MOST - 16)];
    expect_chosen(&rt, rt.alloc(), &[word; 16], &wanted);
}
