//! Offers, and choices among them.
ghost use Rattle.std.specs.Prelude.{◌≡◌, ◌≤◌, length};
ghost use Rattle.plans_share.specs.Choices.{picked};

use plans_space::Point;
use std::marker::Model;

/// What is offered for a word: its list in one piece, and the points of a front.
#[derive(Debug, Drop)]
pub struct Offer {
    whole: Point,
    front: Vec<Point>,
}

impl Model for Offer {
    ghost use Rattle.plans_share.specs.Choices.{Offered};

    ghost Value = { Offered };

    ghost view = { λ o. record { whole = o.whole; front = o.front.items } };
}

/// One pick of each offer, and what the picks are expected to cost together.
#[derive(Debug, Drop)]
pub struct Choice {
    /// 0 for the whole, and otherwise the place in the front, counted from 1.
    pub picks: Vec<usize>,
    /// The sum of the costs.
    pub cost: u128,
}

impl Offer {
    /// The offer of a whole and of points at which the least cost falls as more is charged. Constant cost.
    pub fn new(whole: Point, front: Vec<Point>) -> Offer
        ensures { result ≡ record { whole = whole; front = front.items } }
    {
        Offer { whole, front }
    }

    /// The one piece. Constant cost.
    pub fn whole(&self) -> Point
        ensures { result ≡ self.now.whole }
    {
        self.whole
    }

    /// The points of the front. Constant cost.
    pub fn front(&self) -> &[Point]
        ensures { result.now ≡ self.now.front }
    {
        self.front.as_slice()
    }

    /// The point that a pick takes. Constant cost.
    pub fn point(&self, pick: usize) -> Point
        requires there { pick ≤ length self.now.front }
        ensures { result ≡ picked self.now pick }
    {
        if pick == 0 {
            self.whole
        } else {
            self.front[pick - 1]
        }
    }
}
