//! Plans that were worked out by hand.
use super::given::{expect_same, expect_same_in, posting};
use base_commands::Kind;
use base_types::{Fraction, Posting, Time};
use plans_choice::{Choice, ChoiceError, choose};
use std::alloc::Global;
use std::process::Abort;

/// The kind that asks for each second from this one on.
fn since(rt: &impl Abort, at: u64) -> Kind {
    let at = Time::new(at).expect(rt, "a time");
    Kind::Since { at }
}

/// What is chosen for a list up to the horizon with the factor `over / under`, or why nothing is.
fn chosen(
    rt: &impl Abort,
    alloc: Global,
    list: &[Posting],
    kind: Kind,
    (over, under): (u32, u32),
    horizon: u64,
) -> Result<Choice, ChoiceError> {
    let factor = Fraction::new(over, under).expect(rt, "a factor");
    let horizon = Time::new(horizon).expect(rt, "a horizon");
    let end = horizon.seconds();
    assert!(rt; !list.is_empty() && list.len() < 1 << 38);
    assert!(rt; list.iter().all(|p| p.span.to <= end));
    choose(alloc, list, kind, factor, horizon)
}

/// Of document 1 in `[10, 40)` and document 2 in `[20, 30)` a plan with so many segments, this space and this
/// cost is chosen.
fn expect_choice(
    rt: &impl Abort,
    alloc: Global,
    kind: Kind,
    factor: (u32, u32),
    (segments, space, cost): (usize, u64, Option<u128>),
) {
    let list = [posting(rt, 1, 10, 40), posting(rt, 2, 20, 30)];
    let choice = chosen(rt, alloc, &list, kind, factor, 40).expect(rt, "a choice");
    let found = (choice.cuts.len(), choice.space, choice.cost);
    expect_same_in(rt, (kind, factor), found, (segments, space, cost));
}

#[test]
fn plans_of_two_documents(rt: HostRuntime) {
    let alloc = rt.alloc();
    expect_choice(&rt, alloc, Kind::Guarantee, (1, 1), (3, 4, None));
    // 2 in each of 30 seconds
    expect_choice(&rt, alloc, Kind::Uniform, (1, 1), (1, 2, Some(60)));
    // 1 in 10 seconds, and 2 in 20
    expect_choice(&rt, alloc, Kind::Uniform, (3, 2), (2, 3, Some(50)));
    // 1 in 20 seconds, and 2 in 10
    expect_choice(&rt, alloc, Kind::Uniform, (2, 1), (3, 4, Some(40)));
    // 2 in each of the last 10 seconds
    expect_choice(&rt, alloc, since(&rt, 30), (1, 1), (1, 2, Some(20)));
}

/// A plan of the same two documents cuts at 10, 20 and 30.
fn expect_each_cut(rt: &impl Abort, alloc: Global, kind: Kind, factor: (u32, u32)) {
    let list = [posting(rt, 1, 10, 40), posting(rt, 2, 20, 30)];
    let choice = chosen(rt, alloc, &list, kind, factor, 40).expect(rt, "a choice");
    expect_same_in(rt, kind, choice.cuts.len(), 3);
    for (cut, wanted) in choice.cuts.iter().zip(&[10, 20, 30]) {
        expect_same_in(rt, kind, cut.seconds, *wanted);
    }
}

#[test]
fn plans_that_cut_at_each_boundary(rt: HostRuntime) {
    expect_each_cut(&rt, rt.alloc(), Kind::Guarantee, (1, 1));
    expect_each_cut(&rt, rt.alloc(), Kind::Uniform, (2, 1));
}

/// One document with a posting in each second, so many.
fn in_each_second(rt: &impl Abort, alloc: Global, seconds: u64) -> Vec<Posting> {
    let mut list = Vec::new(alloc);
    for at in 0..seconds {
        let next = posting(rt, 1, at, at.saturating_add(1));
        list.push(next).expect(rt, "memory");
    }
    list
}

/// So many seconds have one boundary too many for a guarantee.
fn expect_too_wide(rt: &impl Abort, alloc: Global, seconds: u64) {
    let list = in_each_second(rt, alloc, seconds);
    let refused = chosen(rt, alloc, &list, Kind::Guarantee, (2, 1), seconds);
    let boundaries = seconds.saturating_add(1);
    expect_same(rt, refused.err(), Some(ChoiceError::TooWide { boundaries }));
    let choice = chosen(rt, alloc, &list, Kind::Uniform, (2, 1), seconds);
    expect_same(rt, choice.expect(rt, "a choice").space, seconds);
}

#[test]
fn a_list_that_is_too_wide(rt: HostRuntime) {
    expect_too_wide(&rt, rt.alloc(), 1_048_576);
}
