//! Which spans a load is asked for.
ghost use Rattle.std.specs.Prelude.{◌≤◌, ◌^◌};

use crate::tests::given::{OVERLAP, expect_same, factor, listed, table_of};
use base_types::Span;
use plans_space::{Load, front, plan};
use std::alloc::Global;
use std::cell::RefCell;
use std::process::Abort;

/// The span's seconds; notes the call, if there is memory.
fn noted(calls: &RefCell<Vec<Span>>, span: Span) -> u64
    ensures { result ≤ 2 ^ 40 }
{
    if let Ok(mut calls) = calls.try_borrow_mut() {
        let _ = calls.push(span);
    }
    span.to - span.from
}

/// The elementary intervals of the documents that overlap, up to 50, for two calls.
const ASKED: [(u64, u64); 8] = [
    (10, 20),
    (20, 30),
    (30, 40),
    (40, 50),
    (10, 20),
    (20, 30),
    (30, 40),
    (40, 50),
];

/// The ends of spans.
fn ends_of(rt: &impl Abort, alloc: Global, spans: &[Span]) -> Vec<(u64, u64)> {
    let mut ends = Vec::new(alloc);
    for span in spans {
        ends.push((span.from, span.to)).expect(rt, "memory");
    }
    ends
}

/// Each call asks once for each elementary interval.
#[test]
fn a_load_is_asked_once_for_each_elementary_interval(rt: HostRuntime) {
    let alloc = rt.alloc();
    let table = table_of(&rt, alloc, &listed(&rt, alloc, OVERLAP), 50);
    let calls = RefCell::new(Vec::new(alloc));
    let load = Load::new(|span: Span| noted(&calls, span));
    let _ = front(alloc, &table, factor(&rt, 2, 1), &load).expect(&rt, "a front");
    let _ = plan(alloc, &table, factor(&rt, 2, 1), &load).expect(&rt, "a plan");
    let Ok(calls) = calls.try_borrow() else {
        panic!(rt; "the calls");
    };
    expect_same(&rt, ends_of(&rt, alloc, &calls).as_slice(), &ASKED[..]);
}
