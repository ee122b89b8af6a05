//! A whole sample against a table that another program made, and the ends of samples.
use crate::tests::given::expect_same;
use crate::tests::in_words::{command_in_words, owned};
use base_sample::{MOST_CHANGES, Sample};
use std::alloc::Global;
use std::process::Abort;

/// The sample of 123456789 with 25 changes, as lines of a script, each text behind its arrival. This
/// program in Python 3 prints them:
///
/// ```text
/// s, c = 123456789 % 1000, 25
/// for i in range(1, c + 1):
///     d = (s + 7 * i) % 100 + 1
///     print(f"delete {d} {60 * i}" if i % 10 == 0 else
///           f"arrive {d} {60 * i} " + " ".join(f"w{(s + i * j) % 200}" for j in range(1, 6)))
/// for k in range(1, 9):
///     print(f"plan w{k} guarantee 3/2")
/// for q in range(1, 11):
///     print(f"find {60 * (c * q // 10)} w{q}")
/// print("verify")
/// ```
const LINES: [&str; 44] = [
    "arrive 97 60 w190 w191 w192 w193 w194",
    "arrive 4 120 w191 w193 w195 w197 w199",
    "arrive 11 180 w192 w195 w198 w1 w4",
    "arrive 18 240 w193 w197 w1 w5 w9",
    "arrive 25 300 w194 w199 w4 w9 w14",
    "arrive 32 360 w195 w1 w7 w13 w19",
    "arrive 39 420 w196 w3 w10 w17 w24",
    "arrive 46 480 w197 w5 w13 w21 w29",
    "arrive 53 540 w198 w7 w16 w25 w34",
    "delete 60 600",
    "arrive 67 660 w0 w11 w22 w33 w44",
    "arrive 74 720 w1 w13 w25 w37 w49",
    "arrive 81 780 w2 w15 w28 w41 w54",
    "arrive 88 840 w3 w17 w31 w45 w59",
    "arrive 95 900 w4 w19 w34 w49 w64",
    "arrive 2 960 w5 w21 w37 w53 w69",
    "arrive 9 1020 w6 w23 w40 w57 w74",
    "arrive 16 1080 w7 w25 w43 w61 w79",
    "arrive 23 1140 w8 w27 w46 w65 w84",
    "delete 30 1200",
    "arrive 37 1260 w10 w31 w52 w73 w94",
    "arrive 44 1320 w11 w33 w55 w77 w99",
    "arrive 51 1380 w12 w35 w58 w81 w104",
    "arrive 58 1440 w13 w37 w61 w85 w109",
    "arrive 65 1500 w14 w39 w64 w89 w114",
    "plan w1 guarantee 3/2",
    "plan w2 guarantee 3/2",
    "plan w3 guarantee 3/2",
    "plan w4 guarantee 3/2",
    "plan w5 guarantee 3/2",
    "plan w6 guarantee 3/2",
    "plan w7 guarantee 3/2",
    "plan w8 guarantee 3/2",
    "find 120 w1",
    "find 300 w2",
    "find 420 w3",
    "find 600 w4",
    "find 720 w5",
    "find 900 w6",
    "find 1020 w7",
    "find 1200 w8",
    "find 1320 w9",
    "find 1500 w10",
    "verify",
];

/// The next command of a sample in words; `finished` where there is none.
fn next_in_words(rt: &impl Abort, alloc: Global, sample: &mut Sample) -> String {
    match &sample.next_command(alloc).expect(rt, "memory") {
        Some(command) => command_in_words(rt, alloc, command),
        None => owned(rt, alloc, "finished"),
    }
}

/// The next command of a sample is this line.
fn expect_next(rt: &impl Abort, alloc: Global, sample: &mut Sample, line: &str) {
    expect_same(rt, next_in_words(rt, alloc, sample).as_str(), line);
}

/// Whether a sample has one command more, which is taken.
fn has_next(rt: &impl Abort, alloc: Global, sample: &mut Sample) -> bool {
    sample.next_command(alloc).expect(rt, "memory").is_some()
}

#[test]
fn a_sample_is_what_another_program_says(rt: HostRuntime) {
    let mut sample = Sample::new(123_456_789, 25);
    for line in &LINES {
        expect_next(&rt, rt.alloc(), &mut sample, line);
    }
    expect_next(&rt, rt.alloc(), &mut sample, "finished");
    expect_next(&rt, rt.alloc(), &mut sample, "finished");
}

#[test]
fn the_longest_sample_ends(rt: HostRuntime) {
    let mut sample = Sample::new(u64::MAX, MOST_CHANGES);
    let mut given = 0u32;
    for _ in 0..MOST_CHANGES + 19 {
        if has_next(&rt, rt.alloc(), &mut sample) {
            given = given.saturating_add(1);
        }
    }
    expect_same(&rt, given, MOST_CHANGES + 19);
    expect_next(&rt, rt.alloc(), &mut sample, "finished");
}
