//! Words of a command line that ask for something, and words that do not.
use crate::tests::given::{expect_same, expect_same_in};
use run_words::{FirstEntry, SampleNumbers, Task, WordsError, read_words};
use std::alloc::Global;
use std::process::Abort;

/// The words between the spaces of a line.
fn words_of(rt: &impl Abort, alloc: Global, line: &str) -> Vec<String> {
    let mut words = Vec::new(alloc);
    for word in line.split(' ') {
        let word = String::from_str(alloc, word).expect(rt, "memory");
        words.push(word).expect(rt, "memory");
    }
    words
}

/// The numbers of the sample that the words of a line ask for; None where they are refused.
fn sample_in(rt: &impl Abort, alloc: Global, line: &str) -> Option<(u64, u32)> {
    let words = words_of(rt, alloc, line);
    match read_words(alloc, &words) {
        Ok(Task::Generate(SampleNumbers { seed, count })) => Some((seed, count)),
        Err(WordsError::Refused) => None,
        other => {
            assert!(rt; false, "{other:?}");
            None
        }
    }
}

/// The words of a line ask for this sample, or are refused.
fn expect_sample(rt: &impl Abort, alloc: Global, line: &str, sample: Option<(u64, u32)>) {
    expect_same_in(rt, line, sample_in(rt, alloc, line), sample);
}

/// These words ask for the script.
fn expect_script(rt: &impl Abort, alloc: Global, words: &[String]) {
    expect_same(rt, read_words(alloc, words), Ok(Task::Script));
}

#[test]
fn no_option_asks_for_the_script(rt: HostRuntime) {
    expect_script(&rt, rt.alloc(), &[]);
    expect_script(&rt, rt.alloc(), &words_of(&rt, rt.alloc(), "--"));
}

/// Lines that ask for a sample, and its numbers.
const SAMPLES: [(&str, (u64, u32)); 8] = [
    ("--generate 0 --count 2", (0, 2)),
    ("--count 2 --generate 0", (0, 2)),
    ("--generate=7 --count=5000", (7, 5000)),
    ("--count=5000 --generate 7", (7, 5000)),
    ("--generate 007 --count 0000000000000000001", (7, 1)),
    ("--generate 7 --count 100000", (7, 100_000)),
    (
        "--generate 9999999999999999999 --count 1",
        (9_999_999_999_999_999_999, 1),
    ),
    ("--generate 0 --count 2 --", (0, 2)),
];

#[test]
fn both_options_ask_for_a_sample(rt: HostRuntime) {
    for (line, sample) in &SAMPLES {
        expect_sample(&rt, rt.alloc(), line, Some(*sample));
    }
}

/// Lines that ask for an export, and the number of its first entry.
const EXPORTS: [(&str, u64); 6] = [
    ("--export 1", 1),
    ("--export=5", 5),
    ("--export 007", 7),
    ("--export 0000000000000000001", 1),
    ("--export 9999999999999999999", 9_999_999_999_999_999_999),
    ("--export 1 --", 1),
];

#[test]
fn one_option_asks_for_an_export(rt: HostRuntime) {
    for (line, number) in &EXPORTS {
        let words = words_of(&rt, rt.alloc(), line);
        let from = match read_words(rt.alloc(), &words) {
            Ok(Task::Export(FirstEntry { number })) => Some(number),
            _ => None,
        };
        expect_same_in(&rt, line, from, Some(*number));
    }
}

/// Lines that ask for the packets of the standard input.
const FOLLOWS: [&str; 2] = ["--follow", "--follow --"];

#[test]
fn the_flag_asks_for_packets(rt: HostRuntime) {
    for line in &FOLLOWS {
        let words = words_of(&rt, rt.alloc(), line);
        expect_same_in(&rt, line, read_words(rt.alloc(), &words), Ok(Task::Follow));
    }
}

/// Lines that ask for nothing.
const REFUSED: [&str; 73] = [
    "--generate",
    "--count",
    "--generate 0",
    "--count 2",
    "--generate --count 2",
    "--generate 0 --count",
    "--generate 0 --count 0",
    "--generate 0 --count 100001",
    "--generate 0 --count 00000000000000000001",
    "--generate 10000000000000000000 --count 2",
    "--generate 00000000000000000000 --count 2",
    "--generate +5 --count 2",
    "--generate -1 --count 2",
    "--generate=-1 --count 2",
    "--generate= --count 2",
    "--generate  --count 2",
    "--generate 0 --count ",
    "--generate 1a --count 2",
    "--generate 0x1 --count 2",
    "--generate 0 --count 2.0",
    "--generate ٣ --count 2",
    "--help",
    "-h",
    "--generate 0 --count 2 --help",
    "--version",
    "-V",
    "help",
    "",
    " ",
    "-",
    "-- 7",
    "--generate 0 --count 2 7",
    "--generate 0 1 --count 2",
    "--generate 0 --generate 0 --count 2",
    "--generate 0 --count 2 --count 2",
    "--gen 0 --count 2",
    "-generate 0 --count 2",
    "--Generate 0 --count 2",
    "--verbose",
    "--export",
    "--export=",
    "--export 0",
    "--export 0000000000000000000",
    "--export 00000000000000000001",
    "--export 10000000000000000000",
    "--export -1",
    "--export 1a",
    "--export 1 2",
    "--export 1 --export 1",
    "--export 1 --generate 0 --count 2",
    "--export 1 --count 2",
    "--exp 1",
    "--follow --follow",
    "--follow=1",
    "--follow=",
    "--follow=true",
    "--follow=false",
    "--follow 1",
    "--follow --export 1",
    "--export 1 --follow",
    "--follow --generate 0 --count 2",
    "--generate 0 --count 2 --follow",
    "--follow --generate 0",
    "--count 2 --follow",
    "--export --follow",
    "--export=--follow",
    "--generate --follow --count 2",
    "--generate 0 --count=--follow",
    "--follow --help",
    "-- --follow",
    "-f",
    "--fol",
    "follow",
];

#[test]
fn other_words_are_refused(rt: HostRuntime) {
    for line in &REFUSED {
        expect_sample(&rt, rt.alloc(), line, None);
    }
}
