//! What the words of the command line ask for.
ghost use Rattle.std.specs.Prelude.{◌≡◌, ◌<◌, ◌≤◌, ◌^◌, ◌↔◌, IsSome, IfSome};

/// The most changes of documents that a sample may have.
pub const MOST_COUNT: u64 = 100_000;

/// What the program is asked to do.
#[derive(Clone, Copy, Debug, PartialEq, Eq)]
pub enum Task {
    /// Carry out the commands of the standard input: no option is given.
    Script,
    /// Carry out the commands of a sample: `--generate SEED --count COUNT`.
    Generate(SampleNumbers),
    /// Show the entries from a number on as packets: `--export FROM`.
    Export(FirstEntry),
    /// Take the packets of the standard input into the archive: `--follow`.
    Follow,
}

/// The number of the first entry that is exported, from 1 on. It has at most nineteen digits.
#[derive(Clone, Copy, Debug, PartialEq, Eq)]
pub struct FirstEntry {
    /// The number.
    pub number: u64,
    pub ghost some: { 1 ≤ number },
}

impl FirstEntry {
    /// The entry of a number; None of 0, which no entry has. Constant cost.
    pub fn new(number: u64) -> Option<FirstEntry>
        ensures valid { IsSome result ↔ (1 ≤ number) }
        ensures value { IfSome result (λ first. first.number ≡ number) }
    {
        if number > 0 {
            Some(FirstEntry { number })
        } else {
            None
        }
    }
}

/// The two numbers that a sample of commands is made from.
#[derive(Clone, Copy, Debug, PartialEq, Eq)]
pub struct SampleNumbers {
    /// Chooses the documents and the words of their texts; it has at most nineteen digits.
    pub seed: u64,
    /// How many changes of documents there are, from 1 to `MOST_COUNT`.
    pub count: u32,
    pub ghost nineteen_digits: { seed < 10 ^ 19 },
    pub ghost not_empty: { 1 ≤ count },
    pub ghost at_most: { count ≤ 100000 },
}

impl SampleNumbers {
    /// The sample of these two numbers; None where the seed has more than nineteen digits, or the
    /// count isn't from 1 to `MOST_COUNT`. Constant cost.
    pub fn new(seed: u64, count: u64) -> Option<SampleNumbers>
        ensures valid { IsSome result ↔ ((seed < 10 ^ 19) × (1 ≤ count) × (count ≤ 100000)) }
        ensures value { IfSome result (λ s. (s.seed ≡ seed) × (s.count ≡ count)) }
    {
        if seed < 10_000_000_000_000_000_000 && 1 <= count && count <= MOST_COUNT {
            Some(SampleNumbers {
                seed,
                count: count as u32,
            })
        } else {
            None
        }
    }
}
