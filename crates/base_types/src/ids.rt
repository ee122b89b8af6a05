//! Documents and words by number.
ghost use Rattle.std.specs.Prelude.{◌≡◌, ◌<◌, ◌^◌, ◌↔◌, IsSome, IfSome};

/// A document's number, chosen by whoever brings the document.
#[derive(Clone, Copy, Debug, PartialEq, Eq, PartialOrd, Ord, Hash)]
pub struct DocId(pub u32);

/// A word's number in the vocabulary: its place in the order of first use, from 0, below 2^20.
#[derive(Clone, Copy, Debug, PartialEq, Eq, PartialOrd, Ord, Hash)]
pub struct WordId {
    /// The place in the vocabulary.
    pub number: u32,
    pub ghost in_vocabulary: { number < 2 ^ 20 },
}

impl WordId {
    /// The word of that number; None from 2^20, the most words, on. Constant cost.
    pub fn new(number: u32) -> Option<WordId>
        ensures valid { IsSome result ↔ (number < 2 ^ 20) }
        ensures value { IfSome result (λ w. w.number ≡ number) }
    {
        if number < 1 << 20 {
            Some(WordId { number })
        } else {
            None
        }
    }

    /// The place in the vocabulary. Constant cost.
    pub fn number(self) -> u32
        ensures value { result ≡ self.number }
        ensures in_vocabulary { result < 2 ^ 20 }
    {
        self.number
    }
}
