//! The reader of a script.
ghost use Rattle.std.specs.Prelude.{◌≡◌, ◌≤◌, ◌+◌, ◌-◌, ◌<◌, ◌^◌, ◌++◌, List, [], ℕ, true, false, length, vec_len, vec_capacity, drop, All, None, Some, IsSome, IfOk, IfErr, IfSome, OnOk, OnErr, IsErrOf};
ghost use Rattle.machine_model.specs.Causes.{Rose};
ghost use Rattle.script_read.specs.Items.{first, Waits, most_waiting};
ghost use Rattle.script_read.specs.Parts.{IsPartInRange};
ghost use Rattle.script_read.specs.Reading.{ReaderState, fresh, gone, taken, found, StandsFor, Says, IsCalm, IsAwaited, IsSmall, IsWithin, IsPullError, IsMissing, most_kept, rounds};

use crate::error::ScriptError;
use crate::first::{First, first_of};
use crate::part::Part;
use crate::passing::{Over, long_piece, long_text};
use machine_model::Source;
use std::alloc::{AllocError, Global};
use std::marker::Model;

/// The most bytes that are taken from a source.
pub const MOST_INPUT_BYTES: u64 = 1 << 40;

/// The most bytes of one pull.
pub const BLOCK_BYTES: usize = 1 << 16;

/// A reader of the items of a script. It keeps at most 4,263,939 bytes of the input: those that may
/// wait for an item to be whole (a line of 4,096 bytes with CR and LF, a text of 4,194,304, and a CR
/// behind it) and a block. Beside these it has the room for one pull, a block too; no clause says how
/// much more room than its bytes take the buffer has.
#[derive(Drop)]
pub struct Reader {
    /// The bytes taken and not let go; those before `start` are of no more use.
    buffer: Vec<u8>,
    start: usize,
    /// How many bytes came before the item whose bytes are at hand, in the whole input.
    passed: u64,
    ended: bool,
    /// A text above the limit that is being passed over; its line is no more at hand.
    over: Option<Over>,
    /// The room for one pull.
    block: Vec<u8>,
}

impl Model for Reader {
    ghost use Rattle.std.specs.Prelude.{◌≡◌, ◌≤◌, ◌+◌, ◌^◌, drop, length};
    ghost use Rattle.script_read.specs.Reading.{ReaderState, IsSmall, gone, most_kept};

    ghost Value = { ReaderState };

    ghost view = { λ r. record {
      bytes = drop r.start r.buffer.items;
      passed = r.passed;
      ended = r.ended;
      over = r.over;
      kept = length r.buffer.items;
    } };

    ghost invariant = { λ r. (r.start ≤ length r.buffer.items) × (r.passed + gone r.over + length (drop r.start r.buffer.items) ≤ 2 ^ 40)
        × IsSmall r.over × (length r.block.items ≡ 65536) × (length r.buffer.items ≤ most_kept) };
}

impl Reader {
    /// A reader that has taken nothing. Costs its block.
    pub fn new(alloc: Global) -> Result<Reader, AllocError>
        ensures { IfOk result (λ r. r ≡ fresh) }
    {
        let block = vec![in alloc; 0; BLOCK_BYTES]?;
        Ok(Reader {
            buffer: Vec::new(alloc),
            start: 0,
            passed: 0,
            ended: false,
            over: None,
            block,
        })
    }

    /// The next item of the script, behind lines that are skipped; None where the input was read to
    /// its end behind the last one. Bytes are pulled only where no item, no fault and no end is in
    /// those taken so far.
    ///
    /// `Broken` says where the script stops being one. `Budget` says that `MOST_INPUT_BYTES` were
    /// taken and no item is whole in them; `Failed` that a pull failed; `Memory` that memory is
    /// short. No error loses a byte: after `Failed` and `Memory` the call may be made again.
    ///
    /// Costs the bytes pulled, the item's line and its text once, and for each pull the line again.
    pub fn next_item<S: Source>(
        &mut self,
        alloc: Global,
        source: &mut S,
    ) -> Result<Option<Part>, ScriptError>
        ensures only { S.only source.old source.new }
        ensures later { (S.source source.old).faults ≤ (S.source source.new).faults }
        ensures rose { IsErrOf result ScriptError.Failed → Rose (S.source source.old).faults (S.source source.new).faults }
        // There are bytes that the source gave, and those since the last item with these say the answer.
        ensures says { (since : List ℕ) → StandsFor self.old since → ((pulled : List ℕ)
            × (S.source_tells → (S.source source.old).left ≡ pulled ++ (S.source source.new).left)
            × IsCalm since self.old pulled self.new
            × Says self.old.passed (since ++ pulled) result self.new) }
        // Nothing is pulled while an item, a fault or the end stands in the bytes taken before.
        ensures calm { (since : List ℕ) → StandsFor self.old since → ¬ (Waits self.old.ended since) → source.new ≡ source.old }
        // Nor is it while one stands in those taken within the call.
        ensures awaited { (since : List ℕ) → StandsFor self.old since → ((lefts : List (List ℕ)) × S.pulled source.old lefts source.new
            × (S.source_tells → All (IsAwaited since (S.source source.old).left) lefts)) }
        ensures bound { taken self.new ≤ 2 ^ 40 }
        // However long the input is, and whatever it asks for, few bytes of it are kept.
        ensures kept { self.new.kept ≤ most_kept }
        // What it gives is in range, for whatever bytes the reader stands.
        ensures fits { IfOk result (λ part. IfSome part IsPartInRange) }
        // An item lets bytes go.
        ensures further { IfOk result (λ item. IsSome item → self.old.passed < self.new.passed) }
        // The end, once told, is the source's.
        ensures end { S.source_tells → (self.old.ended ≡ true → (S.source source.old).left ≡ []) → self.new.ended ≡ true
            → (S.source source.new).left ≡ [] }
    {
        'rounds: loop {
            match self.front(alloc)? {
                First::Whole(piece, n) => {
                    self.advance(n);
                    if piece.is_some() {
                        return Ok(piece);
                    }
                }
                First::Broken(n) => {
                    return Err(ScriptError::Broken {
                        at: self.passed + n as u64,
                    });
                }
                First::End => return Ok(None),
                First::More => self.pull(source)?,
            }
        }
    }

    /// What the bytes since the last item begin with. Lets go what is at hand of a text that is
    /// passed over, and the line of one that is from now on, so that few bytes wait. Costs as
    /// `first_of`.
    fn front(&mut self, alloc: Global) -> Result<First, AllocError>
        ensures stands { (since : List ℕ) → StandsFor self.old since → StandsFor self.new since }
        ensures value { IfOk result (λ f. f ≡ found self.new) }
        ensures within { IfOk result (λ f. IsWithin (gone self.new.over) (gone self.new.over + length self.new.bytes) f) }
        ensures small { IsSmall self.new.over }
        ensures passed { self.new.passed ≡ self.old.passed }
        ensures ended { self.new.ended ≡ self.old.ended }
        ensures taken { taken self.new ≡ taken self.old }
        ensures shorter { length self.new.bytes ≤ length self.old.bytes }
        ensures bound { taken self.new ≤ 2 ^ 40 }
        ensures kept { self.new.kept ≤ most_kept }
        ensures waits { IfOk result (λ f. f ≡ First.More → length self.new.bytes ≤ most_waiting) }
    {
        match self.over {
            Some(over) => Ok(self.front_of_text(over)),
            None => self.front_of_line(alloc),
        }
    }

    /// The same, where a text is passed over. Constant cost.
    fn front_of_text(&mut self, over: Over) -> First
        requires { self.old.over ≡ Some over }
        ensures stands { (since : List ℕ) → StandsFor self.old since → StandsFor self.new since }
        ensures value { result ≡ found self.new }
        ensures small { IsSmall self.new.over }
        ensures passed { self.new.passed ≡ self.old.passed }
        ensures ended { self.new.ended ≡ self.old.ended }
        ensures taken { taken self.new ≡ taken self.old }
        ensures shorter { length self.new.bytes ≤ length self.old.bytes }
        ensures kept { self.new.kept ≡ self.old.kept }
        ensures waits { result ≡ First.More → length self.new.bytes ≤ 1 }
    {
        let over = self.let_go(over);
        long_piece(self.ended, over, self.at_hand())
    }

    /// Lets go what is at hand of a text that is passed over, and answers where it is now. Constant
    /// cost.
    fn let_go(&mut self, over: Over) -> Over
        requires { self.old.over ≡ Some over }
        ensures stands { (since : List ℕ) → StandsFor self.old since → StandsFor self.new since }
        ensures over { self.new.over ≡ Some result }
        ensures passed { self.new.passed ≡ self.old.passed }
        ensures ended { self.new.ended ≡ self.old.ended }
        ensures taken { taken self.new ≡ taken self.old }
        ensures shorter { length self.new.bytes ≤ length self.old.bytes }
        ensures kept { self.new.kept ≡ self.old.kept }
        // While more of the text is to come, nothing is at hand.
        ensures rest { result.gone < result.size → length self.new.bytes ≡ 0 }
    {
        let n = (self.at_hand().len() as u64).min(over.size - over.gone);
        let over = Over {
            doc: over.doc,
            at: over.at,
            size: over.size,
            line: over.line,
            gone: over.gone + n,
        };
        self.start += n as usize;
        self.over = Some(over);
        over
    }

    /// The same as `front`, where no text is passed over yet.
    fn front_of_line(&mut self, alloc: Global) -> Result<First, AllocError>
        requires { self.old.over ≡ None }
        ensures stands { (since : List ℕ) → StandsFor self.old since → StandsFor self.new since }
        ensures value { IfOk result (λ f. f ≡ found self.new) }
        ensures small { IsSmall self.new.over }
        ensures passed { self.new.passed ≡ self.old.passed }
        ensures ended { self.new.ended ≡ self.old.ended }
        ensures taken { taken self.new ≡ taken self.old }
        ensures shorter { length self.new.bytes ≤ length self.old.bytes }
        ensures kept { self.new.kept ≡ self.old.kept }
        ensures waits { IfOk result (λ f. f ≡ First.More → length self.new.bytes ≤ most_waiting) }
    {
        match first_of(alloc, self.ended, self.at_hand())? {
            First::More => self.begin_text(alloc),
            first => Ok(first),
        }
    }

    /// The same, where no piece is whole. Lets the first line go where it asks for a text above the
    /// limit, with what is at hand of that text, which is passed over from then on. Costs the line.
    fn begin_text(&mut self, alloc: Global) -> Result<First, AllocError>
        requires none { self.old.over ≡ None }
        requires more { First.More ≡ found self.old }
        ensures stands { StandsFor self.new self.old.bytes }
        ensures value { IfOk result (λ f. f ≡ found self.new) }
        ensures small { IsSmall self.new.over }
        ensures passed { self.new.passed ≡ self.old.passed }
        ensures ended { self.new.ended ≡ self.old.ended }
        ensures taken { taken self.new ≡ taken self.old }
        ensures shorter { length self.new.bytes ≤ length self.old.bytes }
        ensures kept { self.new.kept ≡ self.old.kept }
        ensures waits { IfOk result (λ f. f ≡ First.More → length self.new.bytes ≤ most_waiting) }
    {
        let Some(over) = long_text(alloc, self.at_hand())? else {
            return Ok(First::More);
        };
        self.start += over.line as usize;
        self.over = Some(over);
        Ok(self.front_of_text(over))
    }

    /// Lets the first bytes go, those that are gone among them. Constant cost.
    fn advance(&mut self, n: usize)
        requires some { gone self.old.over ≤ n }
        requires within { n ≤ gone self.old.over + length self.old.bytes }
        ensures { self.new ≡ record {
          bytes = drop (n - gone self.old.over) self.old.bytes;
          passed = self.old.passed + n;
          ended = self.old.ended;
          over = None;
          kept = self.old.kept;
        } }
    {
        self.start += n - self.gone() as usize;
        self.passed += n as u64;
        self.over = None;
    }

    /// The bytes at hand. Constant cost.
    fn at_hand(&self) -> &[u8]
        ensures value { result.now ≡ self.now.bytes }
        ensures bound { length result.now ≤ 2 ^ 40 }
    {
        &self.buffer[self.start..]
    }

    /// How many bytes were taken of the source. Constant cost.
    pub fn taken(&self) -> u64
        ensures value { result ≡ taken self.now }
        ensures bound { result ≤ 2 ^ 40 }
    {
        self.passed + self.gone() + self.at_hand().len() as u64
    }

    /// How many bytes of the item at hand are gone. Constant cost.
    fn gone(&self) -> u64
        ensures { result ≡ gone self.now.over }
    {
        match self.over {
            Some(over) => over.line + over.gone,
            None => 0,
        }
    }

    /// Takes the next block of the source, or its word that there is none. Costs the block, and the
    /// bytes before `start` and behind it once.
    fn pull<S: Source>(&mut self, source: &mut S) -> Result<(), ScriptError>
        requires going { self.old.ended ≡ false }
        requires waits { length self.old.bytes ≤ most_waiting }
        ensures only { S.only source.old source.new }
        ensures asked { (lefts : List (List ℕ)) × S.pulled source.old lefts source.new
            × All (λ left. left ≡ (S.source source.old).left) lefts }
        ensures rose { IsErrOf result ScriptError.Failed → Rose (S.source source.old).faults (S.source source.new).faults }
        ensures bytes { (pulled : List ℕ) × (S.source_tells → (S.source source.old).left ≡ pulled ++ (S.source source.new).left)
            × (self.new.bytes ≡ self.old.bytes ++ pulled) }
        ensures passed { self.new.passed ≡ self.old.passed }
        ensures over { self.new.over ≡ self.old.over }
        ensures bound { taken self.new ≤ 2 ^ 40 }
        ensures kept { self.new.kept ≤ most_kept }
        ensures nearer { OnOk result (rounds self.new < rounds self.old) }
        ensures end { S.source_tells → self.new.ended ≡ true → (S.source source.new).left ≡ [] }
        ensures err { OnErr result (self.new ≡ record {
          bytes = self.old.bytes;
          passed = self.old.passed;
          ended = self.old.ended;
          over = self.old.over;
          kept = self.new.kept;
        }) }
        ensures failed { IsErrOf result ScriptError.Failed → taken self.new < 2 ^ 40 }
        ensures spent { IsErrOf result ScriptError.Budget → taken self.new ≡ 2 ^ 40 }
        ensures why { IfErr result (λ e. IsPullError e) }
    {
        let taken = self.taken();
        if taken == MOST_INPUT_BYTES {
            return Err(ScriptError::Budget);
        }
        let most = (MOST_INPUT_BYTES - taken).min(BLOCK_BYTES as u64) as usize;
        drop_front(&mut self.buffer, self.start);
        self.start = 0;
        let count = take_block(source, &mut self.buffer, self.block.as_mut_slice(), most)?;
        self.ended = count == 0;
        Ok(())
    }
}

/// Takes the first bytes off. Costs the buffer's length, and nothing for no bytes.
fn drop_front(buffer: &mut Vec<u8>, n: usize)
    requires { n ≤ length buffer.old.items }
    ensures { buffer.new.items ≡ drop n buffer.old.items }
{
    if n > 0 {
        buffer.rotate_left(n);
        buffer.truncate(buffer.len() - n);
    }
}

/// Pulls at most so many bytes through the block and puts them behind the buffer's; answers how
/// many, 0 at the end of the input.
fn take_block<S: Source>(
    source: &mut S,
    buffer: &mut Vec<u8>,
    block: &mut [u8],
    most: usize,
) -> Result<usize, ScriptError>
    requires some { 1 ≤ most }
    requires room { most ≤ length block.old }
    ensures only { S.only source.old source.new }
    ensures asked { (lefts : List (List ℕ)) × S.pulled source.old lefts source.new × All (λ left. left ≡ (S.source source.old).left) lefts }
    ensures rose { IsErrOf result ScriptError.Failed → Rose (S.source source.old).faults (S.source source.new).faults }
    ensures bytes { (pulled : List ℕ) × (S.source_tells → (S.source source.old).left ≡ pulled ++ (S.source source.new).left)
        × (buffer.new.items ≡ buffer.old.items ++ pulled) × IfOk result (λ n. length pulled ≡ n) × OnErr result (pulled ≡ []) }
    ensures count { IfOk result (λ n. n ≤ most) }
    ensures few { length buffer.new.items ≤ length buffer.old.items + most }
    ensures end { S.source_tells → IfOk result (λ n. n ≡ 0 → (S.source source.new).left ≡ []) }
    ensures why { IfErr result (λ e. IsMissing e) }
{
    buffer.reserve(most)?;
    let Ok(count) = source.pull(&mut block[..most]) else {
        return Err(ScriptError::Failed);
    };
    put_behind(buffer, &block[..count]);
    Ok(count)
}

/// Puts bytes behind those of a buffer that has room for them.
fn put_behind(buffer: &mut Vec<u8>, bytes: &[u8])
    requires { vec_len buffer.old + length bytes.now ≤ vec_capacity buffer.old }
    ensures { buffer.new.items ≡ buffer.old.items ++ bytes.now }
{
    buffer.extend_from_slice(bytes).unwrap();
}
