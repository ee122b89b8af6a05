//! The reader of packets.
ghost use Rattle.std.specs.Prelude.{◌≡◌, ◌≤◌, ◌+◌, ◌-◌, ◌<◌, ◌^◌, ◌++◌, List, [], ℕ, true, false, length, vec_len, vec_capacity, take, drop, All, IfOk, IfErr, OnOk, OnErr, IsErrOf};
ghost use Rattle.machine_model.specs.Causes.{Rose};
ghost use Rattle.journal_packets.specs.declared.first.First.TheVariants.{More};
ghost use Rattle.journal_packets.specs.Packets.{first, BeginsWith};
ghost use Rattle.journal_packets.specs.Reading.{PacketsState, fresh, taken, Says, Takes, IsAwaited, IsPullError, IsMissing, rounds};

use crate::error::PacketError;
use crate::first::{First, first_of};
use crate::packet::{HEAD_BYTES, Packet};
use machine_model::Source;
use std::alloc::{AllocError, Global};
use std::marker::Model;

/// The most bytes that are taken from a source.
const MOST_INPUT_BYTES: u64 = 1 << 40;

/// The most bytes of one pull.
const BLOCK_BYTES: usize = 1 << 16;

/// A reader of packets. Holds no more than one packet and a block, about 64 MiB, and up to twice that
/// in memory.
#[derive(Drop)]
pub struct Packets {
    /// The bytes taken and not let go; those before `start` are of no more use.
    buffer: Vec<u8>,
    start: usize,
    /// How many bytes came before those at hand, in the whole input.
    passed: u64,
    ended: bool,
    /// The room for one pull.
    block: Vec<u8>,
}

impl Model for Packets {
    ghost use Rattle.std.specs.Prelude.{◌≡◌, ◌≤◌, ◌+◌, ◌^◌, drop, length};
    ghost use Rattle.journal_packets.specs.Reading.{PacketsState};

    ghost Value = { PacketsState };

    ghost view = { λ r. record { bytes = drop r.start r.buffer.items; passed = r.passed; ended = r.ended } };

    ghost invariant = { λ r. (r.start ≤ length r.buffer.items) × (r.passed + length (drop r.start r.buffer.items) ≤ 2 ^ 40)
        × (length r.block.items ≡ 65536) };
}

impl Packets {
    /// A reader that has taken nothing. Costs its block.
    pub fn new(alloc: Global) -> Result<Packets, AllocError>
        ensures { IfOk result (λ r. r ≡ fresh) }
    {
        let block = vec![in alloc; 0; BLOCK_BYTES]?;
        Ok(Packets {
            buffer: Vec::new(alloc),
            start: 0,
            passed: 0,
            ended: false,
            block,
        })
    }

    /// The next packet; None where the input was read to its end behind the last one. Bytes are pulled
    /// only where no packet, nothing bad and no end is in those taken so far.
    ///
    /// `Bad` says that the packet which begins at a place is none. `Budget` says that 2^40 bytes were
    /// taken and no packet is whole in them; `Failed` that a pull failed; `Memory` that memory is
    /// short. No error loses a byte: after `Failed` and `Memory` the call may be made again.
    ///
    /// Costs the bytes pulled, and the packet once more.
    pub fn next_packet<S: Source>(
        &mut self,
        alloc: Global,
        source: &mut S,
    ) -> Result<Option<Packet>, PacketError>
        ensures only { S.only source.old source.new }
        ensures later { (S.source source.old).faults ≤ (S.source source.new).faults }
        ensures rose { IsErrOf result PacketError.Failed → Rose (S.source source.old).faults (S.source source.new).faults }
        // There are bytes that the source gave, and those since the last packet with these say the answer.
        ensures says { (pulled : List ℕ)
            × (S.source_tells → (S.source source.old).left ≡ pulled ++ (S.source source.new).left)
            × Says (self.old.bytes ++ pulled) self.old.passed result self.new }
        // Nothing is pulled while a packet, what is bad or the end stands in the bytes taken before.
        ensures calm { (first self.old.ended self.old.bytes ≡ More → ⊥) → (source.new ≡ source.old) × (self.new.ended ≡ self.old.ended) }
        // Nor is it while one stands in those taken within the call.
        ensures awaited { (lefts : List (List ℕ)) × S.pulled source.old lefts source.new
            × (S.source_tells → All (IsAwaited self.old.bytes (S.source source.old).left) lefts) }
        ensures bound { taken self.new ≤ 2 ^ 40 }
        // The end, once told, is the source's.
        ensures end { S.source_tells → (self.old.ended ≡ true → (S.source source.old).left ≡ []) → self.new.ended ≡ true
            → (S.source source.new).left ≡ [] }
    {
        'rounds: loop {
            match self.front() {
                First::Whole { number, size } => {
                    let packet = self.take(alloc, number, size)?;
                    return Ok(Some(packet));
                }
                First::Bad => return Err(PacketError::Bad { at: self.passed }),
                First::End => return Ok(None),
                First::More => self.pull(source)?,
            }
        }
    }

    /// What the bytes at hand begin with. Constant cost.
    fn front(&self) -> First
        ensures value { result ≡ first self.now.ended self.now.bytes }
        ensures begins { BeginsWith self.now.bytes result }
    {
        first_of(self.ended, self.at_hand())
    }

    /// Takes the packet at hand, which has this number and a body of so many bytes. Costs the body.
    fn take(&mut self, alloc: Global, number: u64, size: u32) -> Result<Packet, AllocError>
        requires { BeginsWith self.old.bytes (First.Whole number size) }
        ensures takes { IfOk result (λ packet. Takes self.old.bytes self.old.passed packet self.new) }
        ensures ended { self.new.ended ≡ self.old.ended }
        ensures bound { taken self.new ≤ 2 ^ 40 }
        ensures err { OnErr result (self.new ≡ self.old) }
    {
        let at = self.passed;
        let end = HEAD_BYTES + size as usize;
        let mut body = Vec::new(alloc);
        body.extend_from_slice(&self.at_hand()[HEAD_BYTES..end])?;
        self.advance(end);
        Ok(Packet { at, number, body })
    }

    /// Lets the first bytes go. Constant cost.
    fn advance(&mut self, n: usize)
        requires { n ≤ length self.old.bytes }
        ensures { self.new ≡ record { bytes = drop n self.old.bytes; passed = self.old.passed + n; ended = self.old.ended } }
    {
        self.start += n;
        self.passed += n as u64;
    }

    /// The bytes at hand. Constant cost.
    fn at_hand(&self) -> &[u8]
        ensures value { result.now ≡ self.now.bytes }
        ensures bound { length result.now ≤ 2 ^ 40 }
    {
        &self.buffer[self.start..]
    }

    /// Takes the next block of the source, or its word that there is none. Costs the block, and the
    /// bytes before `start` and behind it once.
    fn pull<S: Source>(&mut self, source: &mut S) -> Result<(), PacketError>
        requires { self.old.ended ≡ false }
        ensures only { S.only source.old source.new }
        ensures asked { (lefts : List (List ℕ)) × S.pulled source.old lefts source.new
            × All (λ left. left ≡ (S.source source.old).left) lefts }
        ensures rose { IsErrOf result PacketError.Failed → Rose (S.source source.old).faults (S.source source.new).faults }
        ensures bytes { (pulled : List ℕ) × (S.source_tells → (S.source source.old).left ≡ pulled ++ (S.source source.new).left)
            × (self.new.bytes ≡ self.old.bytes ++ pulled) }
        ensures passed { self.new.passed ≡ self.old.passed }
        ensures bound { taken self.new ≤ 2 ^ 40 }
        ensures nearer { OnOk result (rounds self.new < rounds self.old) }
        ensures end { S.source_tells → self.new.ended ≡ true → (S.source source.new).left ≡ [] }
        ensures err { OnErr result (self.new ≡ self.old) }
        ensures failed { IsErrOf result PacketError.Failed → taken self.new < 2 ^ 40 }
        ensures spent { IsErrOf result PacketError.Budget → taken self.new ≡ 2 ^ 40 }
        ensures why { IfErr result (λ e. IsPullError e) }
    {
        let taken = self.passed + self.at_hand().len() as u64;
        if taken == MOST_INPUT_BYTES {
            return Err(PacketError::Budget);
        }
        let most = (MOST_INPUT_BYTES - taken).min(BLOCK_BYTES as u64) as usize;
        drop_front(&mut self.buffer, self.start);
        self.start = 0;
        let count = take_block(source, &mut self.buffer, self.block.as_mut_slice(), most)?;
        self.ended = count == 0;
        Ok(())
    }
}

/// Takes the first bytes off. Costs the buffer's length, and nothing for no bytes.
fn drop_front(buffer: &mut Vec<u8>, n: usize)
    requires { n ≤ length buffer.old.items }
    ensures { buffer.new.items ≡ drop n buffer.old.items }
{
    if n > 0 {
        buffer.rotate_left(n);
        buffer.truncate(buffer.len() - n);
    }
}

/// Pulls at most so many bytes through the block and puts them behind the buffer's; answers how
/// many, 0 at the end of the input.
fn take_block<S: Source>(
    source: &mut S,
    buffer: &mut Vec<u8>,
    block: &mut [u8],
    most: usize,
) -> Result<usize, PacketError>
    requires some { 1 ≤ most }
    requires room { most ≤ length block.old }
    ensures only { S.only source.old source.new }
    ensures asked { (lefts : List (List ℕ)) × S.pulled source.old lefts source.new × All (λ left. left ≡ (S.source source.old).left) lefts }
    ensures rose { IsErrOf result PacketError.Failed → Rose (S.source source.old).faults (S.source source.new).faults }
    ensures bytes { (pulled : List ℕ) × (S.source_tells → (S.source source.old).left ≡ pulled ++ (S.source source.new).left)
        × (buffer.new.items ≡ buffer.old.items ++ pulled) × IfOk result (λ n. length pulled ≡ n) × OnErr result (pulled ≡ []) }
    ensures count { IfOk result (λ n. n ≤ most) }
    ensures end { S.source_tells → IfOk result (λ n. n ≡ 0 → (S.source source.new).left ≡ []) }
    ensures why { IfErr result (λ e. IsMissing e) }
{
    buffer.reserve(most)?;
    let Ok(count) = source.pull(&mut block[..most]) else {
        return Err(PacketError::Failed);
    };
    put_behind(buffer, &block[..count]);
    Ok(count)
}

/// Puts bytes behind those of a buffer that has room for them.
fn put_behind(buffer: &mut Vec<u8>, bytes: &[u8])
    requires { vec_len buffer.old + length bytes.now ≤ vec_capacity buffer.old }
    ensures { buffer.new.items ≡ buffer.old.items ++ bytes.now }
{
    buffer.extend_from_slice(bytes).unwrap();
}
