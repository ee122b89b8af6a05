//! A page on which replies are written.
ghost use Rattle.std.specs.Prelude.{◌≡◌, ◌+◌, ◌≤◌, [], ◌∷◌, ◌++◌, length, codes, decimal, Some, None, IfOk, OnOk, OnErr};
ghost use Rattle.archive_replies.specs.Pages.{reply_room};
ghost use Rattle.model_archive.specs.Replies.{approx_text, cost_text, detail_text, end_text, full_text, near_text, node_text, reply_text, row_text, segment_text, space_text, span_text, summary_line, which_text, best_end_text};
ghost use Rattle.model_archive.specs.Steps.{Accepted, Refused, RefusedIn, Found, FoundBest, Spanned, Approximated, Neared, Version, Proposed, Planned, Begun, Finished, Silent};

use base_types::{Posting, Span, Which};
use itoa::Buffer;
use model_archive::{Refusal, Summary};
use plans_kinds::{Node, Segment};
use query_eval::{Row, SpanRow};
use std::alloc::{AllocError, Global};
use std::marker::Model;

/// The bytes that a page has room for at least: more than the longest reply that takes no memory,
/// and than any line of an answer.
pub const REPLY_ROOM: usize = 192;

/// A page on which one reply at a time is written. The memory for replies of one short line is taken
/// when it is made; an answer or a text takes more where it is longer than the replies before it.
#[derive(Drop)]
pub struct ReplyPage {
    bytes: Vec<u8>,
}

impl Model for ReplyPage {
    ghost use Rattle.std.specs.Prelude.{◌-◌, ◌≤◌, vec_len, vec_capacity};
    ghost use Rattle.archive_replies.specs.Pages.{Page, reply_room};

    ghost Value = { Page };

    ghost view = { λ p. record { bytes = p.bytes.items; room = vec_capacity p.bytes - vec_len p.bytes } };

    ghost invariant = { λ p. reply_room ≤ vec_capacity p.bytes };
}

impl ReplyPage {
    /// An empty page. It takes `REPLY_ROOM` bytes of memory; an error means that there were none.
    /// Constant cost.
    pub fn new(alloc: Global) -> Result<ReplyPage, AllocError>
        ensures empty { IfOk result (λ page. page.bytes ≡ []) }
        ensures room { IfOk result (λ page. reply_room ≤ page.room) }
    {
        let bytes = Vec::with_capacity(alloc, REPLY_ROOM)?;
        Ok(ReplyPage { bytes })
    }

    /// The bytes of the reply. Constant cost.
    pub fn as_bytes(&self) -> &[u8]
        ensures { result.now ≡ self.now.bytes }
    {
        self.bytes.as_slice()
    }

    /// Writes the reply to a command that is carried out, in place of what the page held. `length`
    /// is the number of entries of the history. It takes no memory. Constant cost.
    pub fn accepted(&mut self, length: u64)
        ensures { self.new.bytes ≡ reply_text (Accepted length) }
    {
        self.clear();
        self.put_named(b"ok ", length);
        self.put(b"\n");
    }

    /// Writes the reply to a command that is refused, in place of what the page held. It takes no
    /// memory. Constant cost.
    pub fn refused(&mut self, refusal: Refusal)
        ensures { self.new.bytes ≡ reply_text (Refused refusal) }
    {
        self.clear();
        self.put_named(b"no ", u64::from(refusal.number()));
        self.put(b" ");
        self.put_detail(refusal);
        self.put(b"\n");
    }

    /// Writes the reply to a batch that is refused for its item of this number, from 1, or to a line that is
    /// refused for its word of this number, in place of what the page held. It takes no memory. Constant cost.
    pub fn refused_in(&mut self, refusal: Refusal, index: u32)
        ensures { self.new.bytes ≡ reply_text (RefusedIn refusal index) }
    {
        self.clear();
        self.put_named(b"no ", u64::from(refusal.number()));
        self.put(b" ");
        self.put_detail(refusal);
        self.put_named(b" in ", u64::from(index));
        self.put(b"\n");
    }

    /// Writes the rows that a query found, and that so many postings were read for them, in place of
    /// what the page held. It takes memory; an error means that memory ran out, and leaves a part of
    /// the reply. The cost is linear in the rows.
    pub fn found(&mut self, rows: &[Row], read: u64) -> Result<(), AllocError>
        ensures { OnOk result (self.new.bytes ≡ reply_text (Found rows.now read)) }
    {
        self.clear();
        for row in rows {
            self.put_row(row)?;
        }
        self.put_end(rows.len(), read)
    }

    /// Writes the first rows that a query found by blocks, and that so many postings were read for all of
    /// them and so many blocks opened of so many, in place of what the page held. It takes memory; an error
    /// means that memory ran out, and leaves a part of the reply. The cost is linear in the rows.
    pub fn found_best(
        &mut self,
        rows: &[Row],
        read: u64,
        opened: u64,
        blocks: u64,
    ) -> Result<(), AllocError>
        ensures { OnOk result (self.new.bytes ≡ reply_text (FoundBest rows.now read opened blocks)) }
    {
        self.clear();
        for row in rows {
            self.put_row(row)?;
        }
        self.put_best_end(rows.len(), read, opened, blocks)
    }

    /// Writes the rows that a query found over a window of time, and that so many postings were read
    /// for them, in place of what the page held. It takes memory; an error means that memory ran out,
    /// and leaves a part of the reply. The cost is linear in the rows.
    pub fn spanned(&mut self, rows: &[SpanRow], read: u64) -> Result<(), AllocError>
        ensures { OnOk result (self.new.bytes ≡ reply_text (Spanned rows.now read)) }
    {
        self.clear();
        for row in rows {
            self.put_span(row)?;
        }
        self.put_end(rows.len(), read)
    }

    /// Writes the postings of an approximation, and that the whole list has so many, in place of what the
    /// page held. It takes memory; an error means that memory ran out, and leaves a part of the reply. The
    /// cost is linear in the postings.
    pub fn approximated(&mut self, short: &[Posting], full: u64) -> Result<(), AllocError>
        ensures { OnOk result (self.new.bytes ≡ reply_text (Approximated short.now full)) }
    {
        self.clear();
        for posting in short {
            self.put_approx(posting)?;
        }
        self.put_short_end(short.len(), full)
    }

    /// Writes the rows that a query found by approximations, and that so many postings were read for them,
    /// in place of what the page held. It takes memory; an error means that memory ran out, and leaves a
    /// part of the reply. The cost is linear in the rows.
    pub fn neared(&mut self, rows: &[Row], read: u64) -> Result<(), AllocError>
        ensures { OnOk result (self.new.bytes ≡ reply_text (Neared rows.now read)) }
    {
        self.clear();
        for row in rows {
            self.put_near(row)?;
        }
        self.put_end(rows.len(), read)
    }

    /// Writes the segments and the boundaries of a plan, and the space that it takes, in place of what
    /// the page held. It takes memory; an error means that memory ran out, and leaves a part of the
    /// reply. The cost is linear in both.
    pub fn proposed(
        &mut self,
        segments: &[Segment],
        nodes: &[Node],
        space: u64,
    ) -> Result<(), AllocError>
        ensures { OnOk result (self.new.bytes ≡ reply_text (Proposed segments.now nodes.now space)) }
    {
        self.clear();
        for segment in segments {
            self.put_segment(segment)?;
        }
        for node in nodes {
            self.put_node(node)?;
        }
        self.put_space(segments.len(), space)
    }

    /// Writes the reply to a command that stored a plan, in place of what the page held. It takes no
    /// memory. Constant cost.
    pub fn planned(&mut self, summary: Summary)
        ensures { self.new.bytes ≡ reply_text (Planned summary) }
    {
        self.clear();
        self.put_summary(b"plan", summary);
    }

    /// Writes the reply to a command that began a plan, in place of what the page held. It takes no memory.
    /// Constant cost.
    pub fn begun(&mut self, segments: u64, pages: u64)
        ensures { self.new.bytes ≡ reply_text (Begun segments pages) }
    {
        self.clear();
        self.put_named(b"begun ", segments);
        self.put_named(b" ", pages);
        self.put(b"\n");
    }

    /// Writes what is told of a plan that was begun and is stored now, in place of what the page held. It
    /// takes no memory. Constant cost.
    pub fn finished(&mut self, summary: Summary)
        ensures { self.new.bytes ≡ reply_text (Finished summary) }
    {
        self.clear();
        self.put_summary(b"done", summary);
    }

    /// Writes a line of a word, which a blank may end, and a number behind it, in place of what the page held.
    /// It takes no memory. Constant cost.
    pub fn numbered(&mut self, word: &[u8], number: u64)
        requires { length word.now ≤ 100 }
        ensures { self.new.bytes ≡ word.now ++ decimal number ++ 10 ∷ [] }
    {
        self.clear();
        self.put_named(word, number);
        self.put(b"\n");
    }

    /// Says nothing, in place of what the page held. It takes no memory. Constant cost.
    pub fn silent(&mut self)
        ensures { self.new.bytes ≡ reply_text Silent }
    {
        self.clear();
    }

    /// Adds the line of a plan that was stored, behind this word. It takes no memory.
    fn put_summary(&mut self, word: &[u8], summary: Summary)
        requires word { length word.now ≤ 4 }
        requires room { 183 ≤ self.old.room }
        ensures bytes { self.new.bytes ≡ self.old.bytes ++ summary_line word.now summary }
    {
        self.put(word);
        self.put_named(b" ", summary.length);
        self.put_named(b" segments ", summary.segments);
        self.put_named(b" space ", summary.space);
        self.put_named(b" full ", summary.full);
        self.put_named(b" horizon ", summary.horizon.seconds);
        self.put_cost(summary.cost);
        self.put(b"\n");
    }

    /// Writes a text that was asked for, in place of what the page held. It takes memory; an error
    /// means that there was none, and leaves the page empty. The cost is linear in the text.
    pub fn version(&mut self, text: &[u8]) -> Result<(), AllocError>
        ensures text { OnOk result (self.new.bytes ≡ reply_text (Version (Some text.now))) }
        ensures empty { OnErr result (self.new.bytes ≡ []) }
    {
        self.clear();
        self.make_room(text.len() + REPLY_ROOM)?;
        self.put_named(b"text ", text.len() as u64);
        self.put(b"\n");
        self.put(text);
        self.put(b"\n");
        Ok(())
    }

    /// Writes that there is no text, in place of what the page held. It takes no memory. Constant
    /// cost.
    pub fn none(&mut self)
        ensures { self.new.bytes ≡ reply_text (Version None) }
    {
        self.clear();
        self.put(b"none\n");
    }

    /// Makes room for so many bytes more, where there is less. The cost is linear in what the page
    /// holds where it grows, which over a reply is linear in the reply.
    pub(crate) fn make_room(&mut self, bytes: usize) -> Result<(), AllocError>
        ensures kept { self.new.bytes ≡ self.old.bytes }
        ensures room { OnOk result (bytes ≤ self.new.room) }
    {
        self.bytes.reserve(bytes)
    }

    /// Adds the line of a row. It takes memory where there is no room. Constant cost but for that.
    fn put_row(&mut self, row: &Row) -> Result<(), AllocError>
        ensures { OnOk result (self.new.bytes ≡ self.old.bytes ++ row_text row.now) }
    {
        self.make_room(REPLY_ROOM)?;
        self.put_named(b"hit ", u64::from(row.doc.0));
        self.put_named(b" ", row.score);
        self.put(b"\n");
        Ok(())
    }

    /// Adds the line of a row over time. It takes memory where there is no room. Constant cost but for
    /// that.
    fn put_span(&mut self, row: &SpanRow) -> Result<(), AllocError>
        ensures { OnOk result (self.new.bytes ≡ self.old.bytes ++ span_text row.now) }
    {
        let SpanRow { doc, span, score } = *row;
        self.make_room(REPLY_ROOM)?;
        self.put_named(b"span ", u64::from(doc.0));
        self.put_named(b" ", span.from);
        self.put_named(b" ", span.to);
        self.put_named(b" ", score);
        self.put(b"\n");
        Ok(())
    }

    /// Adds the line of a posting. It takes memory where there is no room. Constant cost but for that.
    fn put_approx(&mut self, posting: &Posting) -> Result<(), AllocError>
        ensures { OnOk result (self.new.bytes ≡ self.old.bytes ++ approx_text posting.now) }
    {
        let Posting { doc, span, tf } = *posting;
        self.make_room(REPLY_ROOM)?;
        self.put_named(b"approx ", u64::from(doc.0));
        self.put_named(b" ", span.from);
        self.put_named(b" ", span.to);
        self.put_named(b" ", u64::from(tf));
        self.put(b"\n");
        Ok(())
    }

    /// Adds how many postings there are, and how many the whole list has. It takes memory where there is
    /// no room. Constant cost but for that.
    fn put_short_end(&mut self, postings: usize, full: u64) -> Result<(), AllocError>
        ensures { OnOk result (self.new.bytes ≡ self.old.bytes ++ full_text postings full) }
    {
        self.make_room(REPLY_ROOM)?;
        self.put_named(b"end ", postings as u64);
        self.put_named(b" of ", full);
        self.put(b"\n");
        Ok(())
    }

    /// Adds the line of a row by approximations. It takes memory where there is no room. Constant cost but
    /// for that.
    fn put_near(&mut self, row: &Row) -> Result<(), AllocError>
        ensures { OnOk result (self.new.bytes ≡ self.old.bytes ++ near_text row.now) }
    {
        self.make_room(REPLY_ROOM)?;
        self.put_named(b"near ", u64::from(row.doc.0));
        self.put_named(b" ", row.score);
        self.put(b"\n");
        Ok(())
    }

    /// Adds the line of a segment. It takes memory where there is no room. Constant cost but for that.
    fn put_segment(&mut self, segment: &Segment) -> Result<(), AllocError>
        ensures { OnOk result (self.new.bytes ≡ self.old.bytes ++ segment_text segment.now) }
    {
        let Segment { span, size } = *segment;
        let Span { from, to } = span;
        self.make_room(REPLY_ROOM)?;
        self.put_named(b"segment ", from);
        self.put_named(b" ", to);
        self.put_named(b" ", size);
        self.put(b"\n");
        Ok(())
    }

    /// Adds the line of a boundary. It takes memory where there is no room. Constant cost but for that.
    fn put_node(&mut self, node: &Node) -> Result<(), AllocError>
        ensures { OnOk result (self.new.bytes ≡ self.old.bytes ++ node_text node.now) }
    {
        let Node { at, pi } = *node;
        self.make_room(REPLY_ROOM)?;
        self.put_named(b"node ", at);
        self.put_named(b" ", pi);
        self.put(b"\n");
        Ok(())
    }

    /// Adds how many segments there are, and the space that they take. It takes memory where there is
    /// no room. Constant cost but for that.
    fn put_space(&mut self, segments: usize, space: u64) -> Result<(), AllocError>
        ensures { OnOk result (self.new.bytes ≡ self.old.bytes ++ space_text segments space) }
    {
        self.make_room(REPLY_ROOM)?;
        self.put_named(b"end ", segments as u64);
        self.put_named(b" space ", space);
        self.put(b"\n");
        Ok(())
    }

    /// Adds how many rows there are, and how many postings were read for them. It takes memory where
    /// there is no room. Constant cost but for that.
    fn put_end(&mut self, rows: usize, read: u64) -> Result<(), AllocError>
        ensures { OnOk result (self.new.bytes ≡ self.old.bytes ++ end_text rows read) }
    {
        self.make_room(REPLY_ROOM)?;
        self.put_named(b"end ", rows as u64);
        self.put_named(b" read ", read);
        self.put(b"\n");
        Ok(())
    }

    /// Adds how many rows there are, how many postings were read for them, and how many blocks were opened
    /// of how many. It takes memory where there is no room. Constant cost but for that.
    fn put_best_end(
        &mut self,
        rows: usize,
        read: u64,
        opened: u64,
        blocks: u64,
    ) -> Result<(), AllocError>
        ensures { OnOk result (self.new.bytes ≡ self.old.bytes ++ best_end_text rows read opened blocks) }
    {
        self.make_room(REPLY_ROOM)?;
        self.put_named(b"end ", rows as u64);
        self.put_named(b" read ", read);
        self.put_named(b" opened ", opened);
        self.put_named(b" of ", blocks);
        self.put(b"\n");
        Ok(())
    }

    /// Empties the page. Constant cost.
    pub(crate) fn clear(&mut self)
        ensures bytes { self.new.bytes ≡ [] }
        ensures room { reply_room ≤ self.new.room }
    {
        self.bytes.clear();
    }

    /// Adds some bytes. It takes no memory. The cost is linear in the bytes.
    pub(crate) fn put(&mut self, text: &[u8])
        requires { length text.now ≤ self.old.room }
        ensures bytes { self.new.bytes ≡ self.old.bytes ++ text.now }
        ensures room { self.old.room ≤ self.new.room + length text.now }
    {
        self.bytes.extend_from_slice(text).unwrap();
    }

    /// Adds a number, in decimal. It takes no memory. Constant cost.
    fn put_number(&mut self, n: u64)
        requires { 20 ≤ self.old.room }
        ensures bytes { self.new.bytes ≡ self.old.bytes ++ decimal n }
        ensures room { self.old.room ≤ self.new.room + 20 }
    {
        let mut buffer = Buffer::new();
        self.put(buffer.format(n).as_bytes());
    }

    /// Adds what reads are expected to cost, if that is known, in decimal. It takes no memory. Constant
    /// cost.
    fn put_cost(&mut self, cost: Option<u128>)
        requires { 45 ≤ self.old.room }
        ensures bytes { self.new.bytes ≡ self.old.bytes ++ cost_text cost }
        ensures room { self.old.room ≤ self.new.room + 45 }
    {
        let Some(cost) = cost else {
            return;
        };
        self.put_wide(b" cost ", cost);
    }

    /// Adds a name and a number of up to 128 bits behind it, in decimal. It takes no memory. Constant cost.
    pub(crate) fn put_wide(&mut self, name: &[u8], n: u128)
        requires { length name.now + 39 ≤ self.old.room }
        ensures bytes { self.new.bytes ≡ self.old.bytes ++ name.now ++ decimal n }
        ensures room { self.old.room ≤ self.new.room + (length name.now + 39) }
    {
        self.put(name);
        let mut buffer = Buffer::new();
        self.put(buffer.format(n).as_bytes());
    }

    /// Adds a name and a number behind it. It takes no memory. Constant cost.
    pub(crate) fn put_named(&mut self, name: &[u8], n: u64)
        requires { length name.now + 20 ≤ self.old.room }
        ensures bytes { self.new.bytes ≡ self.old.bytes ++ name.now ++ decimal n }
        ensures room { self.old.room ≤ self.new.room + (length name.now + 20) }
    {
        self.put(name);
        self.put_number(n);
    }

    /// Adds the name of a refusal, and its detail. It takes no memory. Constant cost.
    fn put_detail(&mut self, refusal: Refusal)
        requires { 40 ≤ self.old.room }
        ensures bytes { self.new.bytes ≡ self.old.bytes ++ detail_text refusal }
        ensures room { self.old.room ≤ self.new.room + 40 }
    {
        match refusal {
            Refusal::Line => self.put(b"Line"),
            Refusal::TimeBack { last } => self.put_named(b"TimeBack ", last.seconds()),
            Refusal::SameTime => self.put(b"SameTime"),
            Refusal::NoDocument => self.put(b"NoDocument"),
            Refusal::TooLong { limit } => self.put_named(b"TooLong ", limit),
            Refusal::BadText { offset } => self.put_named(b"BadText ", offset),
            Refusal::NotOneTerm => self.put(b"NotOneTerm"),
            Refusal::NothingSealed => self.put(b"NothingSealed"),
            Refusal::TooWide { boundaries } => self.put_named(b"TooWide ", boundaries),
            Refusal::Full { which, limit } => self.put_full(which, limit),
            Refusal::BadQuery { offset } => self.put_named(b"BadQuery ", offset),
            Refusal::Busy => self.put(b"Busy"),
            Refusal::UnknownWord => self.put(b"UnknownWord"),
            Refusal::NoPlan => self.put(b"NoPlan"),
            Refusal::OneJob => self.put(b"OneJob"),
            Refusal::BatchLine { index } => self.put_named(b"BatchLine ", u64::from(index)),
            Refusal::BatchTooLong { limit } => self.put_named(b"BatchTooLong ", limit),
            Refusal::OldFormat => self.put(b"OldFormat"),
            Refusal::HasFormat => self.put(b"HasFormat"),
            Refusal::NotDisjunction => self.put(b"NotDisjunction"),
        }
    }

    /// Adds what is full, and its limit. It takes no memory. Constant cost.
    fn put_full(&mut self, which: Which, limit: u64)
        requires { 40 ≤ self.old.room }
        ensures bytes { self.new.bytes
            ≡ self.old.bytes ++ codes "Full " ++ which_text which ++ codes " " ++ decimal limit }
        ensures room { self.old.room ≤ self.new.room + 40 }
    {
        self.put(b"Full ");
        self.put(which_name(which));
        self.put_named(b" ", limit);
    }
}

/// The name of a limit. Constant cost.
fn which_name(which: Which) -> &'static [u8]
    ensures name { result.now ≡ which_text which }
    ensures short { length result.now ≤ 9 }
{
    match which {
        Which::Documents => b"documents",
        Which::Versions => b"versions",
        Which::Words => b"words",
        Which::Journal => b"journal",
        Which::Pages => b"pages",
    }
}
