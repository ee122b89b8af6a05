//! The line of what a check tells.
ghost use Rattle.std.specs.Prelude.{◌≡◌, ◌+◌, ◌<◌, ◌≤◌, ◌++◌, codes, OnOk};
ghost use Rattle.model_archive.specs.Replies.{byte_text, digit_text, reply_text, verdict_text};
ghost use Rattle.model_archive.specs.Steps.{Verified};
ghost use Rattle.archive_replies.specs.Findings.{bad_digest_text};

use crate::page::ReplyPage;
use base_types::Key;
use model_archive::Verdict;
use std::alloc::AllocError;

/// The most bytes of the line with its end: that of a byte that differs, of a word of 255 bytes.
const MOST_LINE_BYTES: usize = 312;

impl ReplyPage {
    /// Writes what a check told, in place of what the page held. It takes memory where a line before
    /// was shorter than the longest that there is; an error means that memory ran out, and leaves the
    /// page empty. The cost is linear in the word.
    pub fn verified(&mut self, verdict: &Verdict) -> Result<(), AllocError>
        ensures { OnOk result (self.new.bytes ≡ reply_text (Verified verdict.now)) }
    {
        self.clear();
        self.make_room(MOST_LINE_BYTES)?;
        self.put_verdict(verdict);
        self.put(b"\n");
        Ok(())
    }

    /// Writes that the digest of a segment of a word's plan isn't that of its bytes, in place of what the
    /// page held. An error is that of `verified`, and the cost is linear in the word.
    pub fn bad_digest(&mut self, word: &Key, segment: u64) -> Result<(), AllocError>
        ensures { OnOk result (self.new.bytes ≡ bad_digest_text word.now segment) }
    {
        self.clear();
        self.make_room(MOST_LINE_BYTES)?;
        self.put(b"baddigest ");
        self.put(word.as_str().as_bytes());
        self.put_named(b" ", segment);
        self.put(b"\n");
        Ok(())
    }

    /// Adds the line without its end. It takes no memory. The cost is linear in the word.
    pub(crate) fn put_verdict(&mut self, verdict: &Verdict)
        requires { 311 ≤ self.old.room }
        ensures bytes { self.new.bytes ≡ self.old.bytes ++ verdict_text verdict.now }
        ensures room { self.old.room ≤ self.new.room + 311 }
    {
        match verdict {
            Verdict::Sound { words, segments } => {
                self.put_named(b"sound ", *words);
                self.put_named(b" ", *segments);
            }
            Verdict::Differs {
                word,
                segment,
                place,
                found,
                wanted,
            } => {
                self.put(b"differs ");
                self.put(word.as_str().as_bytes());
                self.put_named(b" ", *segment);
                self.put_named(b" ", *place);
                self.put_byte(*found);
                self.put_byte(*wanted);
            }
            Verdict::NotLeast { word, taken, least } => {
                self.put(b"notleast ");
                self.put(word.as_str().as_bytes());
                self.put_named(b" ", *taken);
                self.put_named(b" ", *least);
            }
            Verdict::BadText { doc, at } => {
                self.put_named(b"badtext ", u64::from(doc.0));
                self.put_named(b" ", at.seconds());
            }
        }
    }

    /// Adds a space and a byte in base 16, or that there is none. It takes no memory. Constant cost.
    fn put_byte(&mut self, byte: Option<u8>)
        requires { 3 ≤ self.old.room }
        ensures bytes { self.new.bytes ≡ self.old.bytes ++ codes " " ++ byte_text byte }
        ensures room { self.old.room ≤ self.new.room + 3 }
    {
        match byte {
            None => self.put(b" --"),
            Some(byte) => self.put(&[b' ', digit(byte / 16), digit(byte % 16)]),
        }
    }
}

/// A digit in base 16. Constant cost.
fn digit(n: u8) -> u8
    requires { n < 16 }
    ensures { result ≡ digit_text n }
{
    b"0123456789abcdef"[usize::from(n)]
}
