//! How far long work is, as a line on standard error.
ghost use Rattle.std.specs.Prelude.{◌≡◌, ◌↔◌, ◌-◌, ◌*◌, ◌/◌, ◌≤◌, max, min, IsTrue};
ghost use Rattle.std.specs.Time.{instant_nanos};

use machine_model::Area;
use std::cell::Cell;
use std::fmt;
use std::io::IsTerminal;
use std::time::{Clock, Duration, Instant};

/// How many seconds work goes on before a line tells of it, and from line to line.
const INTERVAL_SECONDS: u64 = 1;

/// How far the work of a machine is: one line on standard error, where that is a terminal.
///
/// Work is what the machine does between two calls of its streams: the load, a check, all of a sample,
/// a plan, and at the end of a script all that is left of a plan that was begun.
/// Where a second of it is past at a call of a file, a line says what is read or written, and then
/// after each second, over the one before. Before the next call of a stream it is cleared, and where
/// the progress is dropped. Where standard error is no terminal nothing is written, and no clock is
/// asked. A clock or a standard error that fails changes nothing.
pub struct Progress<C, E: Eprint> {
    /// The program that the line names.
    program: &'static str,
    clock: C,
    errors: E,
    is_terminal: bool,
    /// The length of the journal, in bytes.
    journal_bytes: Cell<u64>,
    /// How many bytes of Pages were read in this work.
    pages_read: Cell<u64>,
    /// How many bytes of Pages were written in this work.
    pages_written: Cell<u64>,
    /// When a line last told of this work, or else when it first called a file; none before that.
    told: Cell<Option<Instant>>,
    is_shown: Cell<bool>,
}

impl<C: Clock, E: Eprint> Progress<C, E> {
    /// The progress of this program, by this clock, on this standard error. Nothing is written yet.
    pub fn new(program: &'static str, clock: C, errors: E) -> Progress<C, E>
    where
        E: IsTerminal,
    {
        Progress {
            program,
            is_terminal: errors.is_terminal(),
            clock,
            errors,
            journal_bytes: Cell::new(0),
            pages_read: Cell::new(0),
            pages_written: Cell::new(0),
            told: Cell::new(None),
            is_shown: Cell::new(false),
        }
    }

    /// Before an area is read, so many bytes from the place `at` on. The end of the journal is told
    /// at once where a line is shown: what comes then may call no file for long.
    pub(crate) fn reads(&self, area: Area, at: u64, bytes: usize) {
        match area {
            Area::Journal => {
                let end = at.saturating_add(bytes as u64);
                let length = self.journal_bytes.get();
                if self.is_due() || end >= length && self.is_shown.get() {
                    let percent = percent(end, length);
                    self.show(Line::JournalRead { percent });
                }
            }
            Area::Pages => {
                let bytes = self.pages_read.get().saturating_add(bytes as u64);
                self.pages_read.set(bytes);
                if self.is_due() {
                    self.show(Line::PagesRead { bytes });
                }
            }
        }
    }

    /// Before so many bytes of an area are written, from the place `at` on.
    pub(crate) fn writes(&self, area: Area, at: u64, bytes: usize) {
        match area {
            Area::Journal => {
                self.reaches(at.saturating_add(bytes as u64));
                if self.is_due() {
                    let bytes = self.journal_bytes.get();
                    self.show(Line::JournalWritten { bytes });
                }
            }
            Area::Pages => {
                let bytes = self.pages_written.get().saturating_add(bytes as u64);
                self.pages_written.set(bytes);
                if self.is_due() {
                    self.show(Line::PagesWritten { bytes });
                }
            }
        }
    }

    /// Whether a line is to tell of the work now. Asks the clock where standard error is a terminal,
    /// which costs little beside the call of a file.
    fn is_due(&self) -> bool {
        if !self.is_terminal {
            return false;
        }
        let Ok(now) = Instant::now(&self.clock) else {
            return false;
        };
        match self.told.get() {
            Some(told) if !is_long(told, now) => false,
            before => {
                self.told.set(Some(now));
                before.is_some()
            }
        }
    }

    fn show(&self, line: Line) {
        let program = self.program;
        let _ = eprint!(self.errors; "\r\x1b[K{program}: {line}");
        self.is_shown.set(true);
    }
}

impl<C, E: Eprint> Progress<C, E> {
    /// The journal has at least so many bytes.
    pub(crate) fn reaches(&self, bytes: u64) {
        self.journal_bytes.set(self.journal_bytes.get().max(bytes));
    }

    /// Before a call of a stream: the work so far is over.
    pub(crate) fn ends(&self) {
        self.clear();
        self.told.set(None);
        self.pages_read.set(0);
        self.pages_written.set(0);
    }

    /// Clears the line, where one is shown.
    fn clear(&self) {
        if self.is_shown.get() {
            let _ = eprint!(self.errors; "\r\x1b[K");
            self.is_shown.set(false);
        }
    }
}

impl<C: Drop, E: Eprint + Drop> Drop for Progress<C, E> {
    fn drop(self) {
        self.clear();
        let Progress {
            program: _,
            clock: _,
            errors: _,
            is_terminal: _,
            journal_bytes: _,
            pages_read: _,
            pages_written: _,
            told: _,
            is_shown: _,
        } = self;
    }
}

/// Whether it is so long from one time to the other that a line comes.
fn is_long(from: Instant, to: Instant) -> bool
    ensures { IsTrue result ↔ (INTERVAL_SECONDS * 1_000_000_000 ≤ instant_nanos to - instant_nanos from) }
{
    to.duration_since(from) >= Duration::from_secs(INTERVAL_SECONDS)
}

/// How many hundredths of the length lie before a place, at most 100.
fn percent(at: u64, length: u64) -> u128
    ensures { result ≡ min at length * 100 / max length 1 }
{
    u128::from(at.min(length)) * 100 / u128::from(length.max(1))
}

/// What a line tells.
#[derive(Clone, Copy)]
enum Line {
    /// How much of the journal lies before the place up to which it is read.
    JournalRead { percent: u128 },
    /// How long the journal is by then.
    JournalWritten { bytes: u64 },
    /// How many bytes of Pages were read.
    PagesRead { bytes: u64 },
    /// How many bytes of Pages were written.
    PagesWritten { bytes: u64 },
}

impl fmt::Display for Line {
    fn fmt<W: fmt::Write>(&self, f: &mut fmt::Formatter<W>) -> fmt::Result {
        match *self {
            Line::JournalRead { percent } => write!(f, "reading the journal, {percent} %"),
            Line::JournalWritten { bytes } => write!(f, "writing the journal, {bytes} bytes"),
            Line::PagesRead { bytes } => write!(f, "reading the pages, {bytes} bytes"),
            Line::PagesWritten { bytes } => write!(f, "writing the pages, {bytes} bytes"),
        }
    }
}

#[cfg(test)]
mod tests {
    use super::*;
    use machine_model::Area::{Journal, Pages};
    use std::alloc::Global;
    use std::cell::RefCell;
    use std::io;
    use std::process::Abort;

    /// A clock that stands until it is set, or fails.
    #[derive(Drop)]
    struct Hand {
        millis: Cell<Option<u64>>,
        asked: Cell<bool>,
    }

    impl Hand {
        fn at(millis: u64) -> Hand {
            Hand {
                millis: Cell::new(Some(millis)),
                asked: Cell::new(false),
            }
        }
    }

    impl Clock for Hand {
        fn monotonic(&self) -> io::Result<Duration> {
            self.asked.set(true);
            match self.millis.get() {
                Some(millis) => Ok(Duration::from_millis(millis)),
                None => Err(io::Error::from(io::ErrorKind::Unsupported)),
            }
        }

        fn since_1970(&self) -> io::Result<Duration> {
            self.monotonic()
        }
    }

    /// A standard error that keeps what is written.
    #[derive(Drop)]
    struct Paper {
        text: RefCell<String>,
        is_terminal: bool,
    }

    impl Paper {
        fn new(text: String, is_terminal: bool) -> Paper {
            Paper {
                text: RefCell::new(text),
                is_terminal,
            }
        }

        /// What was written since this was asked last.
        fn taken(&self, empty: String) -> Option<String> {
            self.text.try_replace(empty).ok()
        }
    }

    impl Eprint for Paper {
        fn eprint<D: fmt::Display + Drop>(&self, value: D) -> io::Result<()> {
            let Ok(mut text) = self.text.try_borrow_mut() else {
                return Err(io::Error::from(io::ErrorKind::Other));
            };
            write!(text, "{value}")?;
            Ok(())
        }

        fn eprintln<D: fmt::Display + Drop>(&self, value: D) -> io::Result<()> {
            self.eprint(value)
        }
    }

    impl IsTerminal for &Paper {
        fn is_terminal(&self) -> bool {
            self.is_terminal
        }
    }

    /// A call of a file, or of a stream.
    #[derive(Clone, Copy)]
    enum Call {
        Reads(Area, u64),
        Writes(Area, u64),
        Pulls,
    }

    fn makes<C: Clock, E: Eprint>(progress: &Progress<C, E>, call: Call) {
        match call {
            Call::Reads(area, at) => progress.reads(area, at, 10),
            Call::Writes(area, at) => progress.writes(area, at, 10),
            Call::Pulls => progress.ends(),
        }
    }

    /// Calls, and what is written of them.
    struct Story {
        is_terminal: bool,
        /// The milliseconds that the clock shows, where it doesn't fail; a call then; and what is written.
        calls: &'static [(Option<u64>, Call, &'static str)],
        /// What is written once the progress is dropped.
        last: &'static str,
    }

    /// What was written since this was asked last.
    fn expect_written(rt: &impl Abort, alloc: Global, paper: &Paper, wanted: &str) {
        let written = paper.taken(String::new(alloc));
        assert_eq!(rt; written.as_deref(), Some(wanted));
    }

    /// A call at a time is told so.
    fn expect_call<C: Clock, E: Eprint>(
        rt: &impl Abort,
        alloc: Global,
        hand: &Hand,
        paper: &Paper,
        progress: &Progress<C, E>,
        (millis, call, wanted): (Option<u64>, Call, &str),
    ) {
        hand.millis.set(millis);
        makes(progress, call);
        expect_written(rt, alloc, paper, wanted);
    }

    /// The calls of a story are told so, by a progress that is dropped behind them.
    fn expect_calls(rt: &impl Abort, alloc: Global, hand: &Hand, paper: &Paper, story: &Story) {
        let progress = Progress::new("tt_archive", hand, paper);
        progress.reaches(200);
        for call in story.calls {
            expect_call(rt, alloc, hand, paper, &progress, *call);
        }
    }

    /// A story is told so, and the clock is asked where there is a terminal.
    fn expect_story(rt: &impl Abort, alloc: Global, story: &Story) {
        let hand = Hand::at(0);
        let paper = Paper::new(String::new(alloc), story.is_terminal);
        expect_calls(rt, alloc, &hand, &paper, story);
        expect_written(rt, alloc, &paper, story.last);
        assert_eq!(rt; hand.asked.get(), story.is_terminal);
    }

    /// A line comes after each second, and goes before each pull.
    const SECONDS: Story = Story {
        is_terminal: true,
        calls: &[
            (Some(5_000), Call::Reads(Journal, 0), ""),
            (Some(5_999), Call::Reads(Journal, 90), ""),
            (
                Some(6_000),
                Call::Reads(Journal, 90),
                "\r\x1b[Ktt_archive: reading the journal, 50 %",
            ),
            (Some(6_999), Call::Reads(Journal, 150), ""),
            (
                Some(7_500),
                Call::Reads(Journal, 170),
                "\r\x1b[Ktt_archive: reading the journal, 90 %",
            ),
            (
                Some(7_600),
                Call::Reads(Journal, 190),
                "\r\x1b[Ktt_archive: reading the journal, 100 %",
            ),
            (Some(8_499), Call::Reads(Pages, 4_096), ""),
            (
                Some(8_500),
                Call::Reads(Pages, 0),
                "\r\x1b[Ktt_archive: reading the pages, 20 bytes",
            ),
            (Some(8_600), Call::Pulls, "\r\x1b[K"),
            (Some(60_000), Call::Pulls, ""),
            (Some(61_000), Call::Writes(Journal, 7), ""),
            (Some(61_500), Call::Writes(Pages, 4_096), ""),
            (
                Some(62_000),
                Call::Writes(Journal, 240),
                "\r\x1b[Ktt_archive: writing the journal, 250 bytes",
            ),
            (
                Some(63_000),
                Call::Writes(Pages, 8_192),
                "\r\x1b[Ktt_archive: writing the pages, 20 bytes",
            ),
            (Some(63_200), Call::Pulls, "\r\x1b[K"),
            (Some(63_500), Call::Reads(Journal, 240), ""),
            (
                Some(64_500),
                Call::Reads(Journal, 90),
                "\r\x1b[Ktt_archive: reading the journal, 40 %",
            ),
        ],
        last: "\r\x1b[K",
    };

    #[test]
    fn a_line_comes_each_second_of_work(rt: HostRuntime) {
        expect_story(&rt, rt.alloc(), &SECONDS);
    }

    /// Standard error is no terminal.
    const NO_TERMINAL: Story = Story {
        is_terminal: false,
        calls: &[
            (Some(0), Call::Reads(Journal, 0), ""),
            (Some(5_000), Call::Reads(Journal, 0), ""),
        ],
        last: "",
    };

    #[test]
    fn nothing_is_asked_without_a_terminal(rt: HostRuntime) {
        expect_story(&rt, rt.alloc(), &NO_TERMINAL);
    }

    /// Every other time the clock fails.
    const FAILING_CLOCK: Story = Story {
        is_terminal: true,
        calls: &[
            (Some(0), Call::Reads(Journal, 0), ""),
            (None, Call::Reads(Journal, 0), ""),
            (Some(999), Call::Reads(Journal, 0), ""),
            (None, Call::Reads(Journal, 0), ""),
        ],
        last: "",
    };

    #[test]
    fn a_clock_that_fails_tells_nothing(rt: HostRuntime) {
        expect_story(&rt, rt.alloc(), &FAILING_CLOCK);
    }
}
