//! What is proposed for a word.
ghost use Rattle.std.specs.Prelude.{◌≤◌, ◌^◌};

use itoa::Buffer;
use rows_rig::{Row, RowError, expect_rows};
use std::alloc::{AllocError, Global};

/// What is proposed, on a new archive.
const PROPOSED: [Row<'static>; 8] = [
    // a least plan is shown and nothing is stored
    // documents 1 and 2 have the word in [10, 20), 3 and 4 in [20, 50), and 5 in [30, 50)
    Row {
        script: b"arrive 1 10 1\nv\narrive 2 10 1\nv\ndelete 1 20\ndelete 2 20\narrive 3 20 1\nv\narrive 4 20 1\nv\narrive 5 30 1\nv\ndelete 3 50\ndelete 4 50\ndelete 5 50\npropose v guarantee 2/1\nshow 5 49\narrive 6 60 1\nx\n",
        replies: b"ok 1\nok 2\nok 3\nok 4\nok 5\nok 6\nok 7\nok 8\nok 9\nok 10\nsegment 10 20 2\nsegment 20 50 3\nnode 10 0\nnode 20 2\nnode 30 4\nnode 50 5\nend 2 space 5\ntext 1\nv\nok 11\n",
    },
    Row {
        script: b"arrive 1 10 1\nv\narrive 2 20 1\nv\ndelete 2 30\ndelete 1 40\npropose v guarantee 2/1\n",
        replies: b"ok 1\nok 2\nok 3\nok 4\nsegment 10 40 2\nnode 10 0\nnode 20 1\nnode 30 2\nnode 40 2\nend 1 space 2\n",
    },
    // with the factor 1 each elementary interval is a segment, as often as its postings are alive
    Row {
        script: b"arrive 1 10 1\nv\narrive 2 20 1\nv\ndelete 2 30\ndelete 1 40\npropose V guarantee 1/1\n",
        replies: b"ok 1\nok 2\nok 3\nok 4\nsegment 10 20 1\nsegment 20 30 2\nsegment 30 40 1\nnode 10 0\nnode 20 1\nnode 30 3\nnode 40 4\nend 3 space 4\n",
    },
    // what is open is clipped at the last time
    Row {
        script: b"arrive 1 10 1\nv\narrive 2 20 1\nw\npropose v guarantee 1/1\n",
        replies: b"ok 1\nok 2\nsegment 10 20 1\nnode 10 0\nnode 20 1\nend 1 space 1\n",
    },
    // what can not be planned is refused in order
    Row {
        script: b"propose v guarantee 1/1\npropose e-mail guarantee 1/1\npropose v guarantee 1/2\n",
        replies: b"no 13 UnknownWord\nno 7 NotOneTerm\nno 1 Line\n",
    },
    // the word stands in one text, which arrived at the last time
    Row {
        script: b"arrive 1 10 1\nv\npropose v guarantee 1/1\npropose w guarantee 1/1\npropose ( guarantee 1/1\n",
        replies: b"ok 1\nno 8 NothingSealed\nno 13 UnknownWord\nno 7 NotOneTerm\n",
    },
    Row {
        script: b"arrive 1 0 1\nv\npropose v guarantee 1/1\narrive 2 1 1\nv\npropose v guarantee 1/1\n",
        replies: b"ok 1\nno 8 NothingSealed\nok 2\nsegment 0 1 1\nnode 0 0\nnode 1 1\nend 1 space 1\n",
    },
    // a word of which no document has a text any more is known, and has postings
    Row {
        script: b"arrive 1 10 1\nv\ndelete 1 10\narrive 1 20 1\nv\ndelete 1 30\narrive 2 40 1\nw\npropose v guarantee 1/1\npropose w guarantee 1/1\n",
        replies: b"ok 1\nno 3 SameTime\nok 2\nok 3\nok 4\nsegment 10 30 1\nsegment 30 40 0\nnode 10 0\nnode 30 1\nnode 40 1\nend 2 space 1\nno 8 NothingSealed\n",
    },
];

#[test]
fn a_least_plan_is_shown_or_refused_and_nothing_is_stored(rt: HostRuntime) -> Result<(), RowError> {
    expect_rows(rt.alloc(), b"", &PROPOSED)
}

/// Puts a number behind a text.
fn put(text: &mut Vec<u8>, name: &str, number: u64) -> Result<(), AllocError> {
    text.extend_from_slice(name.as_bytes())?;
    let mut buffer = Buffer::new();
    text.extend_from_slice(buffer.format(number).as_bytes())
}

/// One document has the word in [2i, 2i + 1) so many times, and the factor is 1.
fn lives(alloc: Global, times: u64) -> Result<Vec<u8>, AllocError>
    requires few { times ≤ 2 ^ 20 }
{
    let mut script = Vec::new(alloc);
    for i in 0..times {
        put(&mut script, "arrive 1 ", 2 * i)?;
        put(&mut script, " 1\nv\ndelete 1 ", 2 * i + 1)?;
        script.push(b'\n')?;
    }
    script.extend_from_slice(b"propose v guarantee 1/1\n")?;
    Ok(script)
}

/// Adds the replies to these changes.
fn put_told(replies: &mut Vec<u8>, times: u64) -> Result<(), AllocError>
    requires few { times ≤ 2 ^ 20 }
{
    for length in 1..=2 * times {
        put(replies, "ok ", length)?;
        replies.push(b'\n')?;
    }
    Ok(())
}

/// Adds the segments that are proposed, each elementary interval.
fn put_segments(replies: &mut Vec<u8>, times: u64) -> Result<(), AllocError>
    requires few { times ≤ 2 ^ 20 }
{
    for t in 1..2 * times {
        put(replies, "segment ", t - 1)?;
        put(replies, " ", t)?;
        put(replies, " ", t % 2)?;
        replies.push(b'\n')?;
    }
    Ok(())
}

/// Adds the nodes: up to each boundary as many postings as began before it.
fn put_nodes(replies: &mut Vec<u8>, times: u64) -> Result<(), AllocError>
    requires few { times ≤ 2 ^ 20 }
{
    for t in 0..2 * times {
        put(replies, "node ", t)?;
        put(replies, " ", t.div_ceil(2))?;
        replies.push(b'\n')?;
    }
    Ok(())
}

/// What is told of it and proposed.
fn proposed(alloc: Global, times: u64) -> Result<Vec<u8>, AllocError>
    requires some { 1 ≤ times }
    requires few { times ≤ 2 ^ 20 }
{
    let mut replies = Vec::new(alloc);
    put_told(&mut replies, times)?;
    put_segments(&mut replies, times)?;
    put_nodes(&mut replies, times)?;
    put(&mut replies, "end ", 2 * times - 1)?;
    put(&mut replies, " space ", times)?;
    replies.push(b'\n')?;
    Ok(replies)
}

#[test]
fn a_plan_may_have_thousands_of_segments(rt: HostRuntime) -> Result<(), RowError> {
    let alloc = rt.alloc();
    let script = lives(alloc, 2049)?;
    let replies = proposed(alloc, 2049)?;
    let row = Row {
        script: &script,
        replies: &replies,
    };
    expect_rows(alloc, b"", &[row])
}
