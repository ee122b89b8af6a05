//! A plan that is begun, and written while other commands go on.
use machine_mem::MemMachine;
use machine_model::Image;
use rows_rig::{
    FIRST_CERTIFICATE, FOUR_CHANGES, Row, RowError, copy_image, disk_after, disk_after_all,
    expect_behind, expect_end, expect_entries, expect_in_order, expect_on, machine_on, many_lives,
    new_disk, read_image,
};
use run_script::Status;
use std::alloc::Global;

/// What is told of the plan of three segments when it is stored.
const DONE: &[u8] = b"begun 3 3\ndone 5 segments 3 space 4 full 2 horizon 40\n";

#[test]
fn a_plan_is_begun_and_stored_behind_the_next_command(rt: HostRuntime) -> Result<(), RowError> {
    let begun = Row {
        script: b"begin v guarantee 1/1\nplan v guarantee 1/1\nfind 15 v\n",
        replies: b"begun 3 3\nno 12 Busy\ndone 5 segments 3 space 4 full 2 horizon 40\nhit 1 1\nend 1 read 1\n",
    };
    expect_behind(rt.alloc(), &[FOUR_CHANGES], &[begun])
}

#[test]
fn the_end_of_the_input_brings_a_plan_to_its_end(rt: HostRuntime) -> Result<(), RowError> {
    let alloc = rt.alloc();
    let last = Row {
        script: b"begin v guarantee 1/1\n",
        replies: DONE,
    };
    let certificate = Row {
        script: b"certificate v\n",
        replies: FIRST_CERTIFICATE,
    };
    expect_in_order(alloc, &[FOUR_CHANGES, last, certificate])
}

/// The disk of an archive in which the word `v` comes and goes so many times.
pub fn disk_of_lives(alloc: Global, times: u64) -> Result<Image, RowError> {
    let (script, replies) = many_lives(alloc, times)?;
    let lives = Row {
        script: &script,
        replies: &replies,
    };
    disk_after(alloc, &new_disk(alloc), &lives)
}

/// Behind ten lives ten pages are written in two stints: `find` reads the word's list until the plan is stored.
pub const TEN_PAGES: Row<'static> = Row {
    script: b"begin v guarantee 1/1\nfind 2 v\nfind 2 v\nfind 2 v\n",
    replies: b"begun 19 10\nhit 1 1\nend 1 read 10\nhit 1 1\nend 1 read 10\ndone 21 segments 19 space 10 full 10 horizon 21\nhit 1 1\nend 1 read 1\n",
};

#[test]
fn eight_pages_are_written_behind_each_command(rt: HostRuntime) -> Result<(), RowError> {
    let alloc = rt.alloc();
    let disk = disk_of_lives(alloc, 10)?;
    expect_on(alloc, &disk, &[TEN_PAGES])
}

// The list that is planned is that up to the last time at the beginning, whatever comes then.
#[test]
fn changes_and_checks_come_while_a_plan_is_written(rt: HostRuntime) -> Result<(), RowError> {
    let alloc = rt.alloc();
    let disk = disk_of_lives(alloc, 10)?;
    let rows = [
        // a change at the horizon, and one behind it
        Row {
            script: b"begin v guarantee 1/1\narrive 2 21 1\nv\ndelete 2 23\nfind 2 v\nfind 21 v\nfind 23 v\nverify\n",
            replies: b"begun 19 10\nok 21\nok 22\ndone 23 segments 19 space 10 full 10 horizon 21\nhit 1 1\nend 1 read 1\nhit 2 1\nend 1 read 1\nend 0 read 1\nsound 1 19\n",
        },
        // a batch, and one that is refused
        Row {
            script: b"format 2\nbegin v guarantee 1/1\nbatch 2\narrive 1 30 1\nv\narrive 2 31 1\nv\nbatch 1\nformat 2\nplan v guarantee 1/1\n",
            replies: b"ok 21\nbegun 19 10\nok 22\nno 16 BatchLine 1\ndone 23 segments 19 space 10 full 10 horizon 21\nplan 24 segments 21 space 11 full 11 horizon 31\n",
        },
        // a check finds no plan until it is stored
        Row {
            script: b"begin v guarantee 1/1\nverify\nverify\nverify\n",
            replies: b"begun 19 10\nsound 0 0\nsound 0 0\ndone 21 segments 19 space 10 full 10 horizon 21\nsound 1 19\n",
        },
    ];
    expect_on(alloc, &disk, &rows)
}

/// Behind twenty lives of `v` document 3 has the word `w`.
const ONE_LIFE: Row<'static> = Row {
    script: b"arrive 3 50 1\nw\ndelete 3 60\n",
    replies: b"ok 41\nok 42\n",
};

// Twenty pages are written in three stints. A plan of the other word takes a page behind them, one in its place takes
// another, and so the first is free again.
#[test]
fn another_word_is_planned_while_a_plan_is_written(rt: HostRuntime) -> Result<(), RowError> {
    let alloc = rt.alloc();
    let disk = disk_of_lives(alloc, 20)?;
    let disk = disk_after(alloc, &disk, &ONE_LIFE)?;
    let rows = [
        Row {
            script: b"begin v guarantee 1/1\nplan w guarantee 1/1\narrive 3 70 1\nw\nplan w guarantee 1/1\nbegin w guarantee 1/1\nverify\nfind 55 w\nfind 40 v\n",
            replies: b"begun 40 20\nplan 43 segments 1 space 1 full 1 horizon 60\nok 44\nplan 45 segments 2 space 1 full 1 horizon 70\ndone 46 segments 40 space 20 full 20 horizon 60\nbegun 2 1\nsound 2 42\ndone 47 segments 2 space 1 full 1 horizon 70\nhit 3 1\nend 1 read 1\nhit 1 1\nend 1 read 1\n",
        },
        // what is begun meanwhile is refused, and goes once the plan is stored
        Row {
            script: b"begin v guarantee 1/1\nbegin w guarantee 1/1\nplan v guarantee 1/1\nbegin v guarantee 2/1\nbegin w guarantee 1/1\nbegin v guarantee 1/1\n",
            replies: b"begun 40 20\nno 15 OneJob\nno 12 Busy\nno 12 Busy\ndone 43 segments 40 space 20 full 20 horizon 60\nbegun 1 1\nno 15 OneJob\ndone 44 segments 1 space 1 full 1 horizon 60\n",
        },
    ];
    expect_on(alloc, &disk, &rows)
}

/// Behind the four changes a plan of one segment, which reads both postings.
const LOOSE_PLAN: Row<'static> = Row {
    script: b"plan v guarantee 2/1\n",
    replies: b"plan 5 segments 1 space 2 full 2 horizon 40\n",
};

#[test]
fn questions_read_the_old_plan_until_the_new_one_is_stored(
    rt: HostRuntime,
) -> Result<(), RowError> {
    let rows = [
        Row {
            script: b"begin v guarantee 1/1\nfind 15 v\nfind 15 v\n",
            replies: b"begun 3 3\nhit 1 1\nend 1 read 2\ndone 6 segments 3 space 4 full 2 horizon 40\nhit 1 1\nend 1 read 1\n",
        },
        Row {
            script: b"begin v guarantee 1/1\nbetween 35 50 v\nbetween 35 50 v\n",
            replies: b"begun 3 3\nspan 1 35 40 1\nend 1 read 2\ndone 6 segments 3 space 4 full 2 horizon 40\nspan 1 35 40 1\nend 1 read 1\n",
        },
        Row {
            script: b"begin v guarantee 1/1\nbest 1 15 v\nbest 1 15 v\n",
            replies: b"begun 3 3\nhit 1 1\nend 1 read 2 opened 1 of 1\ndone 6 segments 3 space 4 full 2 horizon 40\nhit 1 1\nend 1 read 1 opened 1 of 1\n",
        },
        Row {
            script: b"begin v guarantee 1/1\ncertificate v\ncertificate v\n",
            replies: b"begun 3 3\nsegment 10 40 2\nnode 10 0\nnode 20 1\nnode 30 2\nnode 40 2\nend 1 space 2\ndone 6 segments 3 space 4 full 2 horizon 40\nsegment 10 20 1\nsegment 20 30 2\nsegment 30 40 1\nnode 10 0\nnode 20 1\nnode 30 3\nnode 40 4\nend 3 space 4\n",
        },
    ];
    expect_behind(rt.alloc(), &[FOUR_CHANGES, LOOSE_PLAN], &rows)
}

// The second one comes at the end of the input, in place of the first.
#[test]
fn a_plan_is_begun_behind_one_that_was_begun(rt: HostRuntime) -> Result<(), RowError> {
    let row = Row {
        script: b"begin v guarantee 1/1\nshow 1 15\nbegin v guarantee 2/1\n",
        replies: b"begun 3 3\ntext 1\nv\ndone 5 segments 3 space 4 full 2 horizon 40\nbegun 1 1\ndone 6 segments 1 space 2 full 2 horizon 40\n",
    };
    expect_behind(rt.alloc(), &[FOUR_CHANGES], &[row])
}

/// Each image that a stop leaves has at least and at most so many entries.
fn expect_each(alloc: Global, machine: &MemMachine, least: u64, most: u64) -> Result<(), RowError> {
    for moment in 0..machine.moments() {
        expect_entries(alloc, machine, moment, least, most)?;
    }
    Ok(())
}

/// Behind the four changes document 3 has the word `w`, and then comes a change, so that it may be planned.
const ANOTHER_WORD: Row<'static> = Row {
    script: b"arrive 3 50 1\nw\ndelete 3 60\n",
    replies: b"ok 5\nok 6\n",
};

#[test]
fn what_is_begun_beside_a_plan_is_refused(rt: HostRuntime) -> Result<(), RowError> {
    let rows = [
        Row {
            script: b"begin v guarantee 1/1\nbegin v guarantee 2/1\n",
            replies: b"begun 4 3\nno 12 Busy\ndone 7 segments 4 space 4 full 2 horizon 60\n",
        },
        Row {
            script: b"begin v guarantee 1/1\nbegin w guarantee 1/1\n",
            replies: b"begun 4 3\nno 15 OneJob\ndone 7 segments 4 space 4 full 2 horizon 60\n",
        },
        Row {
            script: b"begin v guarantee 1/1\nbegin x guarantee 1/1\n",
            replies: b"begun 4 3\nno 13 UnknownWord\ndone 7 segments 4 space 4 full 2 horizon 60\n",
        },
        Row {
            script: b"begin v guarantee 1/1\nplan w guarantee 1/1\n",
            replies: b"begun 4 3\nplan 7 segments 1 space 1 full 1 horizon 60\ndone 8 segments 4 space 4 full 2 horizon 60\n",
        },
        Row {
            script: b"begin v guarantee 1/1\nbegin v\n",
            replies: b"begun 4 3\nno 1 Line\ndone 7 segments 4 space 4 full 2 horizon 60\n",
        },
        Row {
            script: b"begin v guarantee 1/1\n# skipped\n\narrive 1 70 1\nv\nfind 15 v\n",
            replies: b"begun 4 3\nok 7\ndone 8 segments 4 space 4 full 2 horizon 60\nhit 1 1\nend 1 read 1\n",
        },
    ];
    expect_behind(rt.alloc(), &[FOUR_CHANGES, ANOTHER_WORD], &rows)
}

// The job is left, and nothing of it stands.
#[test]
fn a_broken_script_leaves_what_was_begun(rt: HostRuntime) -> Result<(), RowError> {
    let alloc = rt.alloc();
    let disk = disk_after_all(alloc, new_disk(alloc), &[FOUR_CHANGES])?;
    let script = b"begin v guarantee 1/1\narrive x\n";
    let mut machine = machine_on(alloc, script, copy_image(alloc, &disk)?, &[])?;
    expect_end(
        alloc,
        &mut machine,
        0,
        Status::Script { at: 22 },
        b"begun 3 3\n",
    )?;
    expect_each(alloc, &machine, 4, 4)?;
    let left = read_image(alloc, &mut machine)?;
    let after = Row {
        script: b"certificate v\nfind 15 v\nplan v guarantee 1/1\n",
        replies: b"no 14 NoPlan\nhit 1 1\nend 1 read 2\nplan 5 segments 3 space 4 full 2 horizon 40\n",
    };
    expect_on(alloc, &left, &[after])
}
