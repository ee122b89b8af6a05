//! The program `tt_archive`: one run of the archive on the files of the working folder.
//!
//! It opens `archive.journal` and `archive.pages`, makes a machine of them and of the standard
//! streams (`machine_files::open_machine`), whose long work is told of on standard error, and calls
//! `run_script::run` on it. What it promises is that call's contract. Here stand only the words,
//! the status line and the exit status.
#![tactic(auto)]

ghost use Rattle.std.specs.Prelude.{◌≡◌, Err, IfOk, IfErr};
ghost use Rattle.std.specs.Process.{exit_status};
ghost use Rattle.run_script.specs.Statuses.{code_of};
ghost use Rattle.machine_files.specs.Opening.{open_code};

use machine_files::{
    ArgumentsError, OpenError, OpenLine, Progress, arguments, finish, open_machine,
};
use run_script::{Status, refusal_of, run};
use std::process::ExitCode;

fn main(rt: HostRuntime) -> ExitCode {
    ended(&rt, run_here(&rt))
}

/// The exit status of a run, or of files that were not opened, so that nothing ran. Its line is
/// printed unless the status is `Done` (tested). It is 11 only where another program is at work.
fn ended<R: Eprint>(rt: &R, end: Result<Status, OpenError>) -> ExitCode
    ensures run { IfOk end (λ s. exit_status result ≡ code_of s) }
    ensures unopened { IfErr end (λ e. exit_status result ≡ open_code e) }
    ensures held { exit_status result ≡ 11 → end ≡ Err OpenError.Held }
{
    match end {
        Ok(status) => finish(rt, status.code(), status),
        Err(error) => {
            let program = "tt_archive";
            finish(rt, error.code(), OpenLine { program, error })
        }
    }
}

/// Reads the words of the command line, and then opens the files of the working folder and runs
/// the words on them. Words that are refused touch no file. Long work is told of on standard error.
fn run_here(rt: &HostRuntime) -> Result<Status, OpenError> {
    let words = match arguments(rt) {
        Ok(words) => words,
        Err(ArgumentsError::NotText) => return Ok(Status::Usage),
        Err(ArgumentsError::Memory) => return Ok(Status::Memory),
    };
    if let Some(status) = refusal_of(rt.alloc(), &words) {
        return Ok(status);
    }
    let machine = open_machine(rt)?;
    let progress = Progress::new("tt_archive", rt, rt.stderr());
    let mut machine = machine.watched(&progress);
    Ok(run(rt.alloc(), &words, &mut machine))
}
