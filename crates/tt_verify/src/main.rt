//! The program `tt_verify`: an audit of the archive in the working folder, by which nothing is written.
//!
//! It opens `archive.journal` and `archive.pages` to read them alone, makes a machine of them and of
//! the standard streams (`machine_files::open_to_read`), and calls `run_audit::audit` on it. What
//! it promises is that call's contract. Here stand only the words, the status line and the exit status.
#![tactic(auto)]

ghost use Rattle.std.specs.Prelude.{◌≡◌, Err, IfOk, IfErr};
ghost use Rattle.std.specs.Process.{exit_status};
ghost use Rattle.run_audit.specs.Statuses.{code_of};
ghost use Rattle.machine_files.specs.Opening.{open_code};

use machine_files::{
    ArgumentsError, OpenError, OpenLine, Progress, arguments, finish, open_to_read,
};
use run_audit::{AuditStatus, are_refused, audit};
use std::process::ExitCode;

fn main(rt: HostRuntime) -> ExitCode {
    ended(&rt, audit_here(&rt))
}

/// The exit status of an audit, or of files that were not opened, so that nothing ran. Its line is
/// printed unless the status is `Sound` (tested). It is 11 only where another program is at work.
fn ended<R: Eprint>(rt: &R, end: Result<AuditStatus, OpenError>) -> ExitCode
    ensures audit { IfOk end (λ s. exit_status result ≡ code_of s) }
    ensures unopened { IfErr end (λ e. exit_status result ≡ open_code e) }
    ensures held { exit_status result ≡ 11 → end ≡ Err OpenError.Held }
{
    match end {
        Ok(status) => finish(rt, status.code(), status),
        Err(error) => {
            let program = "tt_verify";
            finish(rt, error.code(), OpenLine { program, error })
        }
    }
}

/// Reads the words of the command line, and then opens the files of the working folder and audits
/// them. Words that are refused touch no file, and no file is made. Long work is told of on standard error.
fn audit_here(rt: &HostRuntime) -> Result<AuditStatus, OpenError> {
    let words = match arguments(rt) {
        Ok(words) => words,
        Err(ArgumentsError::NotText) => return Ok(AuditStatus::Usage),
        Err(ArgumentsError::Memory) => return Ok(AuditStatus::Memory),
    };
    if are_refused(&words) {
        return Ok(AuditStatus::Usage);
    }
    let machine = open_to_read(rt)?;
    let progress = Progress::new("tt_verify", rt, rt.stderr());
    let mut machine = machine.watched(&progress);
    Ok(audit(rt.alloc(), &words, &mut machine))
}
