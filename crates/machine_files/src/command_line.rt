//! What a program takes from the command line, and how it ends.
ghost use Rattle.std.specs.Prelude.{◌≡◌};
ghost use Rattle.std.specs.Process.{exit_status};

use std::env::Env;
use std::fmt::Display;
use std::io;
use std::process::ExitCode;

/// Why the words of the command line were not read.
#[derive(Clone, Copy, Debug, PartialEq, Eq)]
pub enum ArgumentsError {
    /// A word isn't text.
    NotText,
    /// There was no memory for them.
    Memory,
}

/// The words of the command line behind the program's name. Costs their length.
///
/// No clause says which words these are, as none says what a file holds: std's calls tell nothing of
/// it. *Tested* on the built programs.
pub fn arguments<R: Env + AllocGlobal>(rt: &R) -> Result<Vec<String>, ArgumentsError> {
    match collected(rt) {
        Ok(words) => Ok(words),
        Err(error) => Err(match error.kind() {
            io::ErrorKind::OutOfMemory => ArgumentsError::Memory,
            _ => ArgumentsError::NotText,
        }),
    }
}

fn collected<R: Env + AllocGlobal>(rt: &R) -> io::Result<Vec<String>> {
    let mut all = std::env::args(rt)?;
    let _ = all.next();
    let words = all.collect(rt.alloc())?;
    Ok(words)
}

/// Ends a program by its exit status. Where that isn't 0, a line on standard error tells why (tested);
/// where standard error fails too, the exit status still tells.
pub fn finish<R: Eprint, L: Display + Drop>(rt: &R, code: u8, line: L) -> ExitCode
    ensures { exit_status result ≡ code }
{
    if code != 0 {
        let _ = rt.eprintln(line);
    }
    ExitCode::from(code)
}
