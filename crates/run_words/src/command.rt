//! The program's command, and a parse of words by it.
ghost use Rattle.std.specs.Prelude.{◌≡◌, IfOk, false};
ghost use Rattle.clap.specs.Words.{app_of, rule_of};
ghost use Rattle.run_words.specs.Words.{command, flag, option};

use clap::{Arg, ArgAction, Command};
use std::alloc::{AllocError, Global};

/// The option `--name VALUE`, which has one value and need not be given.
fn option<'a>(alloc: Global, name: &'a str) -> Arg<'a>
    ensures rule { rule_of result ≡ option name.entry.now }
    ensures local { result.global ≡ false }
{
    Arg::new(alloc, name).long(name).action(ArgAction::Set)
}

/// The option `--name`, a flag: it has no value and need not be given.
fn flag<'a>(alloc: Global, name: &'a str) -> Arg<'a>
    ensures rule { rule_of result ≡ flag name.entry.now }
    ensures local { result.global ≡ false }
{
    Arg::new(alloc, name).long(name).action(ArgAction::SetTrue)
}

/// The program's command. Constant cost.
pub(crate) fn command<'a>(alloc: Global) -> Result<Command<'a>, AllocError>
    ensures { IfOk result (λ c. app_of c ≡ command) }
{
    Command::new(alloc, "tt_archive")
        .no_binary_name(true)
        .arg(option(alloc, "generate"))?
        .arg(option(alloc, "count"))?
        .arg(option(alloc, "export"))?
        .arg(flag(alloc, "follow"))
}
