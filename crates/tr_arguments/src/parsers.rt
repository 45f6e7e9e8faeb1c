//! The parser of the words, by `clap`: a subcommand for each accepted first word.
ghost use Rattle.std.specs.Prelude.{◌≡◌, IfOk};
ghost use Rattle.tr_arguments.specs.Parsers as spec;
ghost use Rattle.tr_arguments.specs.Parsers.{parser};
ghost use Rattle.clap.specs.Words.{app_of};

use clap::{Arg, Command};
use std::alloc::{AllocError, Global};

/// The parser. It has no flags and no `help`: the usage is a text of the program's own.
pub fn parser<'a>(alloc: Global) -> Result<Command<'a>, AllocError>
    ensures { IfOk result (λ made. app_of made ≡ parser) }
{
    let number = Arg::new(alloc, "number").required(true);
    let drawn = Command::new(alloc, "gen").arg(number)?;
    let mirroring = playing(alloc)?
        .subcommand(Command::new(alloc, "mirror"))?
        .subcommand(Command::new(alloc, "show"))?;
    mirroring.subcommand(drawn)
}

/// The words that play a script, and write its reports.
fn playing<'a>(alloc: Global) -> Result<Command<'a>, AllocError>
    ensures { IfOk result (λ made. app_of made ≡ spec.playing) }
{
    let bare = Command::new(alloc, "trestle")
        .no_binary_name(true)
        .disable_help_flag(true)
        .disable_help_subcommand(true)
        .subcommand_required(true);
    bare.subcommand(Command::new(alloc, "play"))?
        .subcommand(Command::new(alloc, "serial"))?
        .subcommand(Command::new(alloc, "check"))
}
