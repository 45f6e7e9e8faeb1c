//! The commands of the command line.
ghost use Rattle.std.specs.Prelude.{◌≡◌, ◌∷◌, false, IfOk, option_map, string_bytes};
ghost use Rattle.std.specs.List.{list_any};
ghost use Rattle.tr_arguments.specs.Commands.{command_of, gen_of_number, texts_of};
ghost use Rattle.tr_arguments.specs.Parsers.{command_of_found, is_flag, words_of_option};
ghost use Rattle.clap.specs.Words.{subcommand_rows_of};

use crate::parsers::parser;
use clap::ArgMatches;
use clap::error::ErrorKind;
use std::alloc::Global;
use tr_base::NoMemory;
use tr_words::number;

/// A command of the program.
#[derive(Clone, Copy, Debug, PartialEq, Eq)]
pub enum Command {
    /// Plays a script with many threads.
    Play,
    /// Plays a script on one thread.
    Serial,
    /// Plays a script on one thread, and shows after each step the screen's lag.
    Check,
    /// Plays a script on one thread, and writes the stream of the screens that are dumped.
    Mirror,
    /// Reads such a stream, and shows its screens.
    Show,
    /// Plays the script that is drawn from a number.
    Gen(u32),
}

/// The command of the words after the program's name; `None` if they are no accepted list. The accepted
/// ones are `play`, `serial`, `check`, `mirror`, `show`, and `gen` with a number from 0 to 4294967295, in
/// decimal digits without a zero in front.
pub fn command_of(alloc: Global, words: &[String]) -> Result<Option<Command>, NoMemory>
    ensures { IfOk result (λ command. command ≡ command_of (texts_of words.now)) }
{
    if has_flag(words) {
        return Ok(None);
    }
    parse(alloc, words)
}

/// Whether one of the words begins with a hyphen. It would be a flag, and there are none.
fn has_flag(words: &[String]) -> bool
    ensures { result ≡ list_any (λ word. is_flag (string_bytes word)) words.now }
{
    words.iter().any(|word| is_flag(word.as_str()))
}

fn is_flag(word: &str) -> bool
    ensures { result ≡ is_flag word.now }
{
    word.starts_with('-')
}

/// The command of words without a hyphen in front.
fn parse(alloc: Global, words: &[String]) -> Result<Option<Command>, NoMemory>
    requires { list_any (λ word. is_flag (string_bytes word)) words.now ≡ false }
    ensures { IfOk result (λ command. command ≡ command_of (texts_of words.now)) }
{
    let parser = parser(alloc)?;
    match parser.try_get_matches_from(words) {
        Ok(matches) => Ok(found(&matches)),
        Err(error) => match error.kind() {
            ErrorKind::OutOfMemory => Err(NoMemory),
            _ => Ok(None),
        },
    }
}

/// The command of the subcommand that a parse found.
fn found(matches: &ArgMatches) -> Option<Command>
    ensures { result ≡ command_of_found (subcommand_rows_of matches.now) }
{
    match matches.subcommand() {
        Some((name, inner)) => named(name, inner.get_str("number")),
        None => None,
    }
}

/// The command of a first word, with the word after it, if there is one.
fn named(name: &str, number: Option<&str>) -> Option<Command>
    ensures { result ≡ command_of (name.now ∷ words_of_option (option_map (λ word. word.now) number.entry)) }
{
    match (name, number) {
        ("play", None) => Some(Command::Play),
        ("serial", None) => Some(Command::Serial),
        ("check", None) => Some(Command::Check),
        ("mirror", None) => Some(Command::Mirror),
        ("show", None) => Some(Command::Show),
        ("gen", Some(word)) => numbered(word),
        _ => None,
    }
}

/// The command for the script of a number, which has one spelling.
fn numbered(word: &str) -> Option<Command>
    ensures { result ≡ gen_of_number word.now }
{
    match number(word, 0, u32::MAX) {
        Ok(number) => Some(Command::Gen(number)),
        Err(_) => None,
    }
}
