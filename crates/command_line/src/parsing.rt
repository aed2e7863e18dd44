ghost use Rattle.std.specs.Prelude.{◌≡◌, ℕ, List, ◌∷◌, ◌≤◌, take, true, false, IfErr, IfOk, Some, is_some, option_map};
ghost use Rattle.clap.specs.Words.{app_of, found_of, kind_of, rows_of, rule_of};
ghost use Rattle.clap.specs.declared.error.kind.ErrorKind.TheVariants.{OutOfMemory};
ghost use Rattle.command_line.specs.Asked.{asked};
ghost use Rattle.command_line.specs.Command.{by_row, command_of, texts_before};
ghost use Rattle.command_line.specs.Command as line;
ghost use Rattle.command_line.specs.Table.{seen};
ghost use Rattle.command_line.specs.Private.CommandLine.{Gives, IsRead, app_with, option_rule, value_found};
ghost use Rattle.command_line.specs.WordsErrors.{error_of_words};

use crate::error::WordsError;
use crate::table::{Choice, Row, row_of};
use crate::words::{Command, by_row, command_with};
use clap::{Arg, ArgAction, ArgMatches};
use std::alloc::{AllocError, Global};

/// The command of the words, the program's name first. Words that are none are usage, and for them
/// no memory is taken; of words that are one there is none only where memory is refused.
#[tactic(auto, using(crate::proofs::Found::no_verb))]
pub fn parse_words<'a>(alloc: Global, words: &'a [String]) -> Result<Command<'a>, WordsError>
    ensures command { IfOk result (λ command. Some (asked command)
        ≡ command_of (line.texts words.entry.now)) }
    ensures error { IfErr result (λ error. error
        ≡ error_of_words (command_of (line.texts words.entry.now))) }
{
    match words {
        [_name, verb, words @ ..] => parse_verb(alloc, verb.as_str(), words),
        _ => Err(WordsError::Usage),
    }
}

// The command of a verb and the words behind it.
fn parse_verb<'a>(alloc: Global, verb: &str, words: &'a [String]) -> Result<Command<'a>, WordsError>
    ensures { (name : List ℕ) → Gives (command_of (name ∷ verb.now ∷ line.texts words.entry.now))
        result }
{
    match row_of(verb) {
        Some(row) => parse_row(alloc, row, words),
        None => Err(WordsError::Usage),
    }
}

// The command of a row: whether there is one is found without memory, and then `clap` reads the
// words.
fn parse_row<'a>(alloc: Global, row: Row, words: &'a [String]) -> Result<Command<'a>, WordsError>
    requires { 1 ≤ row.fewest }
    ensures { Gives (by_row (seen row) (line.texts words.entry.now)) result }
{
    if by_row(row, words).is_none() {
        return Err(WordsError::Usage);
    }
    let found = match_row(alloc, row, words)?;
    read_row(row, words, &found).ok_or(WordsError::Usage)
}

// The matches of words that are a command of a row. There are none only where memory is refused.
fn match_row<'a>(
    alloc: Global,
    row: Row,
    words: &'a [String],
) -> Result<ArgMatches<'a>, clap::Error>
    requires some { 1 ≤ row.fewest }
    requires command { is_some (by_row (seen row) (line.texts words.now)) ≡ true }
    ensures found { IfOk result (λ found. IsRead (seen row) (line.texts words.entry.now)
        (rows_of (found_of found))) }
    ensures error { IfErr result (λ error. kind_of error ≡ OutOfMemory) }
{
    command_line(alloc, row.choice)?.try_get_matches_from(words)
}

// The command that the matches of the words ask for.
fn read_row<'a>(row: Row, words: &'a [String], found: &ArgMatches<'a>) -> Option<Command<'a>>
    requires { IsRead (seen row) (line.texts words.now) (rows_of (found_of found.now)) }
    ensures { option_map asked result ≡ by_row (seen row) (line.texts words.now) }
{
    let texts = texts_found(row, words, found)?;
    let value = value_found(row.choice, found)?;
    command_with(row.verb, texts, value)
}

// The texts among the matches: as many of the words, from the first on.
#[tactic(auto, using(crate::proofs::Found::matched))]
fn texts_found<'a>(row: Row, words: &'a [String], found: &ArgMatches<'a>) -> Option<&'a [String]>
    requires { IsRead (seen row) (line.texts words.now) (rows_of (found_of found.now)) }
    ensures { option_map (λ texts. line.texts texts.now) result
        ≡ Some (take (texts_before (line.texts words.now)) (line.texts words.now)) }
{
    let count = found.get_strs("texts")?.len();
    Some(&words[..count])
}

// The value of an option among the matches, and an empty text where there may be none.
#[tactic(auto, using(crate::proofs::Found::matched))]
fn value_found<'a>(choice: Option<Choice>, found: &ArgMatches<'a>) -> Option<&'a str>
    ensures { option_map (λ text. text.now) result
        ≡ value_found choice (rows_of (found_of found.now)) }
{
    match choice {
        Some(choice) => found.get_str(choice.name()),
        None => Some(""),
    }
}

// The command line behind a verb: texts, and then an option with its default, or none.
fn command_line<'a>(alloc: Global, choice: Option<Choice>) -> Result<clap::Command<'a>, AllocError>
    ensures { IfOk result (λ command. app_of command ≡ app_with choice) }
{
    let texts = Arg::new(alloc, "texts")
        .required(true)
        .action(ArgAction::Set)
        .num_args(1..);
    let command = clap::Command::new(alloc, "pefidx")
        .no_binary_name(true)
        .arg(texts)?;
    match choice {
        Some(choice) => command.arg(option(alloc, choice)),
        None => Ok(command),
    }
}

// An option with its default.
fn option<'a>(alloc: Global, choice: Choice) -> Arg<'a>
    ensures rule { rule_of result ≡ option_rule choice }
    ensures local { result.global ≡ false }
{
    Arg::new(alloc, choice.name())
        .long(choice.name())
        .default_value(choice.default())
}
