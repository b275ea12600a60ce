//! The words of a command line.
ghost use Rattle.std.specs.Prelude.{◌≡◌, false, map, option_map, IfOk, IfSome, string_bytes};
ghost use Rattle.clap.specs.Words.{app_of, found_of, rows_of, rule_of, subcommand_rows_of};
ghost use Rattle.disk_format.specs.Layout.{IsSlotCount};
ghost use Rattle.backup_engine.specs.Line.{line_of, command_of, all_digits, begins_as_number, is_number, percent_of, slots_of};
ghost use Rattle.backup_engine.specs.LineValue.{command_value, line_value, load_value, IsRightCommand, IsRightLine, IsRightLoad};
ghost use Rattle.backup_engine.specs.Words.{argument_rule, line_found, line_matched, line_named, load_matched, table_app, with_load, with_none, with_one};

use crate::load_words::{Load, read_load};
use actor_parts::Percent;
use clap::error::ErrorKind;
use clap::{Arg, ArgAction, ArgMatches};
use disk_format::is_slot_count;
use std::alloc::{AllocError, Global};

/// A command of the table.
#[derive(Clone, Copy)]
pub(crate) enum Command<'a> {
    /// So many container slots, 4 to 65,536.
    Format(u32),
    /// A name.
    Ingest(&'a str),
    /// A name.
    Restore(&'a str),
    /// A name.
    Delete(&'a str),
    List,
    /// A percentage.
    Collect(Percent),
}

/// A line of the table of commands.
#[derive(Clone, Copy)]
pub(crate) enum Line<'a> {
    Single(Command<'a>),
    /// The source is a script.
    Run,
    /// The disk is inspected.
    Check,
    /// Workers store generated files.
    Work(Load),
}

/// The line of the table that the words are, if they are one, or want of memory.
///
/// clap reads them: a line comes only where clap took the words, and the line is the subcommand that it met, with its argument. No
/// check by hand stands beside it, since clap's contract says for such a command which words it takes and what it finds in them, and
/// these are proved to be the words and the values of the table (`line_of`): a first `--` is passed over, a word that begins with a dash
/// is taken after `--` alone, and a request for help or a version is refused as any other word. Only how a word of `format`, `collect` or
/// `work` spells a number is looked at here (`slot_count`, `percentage`, `read_load`). Each error of clap's but want of memory says that
/// the words are no line.
pub(crate) fn read_words<'a>(
    alloc: Global,
    words: &'a [String],
) -> Result<Option<Line<'a>>, AllocError>
    ensures line { IfOk result (λ line. option_map line_value line ≡ line_of (map string_bytes words.now)) }
    ensures right { IfOk result (λ line. IfSome line IsRightLine) }
{
    match table(alloc)?.try_get_matches_from(words) {
        Ok(matches) => Ok(matched_line(&matches)),
        Err(error) => match error.kind() {
            ErrorKind::OutOfMemory => Err(AllocError),
            _ => Ok(None),
        },
    }
}

// clap's command, with a subcommand for each command of the table. It knows no help and no version.
fn table<'a>(alloc: Global) -> Result<clap::Command<'a>, AllocError>
    ensures { IfOk result (λ command. app_of command ≡ table_app) }
{
    let command = clap::Command::new(alloc, "ddfs")
        .no_binary_name(true)
        .disable_help_flag(true)
        .disable_help_subcommand(true)
        .disable_version_flag(true)
        .subcommand_required(true);
    let command = with_argument(alloc, command, "format")?;
    let command = with_argument(alloc, command, "ingest")?;
    let command = with_argument(alloc, command, "restore")?;
    let command = with_argument(alloc, command, "delete")?;
    let command = with_argument(alloc, command, "collect")?;
    let command = without_argument(alloc, command, "list")?;
    let command = without_argument(alloc, command, "run")?;
    let command = without_argument(alloc, command, "check")?;
    with_arguments_of_load(alloc, command)
}

// One more subcommand, with one argument.
fn with_argument<'a>(
    alloc: Global,
    command: clap::Command<'a>,
    name: &'a str,
) -> Result<clap::Command<'a>, AllocError>
    ensures { IfOk result (λ more. app_of more ≡ with_one (app_of command.entry) name.entry.now) }
{
    command.subcommand(clap::Command::new(alloc, name).arg(argument(alloc, "argument"))?)
}

// One more subcommand, with the five arguments of a load.
fn with_arguments_of_load<'a>(
    alloc: Global,
    command: clap::Command<'a>,
) -> Result<clap::Command<'a>, AllocError>
    ensures { IfOk result (λ more. app_of more ≡ with_load (app_of command.entry)) }
{
    let work = clap::Command::new(alloc, "work")
        .arg(argument(alloc, "workers"))?
        .arg(argument(alloc, "seed"))?
        .arg(argument(alloc, "files"))?
        .arg(argument(alloc, "bytes"))?
        .arg(argument(alloc, "percent"))?;
    command.subcommand(work)
}

// An argument that has to be there, as one word.
fn argument<'a>(alloc: Global, id: &'a str) -> Arg<'a>
    ensures rule { rule_of result ≡ argument_rule id.entry.now }
    ensures local { result.global ≡ false }
{
    Arg::new(alloc, id).required(true).action(ArgAction::Set)
}

// One more subcommand, with no argument.
fn without_argument<'a>(
    alloc: Global,
    command: clap::Command<'a>,
    name: &'a str,
) -> Result<clap::Command<'a>, AllocError>
    ensures { IfOk result (λ more. app_of more ≡ with_none (app_of command.entry) name.entry.now) }
{
    command.subcommand(clap::Command::new(alloc, name))
}

// The line that a subcommand is, with the values of its arguments.
fn matched_line<'a>(matches: &ArgMatches<'a>) -> Option<Line<'a>>
    ensures line { option_map line_value result ≡ line_matched (subcommand_rows_of matches.now) }
    ensures right { IfSome result IsRightLine }
{
    let (name, inner) = matches.subcommand()?;
    found_line(name, inner)
}

fn found_line<'a>(name: &str, inner: &ArgMatches<'a>) -> Option<Line<'a>>
    ensures line { option_map line_value result ≡ line_found name.now (rows_of (found_of inner.now)) }
    ensures right { IfSome result IsRightLine }
{
    if name == "work" {
        match matched_load(inner) {
            Some(load) => Some(Line::Work(load)),
            None => None,
        }
    } else {
        named_line(name, inner.get_str("argument"))
    }
}

fn matched_load(matches: &ArgMatches<'_>) -> Option<Load>
    ensures load { option_map load_value result ≡ load_matched (rows_of (found_of matches.now)) }
    ensures right { IfSome result IsRightLoad }
{
    read_load(
        matches.get_str("workers")?,
        matches.get_str("seed")?,
        matches.get_str("files")?,
        matches.get_str("bytes")?,
        matches.get_str("percent")?,
    )
}

fn named_line<'a>(name: &str, argument: Option<&'a str>) -> Option<Line<'a>>
    ensures line { option_map line_value result ≡ line_named name.now (option_map (λ text. text.now) argument.entry) }
    ensures right { IfSome result IsRightLine }
{
    match name {
        "run" => Some(Line::Run),
        "check" => Some(Line::Check),
        "list" => Some(Line::Single(Command::List)),
        _ => match read_command(name, argument?) {
            Some(command) => Some(Line::Single(command)),
            None => None,
        },
    }
}

fn read_command<'a>(command: &str, argument: &'a str) -> Option<Command<'a>>
    ensures line { option_map command_value result ≡ command_of command.now argument.now }
    ensures right { IfSome result IsRightCommand }
{
    match command {
        "format" => Some(Command::Format(slot_count(argument)?)),
        "ingest" => Some(Command::Ingest(argument)),
        "restore" => Some(Command::Restore(argument)),
        "delete" => Some(Command::Delete(argument)),
        "collect" => Some(Command::Collect(percentage(argument)?)),
        _ => None,
    }
}

// Not empty, and no zero before another digit.
fn begins_as_number(word: &str) -> bool
    ensures { result ≡ begins_as_number word.now }
{
    match word.as_bytes() {
        [] => false,
        [_] => true,
        [first, _, ..] => *first != b'0',
    }
}

// Decimal digits alone.
fn all_digits(word: &str) -> bool
    ensures { result ≡ all_digits word.now }
{
    word.as_bytes().iter().all(|byte| byte.is_ascii_digit())
}

// Decimal digits with no sign and no leading zero.
pub(crate) fn is_number(word: &str) -> bool
    ensures { result ≡ is_number word.now }
{
    all_digits(word) && begins_as_number(word)
}

// How many container slots a word stands for, if it does.
fn slot_count(word: &str) -> Option<u32>
    ensures slots { result ≡ slots_of word.now }
    ensures right { IfSome result IsSlotCount }
{
    if !is_number(word) {
        return None;
    }
    match word.parse::<u32>() {
        Ok(slots) => {
            if is_slot_count(slots) {
                Some(slots)
            } else {
                None
            }
        }
        Err(_) => None,
    }
}

// The percentage that a word stands for, if it does.
pub(crate) fn percentage(word: &str) -> Option<Percent>
    ensures { result ≡ percent_of word.now }
{
    if !is_number(word) {
        return None;
    }
    match word.parse::<u32>() {
        Ok(percent) => Percent::new(u64::from(percent)),
        Err(_) => None,
    }
}
