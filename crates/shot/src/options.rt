//! The options of a command line.
ghost use Rattle.std.specs.Prelude.{◌≡◌, codes, option_and_then};
ghost use Rattle.clap.specs.Words.{first_value, found_of, one_text};
ghost use Rattle.shot.specs.Words.{asked_by, format_of, is_given, output_of, output_read, profile_named, reading_of};
ghost use Rattle.shot.specs.Words.{seconds_of};

use crate::format::Format;
use crate::names::{Numbered, numbered_in};
use crate::shots::Shots;
use clap::{Arg, ArgAction, ArgMatches, Command, Error, value_parser};
use recordings::time_of;
use std::alloc::{AllocError, Global};
use std::convert::AsStr;
use terminal::Profile;

/// The options that a command line asks for.
#[derive(Clone, Copy, Debug)]
pub struct Options<'a> {
    /// The screens that are written.
    pub asked: Shots,
    /// Columns of the screen in place of those of the input, from 1 to 4096.
    pub width: Option<u32>,
    /// Rows of the screen in place of those of the input, from 1 to 4096.
    pub height: Option<u32>,
    /// The functions that the application's terminal has, in place of those that the input tells.
    pub profile: Option<Profile>,
    /// Whether a recording that is cut off in its last line is shown as far as it goes.
    pub is_partial: bool,
    /// The files that the screens are written to, or standard output.
    pub output: Option<Numbered<'a>>,
    /// The file that is read, or standard input.
    pub file: Option<&'a str>,
}

/// Why the words of a command line are refused.
#[derive(Debug, Drop)]
pub enum BadWords {
    /// The words are no command line, or only ask for help or for the version.
    Command(Error),
    /// The option of this name has no number of seconds, or a step of 0.
    Seconds(&'static str),
    /// The name of the files has no place for a number.
    Output,
}

const FORMATS: [&str; 5] = ["text", "ansi", "html", "svg", "json"];

const PROFILES: [&str; 2] = ["plain", "xterm"];

// An option with a value.
fn option<'a>(alloc: Global, name: &'a str, value: &'a str, help: &'a str) -> Arg<'a> {
    Arg::new(alloc, name)
        .long(name)
        .value_name(value)
        .action(ArgAction::Set)
        .help(help)
}

// An option whose value is a number of columns or rows.
fn size_option<'a>(alloc: Global, name: &'a str, help: &'a str) -> Arg<'a> {
    option(alloc, name, "N", help).value_parser(value_parser!(u32).range(1..=4096))
}

fn format_option<'a>(alloc: Global) -> Arg<'a> {
    option(alloc, "format", "FORMAT", "The form of the screen")
        .value_parser(FORMATS.as_slice())
        .default_value("text")
}

// The help text on input and output.
const MORE: &str = "\
Input: the bytes that an application writes to its terminal; or a recording in
asciicast version 1, 2 or 3, which has its size and is told apart by its header.

Examples:
  shot < output
  shot --format svg session.cast > last.svg
  shot --format html --at 12.5 session.cast > page.html
  shot --format json --step 1 session.cast
  shot --format svg --step 1 --output page-%04d.svg session.cast";

fn named_command<'a>(alloc: Global) -> Result<Command<'a>, AllocError> {
    let command = Command::new(alloc, "shot")
        .about("Writes the screen that an application's output or a recording leads to")
        .after_help(MORE)
        .version("0.1.0")
        .bin_name("shot")?;
    command.arg(format_option(alloc))
}

fn sized_command<'a>(alloc: Global, command: Command<'a>) -> Result<Command<'a>, AllocError> {
    let width = size_option(
        alloc,
        "width",
        "Columns of the screen, 1 to 4096 [default: the recording's, or 80]",
    );
    let height = size_option(
        alloc,
        "height",
        "Rows of the screen, 1 to 4096 [default: the recording's, or 24]",
    );
    command.arg(width)?.arg(height)?.arg(terminal_option(alloc))
}

fn terminal_option<'a>(alloc: Global) -> Arg<'a> {
    option(
        alloc,
        "terminal",
        "NAME",
        "The terminal of the application [default: xterm, or plain for a recording with TERM=rilqamyn]",
    )
    .value_parser(PROFILES.as_slice())
}

// An option whose value is a number of seconds, which `seconds` reads.
fn seconds_option<'a>(alloc: Global, name: &'a str, help: &'a str) -> Arg<'a> {
    option(alloc, name, "SECONDS", help).allow_negative_numbers(true)
}

fn timed_command<'a>(alloc: Global, command: Command<'a>) -> Result<Command<'a>, AllocError> {
    let at = seconds_option(
        alloc,
        "at",
        "The time of the screen in a recording [default: its end]",
    );
    let step = seconds_option(
        alloc,
        "step",
        "Also write the screen at each multiple of this time before that",
    );
    let partial = Arg::new(alloc, "partial")
        .long("partial")
        .action(ArgAction::SetTrue)
        .help("Show what came before where a recording is cut off in its last line");
    let output = option(
        alloc,
        "output",
        "NAME",
        "Write each screen to a file of its own; %04d in NAME stands for its number, from 0001 on",
    );
    command.arg(at)?.arg(step)?.arg(partial)?.arg(output)
}

fn command<'a>(alloc: Global) -> Result<Command<'a>, AllocError> {
    let command = sized_command(alloc, named_command(alloc)?)?;
    let command = timed_command(alloc, command)?;
    command.arg(Arg::new(alloc, "FILE").help("The input [default: standard input]"))
}

// The form of a name; `Text` for any other name.
#[tactic(auto, unfolding(crate::specs::Words::format_of))]
fn format_of(name: &str) -> Format
    ensures { result ≡ format_of name.now }
{
    match name {
        "ansi" => Format::Ansi,
        "html" => Format::Html,
        "svg" => Format::Svg,
        "json" => Format::Json,
        _ => Format::Text,
    }
}

// The profile of a name, if it is one.
#[tactic(auto, unfolding(crate::specs::Words::profile_named))]
fn profile_named(name: &str) -> Option<Profile>
    ensures { result ≡ profile_named name.now }
{
    match name {
        "plain" => Some(Profile::Plain),
        "xterm" => Some(Profile::Xterm),
        _ => None,
    }
}

// The profile that the matches name, if they name one.
fn profile(matches: &ArgMatches<'_>) -> Option<Profile>
    ensures { result ≡ option_and_then profile_named (first_value (found_of matches.now) (codes "terminal")) }
{
    profile_named(matches.get_str("terminal")?)
}

// Whether an option that takes no value is given.
#[tactic(auto, unfolding(crate::specs::Words::is_given))]
fn is_given(matches: &ArgMatches<'_>, name: &str) -> bool
    ensures { result ≡ is_given (one_text (found_of matches.now) name.now) }
{
    matches.get_one::<bool>(name).unwrap_or(false)
}

// The microseconds of an option's number of seconds, if the option is given.
#[tactic(auto, unfolding(crate::specs::Words::seconds_of))]
fn seconds(matches: &ArgMatches<'_>, name: &'static str) -> Result<Option<u64>, BadWords>
    ensures { reading_of result ≡ seconds_of name.entry.now (first_value (found_of matches.now) name.entry.now) }
{
    let Some(text) = matches.get_str(name) else {
        return Ok(None);
    };
    match time_of(text) {
        Some(time) => Ok(Some(time)),
        None => Err(BadWords::Seconds(name)),
    }
}

// The screens that the matches ask for.
#[tactic(auto, unfolding(crate::specs::Words::asked_by))]
fn asked(matches: &ArgMatches<'_>) -> Result<Shots, BadWords>
    ensures { reading_of result ≡ asked_by (first_value (found_of matches.now) (codes "format"))
        (first_value (found_of matches.now) (codes "at")) (first_value (found_of matches.now) (codes "step")) }
{
    let format = matches.get_str("format").map_or(Format::Text, format_of);
    let at = seconds(matches, "at")?;
    match seconds(matches, "step")? {
        Some(0) => Err(BadWords::Seconds("step")),
        step => Ok(Shots {
            format,
            at,
            step: step.unwrap_or(0),
        }),
    }
}

// The name of the files that the matches name, if they name one.
#[tactic(auto, unfolding(crate::specs::Words::output_of))]
fn output<'a>(matches: &ArgMatches<'a>) -> Result<Option<Numbered<'a>>, BadWords>
    ensures { output_read result ≡ output_of (first_value (found_of matches.now) (codes "output")) }
{
    let Some(name) = matches.get_str("output") else {
        return Ok(None);
    };
    match numbered_in(name) {
        Some(name) => Ok(Some(name)),
        None => Err(BadWords::Output),
    }
}

/// Reads a command line, of which the first word is the program's name.
pub fn read<'a, S: AsStr>(alloc: Global, words: &'a [S]) -> Result<Options<'a>, BadWords> {
    let matches = match matches_of(alloc, words) {
        Ok(matches) => matches,
        Err(error) => return Err(BadWords::Command(error)),
    };
    Ok(Options {
        asked: asked(&matches)?,
        width: matches.get_one::<u32>("width"),
        height: matches.get_one::<u32>("height"),
        profile: profile(&matches),
        is_partial: is_given(&matches, "partial"),
        output: output(&matches)?,
        file: matches.get_str("FILE"),
    })
}

fn matches_of<'a, S: AsStr>(alloc: Global, words: &'a [S]) -> Result<ArgMatches<'a>, Error> {
    command(alloc)?.try_get_matches_from(words)
}
