//! The options of a command line.
ghost use Rattle.std.specs.Prelude.{◌≡◌, ◌<◌, ◌≤◌, ◌&&◌, ◌||◌, false, IfErr, IfOk, codes, map, option_and_then};
ghost use Rattle.clap.specs.Words.{FailsBy, app_of, fault_of, first_value, found_of, matched_of, matches_of, one_text};
ghost use Rattle.clap.specs.Words.{rows_of, rule_of};
ghost use Rattle.clap.specs.declared.error.kind.ErrorKind.TheVariants.{InvalidValue};
ghost use Rattle.relay.specs.CommandLine.{chosen, command_line, named, number_rule, flag_rule, faults_in, number_or};
ghost use Rattle.relay.specs.CommandLine.{RefusesFor, asked_in, is_of_words, is_true, kind_in, live_in};
ghost use Rattle.relay.specs.CommandLine.{profile_named, profile_read};
ghost use Rattle.relay.specs.CommandLine.{text_rule};

use clap::parser::ValueSource;
use clap::{Arg, ArgAction, ArgMatches, Command, Error, value_parser};
use std::alloc::{AllocError, Global};
use std::convert::AsStr;
use terminal::Profile;

/// The options that a command line asks for.
#[derive(Clone, Copy, Debug, PartialEq, Eq)]
pub struct Options {
    /// Columns of the screen, 1 to 4096.
    pub width: usize,
    /// Rows of the screen, 1 to 4096.
    pub height: usize,
    /// The functions that the application's terminal has.
    pub profile: Profile,
    /// After how many bytes an update is written, 1 to 2^32 - 1.
    pub every: usize,
    /// Whether the rows are written once, at the end, in place of updates.
    pub is_show: bool,
    /// Whether an update is written after each read that brings bytes, in place of those after `every` bytes.
    pub is_live: bool,
    ghost width_in: { (0 < width) × (width ≤ 4096) },
    ghost height_in: { (0 < height) × (height ≤ 4096) },
    ghost every_in: { 0 < every },
}

/// Why the words of a command line are refused.
#[derive(Debug, Drop)]
pub enum BadWords<'a> {
    /// The words are no command line, or only ask for help or for the version.
    Command(Error),
    /// The terminal's name, which is no profile's.
    Terminal(&'a str),
    /// `--live` is given with `--every` or `--show`.
    Conflict,
}

const MOST: u32 = 4096;

// An option whose value is a number from 1 to `most`.
fn number_option<'a>(
    alloc: Global,
    name: &'a str,
    default: &'a str,
    most: u32,
    help: &'a str,
) -> Arg<'a>
    ensures rule { rule_of result ≡ number_rule name.entry.now default.entry.now most }
    ensures help { result.help ≡ Some help.entry }
    ensures local { result.global ≡ false }
{
    let numbers = value_parser!(u32).range(1..=i64::from(most));
    Arg::new(alloc, name)
        .long(name)
        .value_name("N")
        .value_parser(numbers)
        .default_value(default)
        .help(help)
}

// An option whose value is any text.
fn text_option<'a>(alloc: Global, name: &'a str, default: &'a str, help: &'a str) -> Arg<'a>
    ensures rule { rule_of result ≡ text_rule name.entry.now default.entry.now }
    ensures help { result.help ≡ Some help.entry }
    ensures local { result.global ≡ false }
{
    Arg::new(alloc, name)
        .long(name)
        .value_name("NAME")
        .default_value(default)
        .help(help)
}

fn flag_option<'a>(alloc: Global, name: &'a str, help: &'a str) -> Arg<'a>
    ensures rule { rule_of result ≡ flag_rule name.entry.now }
    ensures help { result.help ≡ Some help.entry }
    ensures local { result.global ≡ false }
{
    Arg::new(alloc, name)
        .long(name)
        .action(ArgAction::SetTrue)
        .help(help)
}

// The help text on standard input and output, with an example.
const STREAMS: &str = "\
Standard input: the bytes that an application writes to its terminal.
Standard output: updates, each the bytes that bring a viewer's terminal of the
same size up to date; or, with --show, the rows of the last screen as UTF-8
text, a line each.

Example:
  printf 'w00tfoobaarbaz' | relay --width 4 --height 3 --show";

fn named_command<'a>(alloc: Global) -> Result<Command<'a>, AllocError>
    ensures { IfOk result (λ c. app_of c ≡ named) }
{
    Command::new(alloc, "relay")
        .about("Keeps the screen of an application, and writes what a viewer needs to show it")
        .after_help(STREAMS)
        .version("0.1.0")
        .bin_name("relay")
}

fn command<'a>(alloc: Global) -> Result<Command<'a>, AllocError>
    ensures { IfOk result (λ c. app_of c ≡ command_line) }
{
    let width = number_option(
        alloc,
        "width",
        "80",
        MOST,
        "Columns of the screen, 1 to 4096",
    );
    let height = number_option(alloc, "height", "24", MOST, "Rows of the screen, 1 to 4096");
    let terminal = text_option(
        alloc,
        "terminal",
        "plain",
        "The terminal of the application [possible values: plain, xterm]",
    );
    let every = number_option(
        alloc,
        "every",
        "4096",
        u32::MAX,
        "Bytes of input between two updates, 1 to 4294967295",
    );
    let show = flag_option(
        alloc,
        "show",
        "Write the rows of the screen once, at the end of the input",
    );
    let live = flag_option(
        alloc,
        "live",
        "Write an update after each read, before the next one; not with --every or --show",
    );
    named_command(alloc)?
        .arg(width)?
        .arg(height)?
        .arg(terminal)?
        .arg(every)?
        .arg(show)?
        .arg(live)
}

// The number that was read, if it is from 1 to `most`, or else the default.
fn chosen(number: Option<u32>, default: u32, most: u32) -> u32
    requires { (0 < default) × (default ≤ most) }
    ensures range { (0 < result) × (result ≤ most) }
    ensures choice { result ≡ chosen default most number }
{
    match number {
        Some(number) if 0 < number && number <= most => number,
        _ => default,
    }
}

// The number of an option, or its default; the command line's parser has checked its range.
fn number(matches: &ArgMatches<'_>, name: &str, default: u32, most: u32) -> usize
    requires { (0 < default) × (default ≤ most) }
    ensures range { (0 < result) × (result ≤ most) }
    ensures read { result ≡ number_or default most (one_text (found_of matches.now) name.now) }
{
    chosen(matches.get_one::<u32>(name), default, most) as usize
}

// Whether a flag was given.
fn flag(matches: &ArgMatches<'_>, name: &str) -> bool
    ensures { result ≡ is_true (one_text (found_of matches.now) name.now) }
{
    matches.get_one::<bool>(name).unwrap_or(false)
}

// Whether an option was given, so that its value is no default.
fn is_given(matches: &ArgMatches<'_>, name: &str) -> bool
    ensures { result ≡ is_of_words (option_and_then (λ a. a.source) (matched_of (found_of matches.now) name.now)) }
{
    match matches.value_source(name) {
        Some(ValueSource::CommandLine) => true,
        Some(ValueSource::DefaultValue) => false,
        None => false,
    }
}

// Whether `--live` was given with `--every` or `--show`.
fn has_conflict(matches: &ArgMatches<'_>) -> bool
    ensures { result ≡ (is_true (one_text (found_of matches.now) (codes "live"))
        && (is_of_words (option_and_then (λ a. a.source) (matched_of (found_of matches.now) (codes "every")))
        || is_true (one_text (found_of matches.now) (codes "show")))) }
{
    flag(matches, "live") && (is_given(matches, "every") || flag(matches, "show"))
}

// The profile of a name, if it is one.
#[tactic(auto, unfolding(crate::specs::CommandLine::profile_named))]
fn profile_named(name: &str) -> Option<Profile>
    ensures { result ≡ profile_named name.now }
{
    match name {
        "plain" => Some(Profile::Plain),
        "xterm" => Some(Profile::Xterm),
        _ => None,
    }
}

// The profile of the terminal's name.
fn profile_in<'a>(matches: &ArgMatches<'a>) -> Result<Profile, BadWords<'a>>
    ensures read { profile_read result
        ≡ option_and_then profile_named (first_value (found_of matches.now) (codes "terminal")) }
    ensures refused { IfErr result (λ bad. kind_in bad ≡ InvalidValue) }
{
    let Some(name) = matches.get_str("terminal") else {
        return Err(BadWords::Terminal(""));
    };
    match profile_named(name) {
        Some(profile) => Ok(profile),
        None => Err(BadWords::Terminal(name)),
    }
}

// The matches of a command line.
fn matches_of<'a, S: AsStr>(alloc: Global, words: &'a [S]) -> Result<ArgMatches<'a>, Error>
    ensures rows { IfOk result
        (λ matches. rows_of (found_of matches) ≡ matches_of command_line (map S.text words.entry.now)) }
    ensures faults { FailsBy (fault_of command_line (map S.text words.entry.now)) result }
{
    command(alloc)?.try_get_matches_from(words)
}

/// Reads a command line, of which the first word is the program's name.
pub fn read<'a, S: AsStr>(alloc: Global, words: &'a [S]) -> Result<Options, BadWords<'a>>
    ensures asked { IfOk result (λ options. asked_in (map S.text words.entry.now) ≡ record {
      width = options.width;
      height = options.height;
      profile = options.profile;
      every = options.every;
      is_show = options.is_show;
      is_live = options.is_live;
    }) }
    ensures live { IfOk result (λ options. live_in (map S.text words.entry.now) ≡ options.is_live) }
    ensures faults { RefusesFor (faults_in (map S.text words.entry.now)) result }
{
    let matches = match matches_of(alloc, words) {
        Ok(matches) => matches,
        Err(error) => return Err(BadWords::Command(error)),
    };
    let profile = match profile_in(&matches) {
        Ok(profile) => profile,
        Err(bad) => return Err(bad),
    };
    if has_conflict(&matches) {
        return Err(BadWords::Conflict);
    }
    Ok(Options {
        width: number(&matches, "width", 80, MOST),
        height: number(&matches, "height", 24, MOST),
        profile,
        every: number(&matches, "every", 4096, u32::MAX),
        is_show: flag(&matches, "show"),
        is_live: flag(&matches, "live"),
    })
}
