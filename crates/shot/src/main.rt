//! Writes the screen that an application's output or a recording leads to.
//!
//! - `error`: why no more screens are written.
//! - `format`: a screen in one of five forms.
//! - `laws`: laws of the definitions, as the contracts of functions that do nothing.
//! - `names`: the names of files with a screen each.
//! - `options`: the options of a command line.
//! - `play`: a recording that is played to a terminal.
//! - `service`: the program on an input, and on its streams.
//! - `shots`: the screens of a recording.
//! - `sink`: where screens are written.
#![tactic(auto)]

ghost use Rattle.std.specs.Prelude.{◌≡◌, false};

mod error;
mod format;
mod laws;
mod names;
mod options;
mod play;
mod service;
mod shots;
mod sink;

use options::{Options, read};
use service::{explain_words, refuse, refuse_input, report, serve};
use sink::{NumberedFiles, Sink, Stream};
use std::io::ErrorKind;
use std::process::ExitCode;
use std::{env, fs};

// Runs the options, with the screens written to a sink.
fn run_to<T: Sink>(rt: &HostRuntime, options: Options<'_>, writer: &mut T) -> u8
    requires { T.is_closed writer.old ≡ false }
{
    let alloc = rt.alloc();
    let mut faults = rt.stderr();
    let Some(name) = options.file else {
        let mut reader = rt.stdin();
        return serve(
            alloc,
            options,
            "standard input",
            &mut reader,
            writer,
            &mut faults,
        );
    };
    match fs::open(rt, name) {
        Ok(mut file) => serve(alloc, options, name, &mut file, writer, &mut faults),
        Err(_) => refuse_input(alloc, name, &mut faults),
    }
}

fn run(rt: &HostRuntime, options: Options<'_>) -> u8 {
    match options.output {
        Some(name) => run_to(rt, options, &mut NumberedFiles::new(rt, rt.alloc(), name)),
        None => run_to(rt, options, &mut Stream::new(rt.stdout())),
    }
}

fn answer(rt: &HostRuntime, words: &[String]) -> u8 {
    match read(rt.alloc(), words) {
        Ok(options) => run(rt, options),
        Err(error) => {
            let mut writer = Stream::new(rt.stdout());
            explain_words(rt.alloc(), &error, &mut writer, &mut rt.stderr())
        }
    }
}

fn main(rt: HostRuntime) -> ExitCode {
    let mut faults = rt.stderr();
    let words: Vec<String> = match env::args(&rt) {
        Ok(words) => match words.collect(rt.alloc()) {
            Ok(words) => words,
            Err(_) => return ExitCode::from(report(&mut faults, "out of memory")),
        },
        Err(error) if error.kind() == ErrorKind::OutOfMemory => {
            return ExitCode::from(report(&mut faults, "out of memory"));
        }
        Err(_) => {
            let text = "error: invalid UTF-8 was detected in one or more arguments\n";
            return ExitCode::from(refuse(&mut faults, &[text]));
        }
    };
    ExitCode::from(answer(&rt, words.as_slice()))
}
