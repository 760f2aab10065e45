//! The command `jwt`: it verifies, shows and signs tokens, and lists keys.
//!
//! For the program `jwt`, whose `main` is a call of [`start`]; docs/COMMAND.md is its users' page.
//!
//! The arguments become a request (`jwt_requests`), which `run` answers: it reads the files that are
//! named (`files`), makes keys of them (`keys`), and has the library decide (`verify::verdict`). An
//! answer is a status, an output and a message, and `run_command` writes them. What is said besides
//! the verdict, such as which claim is missing, `jwt_findings` finds by calls of the library too.
//!
//! The contract of [`run_command`] speaks of the request of the arguments, of some contents of the
//! files and of what was written; `crates/jwt_command/README.md` lists what is proved.
#![tactic(auto)]

ghost use Rattle.std.specs.Prelude.{◌⊎◌};
ghost use Rattle.jwt_requests.specs.Arguments.{IsRequestOf};
ghost use Rattle.jwt_command.specs.Commands.{IsFaultStatus, IsStatus};
ghost use Rattle.jwt_requests.specs.declared.request.Request.{Request};

mod answer;
mod clock;
mod explain;
mod files;
mod keys;
mod run;
mod show;
mod sign;
mod verify;

use answer::write_output;
use clap::ArgMatches;
use jwt_requests::{Fault, Request, command, parse_request};
use run::answer;
use serde_json::Value;
use std::alloc::{AllocError, Global};
use std::io::{ErrorKind, Write};
use std::rt::{Env, Runtime};
use std::{env, io};

/// Writes the answer to the arguments, and returns the exit status: that of the answer, or 2 for
/// arguments that ask for nothing that can be done, and 3 for files, streams, the clock and memory.
pub fn run_command<T: Runtime + AllocGlobal, W: Write>(
    rt: &T,
    matches: &ArgMatches<'_>,
    writer: &mut W,
) -> u8
    ensures { IsFaultStatus result ⊎ ((r : Request) × IsRequestOf matches.now r
        × IsStatus r (W.contents writer.old) (W.contents writer.new) result) }
{
    match parse_request(rt.alloc(), matches) {
        Ok(request) => write_answer(rt, &request, writer),
        Err(fault) => report_fault(rt, &fault),
    }
}

/// Runs the program with its arguments and the standard streams.
pub fn start<T: Runtime + AllocGlobal>(rt: &T) -> u8 {
    let words = match words(rt) {
        Ok(words) => words,
        Err(fault) => return report_fault(rt, &fault),
    };
    let Ok(command) = command(rt.alloc()) else {
        return report_fault(rt, &Fault::Memory);
    };
    match command.try_get_matches_from(words.as_slice()) {
        Ok(matches) => run_command(rt, &matches, &mut io::writer(rt)),
        Err(error) => report_mistake(rt, &error),
    }
}

/// Writes the answer to a request, and returns its status.
fn write_answer<T: Runtime + AllocGlobal, W: Write>(
    rt: &T,
    request: &Request<'_, '_>,
    writer: &mut W,
) -> u8
    ensures { IsStatus request.now (W.contents writer.old) (W.contents writer.new) result }
{
    let answer = match answer(rt, request) {
        Ok(answer) => answer,
        Err(fault) => {
            write_fault(rt.alloc(), request, &fault, writer);
            return report_fault(rt, &fault);
        }
    };
    if let Err(fault) = write_output(writer, answer.output.as_str()) {
        return report_fault(rt, &fault);
    }
    let _ = rt.eprint(answer.message.as_str());
    answer.status
}

/// Writes a line of JSON about a fault, if the request asks for one line of JSON.
fn write_fault<W: Write>(
    alloc: Global,
    request: &Request<'_, '_>,
    fault: &Fault<'_>,
    writer: &mut W,
) {
    let is_json = match request {
        Request::Verify(request) => request.is_json && !request.is_lines,
        Request::Explain(request) => request.is_json,
        Request::Show(request) => request.is_json,
        Request::Keys(request) => request.is_json,
        _ => false,
    };
    if let (true, Ok(line)) = (is_json, fault_line(alloc, fault)) {
        let _ = write_output(writer, line.as_str());
    }
}

/// Returns one line of JSON about a fault.
fn fault_line(alloc: Global, fault: &Fault<'_>) -> Result<String, AllocError> {
    let text = Value::String(format!(in alloc; "{fault}")?);
    let text = text.to_string(alloc)?;
    format!(in alloc; "{{\"ok\":false,\"error\":{text}}}\n")
}

/// Returns the exit status of a fault, which is said on standard error.
fn report_fault<R: Eprint>(rt: &R, fault: &Fault<'_>) -> u8
    ensures { IsFaultStatus result }
{
    let _ = eprintln!(rt; "error: {fault}");
    fault.status()
}

/// Returns the words of the command line.
fn words<R: Env + AllocGlobal>(rt: &R) -> Result<Vec<String>, Fault<'static>> {
    match env::args(rt) {
        Ok(words) => Ok(words.collect::<Vec<String>>(rt.alloc())?),
        Err(error) if error.kind() == ErrorKind::InvalidData => Err(Fault::Usage(
            "an argument is not UTF-8",
        )),
        Err(_) => Err(Fault::Memory),
    }
}

/// Prints the help or the version that is asked for, or the mistake in the arguments; returns the
/// status.
fn report_mistake<R: Print + Eprint + AllocGlobal>(rt: &R, error: &clap::Error) -> u8 {
    match sentence(rt.alloc(), error) {
        Ok(Some(sentence)) => report_fault(rt, &Fault::Usage(sentence)),
        Ok(None) => {
            let is_printed = error.print(rt).is_ok();
            printed_status(error, is_printed)
        }
        Err(_) => report_fault(rt, &Fault::Memory),
    }
}

/// Returns a sentence in place of a text that would show a word of the command line, which may be a
/// token or a secret.
fn sentence(alloc: Global, error: &clap::Error) -> Result<Option<&'static str>, AllocError> {
    match error.kind() {
        clap::error::ErrorKind::InvalidSubcommand => {
            Ok(Some("there is no such command; 'jwt help' lists them"))
        }
        clap::error::ErrorKind::TooManyValues => {
            Ok(Some("an argument is given a value that it does not take"))
        }
        clap::error::ErrorKind::UnknownArgument => {
            let names_option = error.to_string(alloc)?.contains("argument '-");
            Ok(if names_option {
                None
            } else {
                Some("there is a word too many on the command line")
            })
        }
        _ => Ok(None),
    }
}

fn printed_status(error: &clap::Error, is_printed: bool) -> u8 {
    match error.kind() {
        clap::error::ErrorKind::OutOfMemory => 3,
        _ if error.use_stderr() => 2,
        _ if is_printed => 0,
        _ => 3,
    }
}
