//! The command of the program `jwt_tool`: it reads standard input, and prints one line.
//!
//! For shells and scripts that verify, issue or show a token with a secret, or verify claims, and
//! need no options: `jwt_tool decode HS256 SECRET TIME < token` prints the claims as JSON, or the
//! kind of the refusal. Without arguments it prints the header of a token.
//!
//! The program is a library and a `main`, since a library is proved once and a program for each
//! processor. The contract of [`start`] says that the exit status is one of the command's; that of
//! its `run`, that the line is what the library's own definitions allow for the arguments and the
//! input.
#![tactic(auto)]

ghost use Rattle.std.specs.Prelude.{IfOk};
ghost use Rattle.jwt_tool_command.specs.Line.{HasAnswered, IsExitStatus};

mod command;
mod fault;
mod input;
mod run;

use fault::ToolFault;
use run::run;
use std::rt::Runtime;
use std::{env, io};

/// Runs the command with the arguments and the standard streams, and returns the exit status. A
/// [`ToolFault`] is one line on standard error, and the status is 3. The contract is of some
/// arguments and some input, since none of the kit says what the program's own are.
pub fn start<T: Runtime + AllocGlobal>(rt: &T) -> u8
    ensures { IsExitStatus result }
{
    match print_line(rt) {
        Ok(status) => status,
        Err(fault) => {
            let _ = eprintln!(rt; "{fault}");
            3
        }
    }
}

/// Prints the line for the arguments and standard input, and returns the exit status.
fn print_line<T: Runtime + AllocGlobal>(rt: &T) -> Result<u8, ToolFault>
    ensures { IfOk result HasAnswered }
{
    let Ok(mut words) = env::args(rt) else {
        return Err(ToolFault::Read);
    };
    let _program = words.next();
    let Ok(words) = words.collect::<Vec<String>>(rt.alloc()) else {
        return Err(ToolFault::Memory);
    };
    run(rt.alloc(), &words, &mut rt.reader(), &mut io::writer(rt))
}
