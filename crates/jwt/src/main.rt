//! The program `jwt`: the command of the library `jwt_command`, over the arguments and the standard
//! streams.
//!
//! For operators and developers: it verifies tokens with keys in files, explains why one is
//! refused, shows and signs tokens, and lists keys. docs/COMMAND.md has each of its commands with
//! an example, and `jwt help` the arguments.
//!
//! `jwt verify --jwks keys.json --strict < token` prints the claims of a token that is accepted,
//! and ends with status 1 if it is refused.
//!
//! Nothing stands here but `main`: a program is proved for one processor, and the library once for
//! all.
#![tactic(auto)]

use jwt_command::start;
use std::process::ExitCode;

fn main(rt: HostRuntime) -> ExitCode {
    ExitCode::from(start(&rt))
}
