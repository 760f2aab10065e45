//! The program `jwt_tool`: the command of the library `jwt_tool_command`, over the arguments and
//! the standard streams.
//!
//! For shells and scripts that have a secret and need one line: the claims of a token, a token, or
//! the kind of a refusal. The command `jwt` has keys of every kind, options and explanations.
//!
//! `jwt_tool decode HS256 SECRET TIME < token` prints the claims of a token that `decode` accepts
//! at this time, in seconds since 1970 UTC.
//!
//! Nothing stands here but `main`: a program is proved for one processor, and the library once for
//! all.
#![tactic(auto)]

use jwt_tool_command::start;
use std::process::ExitCode;

fn main(rt: HostRuntime) -> ExitCode {
    ExitCode::from(start(&rt))
}
