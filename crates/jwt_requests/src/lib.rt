//! The requests of the command `jwt`: what its arguments ask for, and the faults that leave a
//! request without an answer.
//!
//! For `jwt_command`, which answers a request. Nothing here reads a file or the clock, or verifies a
//! token, so this crate stands on the errors, the algorithms and the names of hashes alone.
//!
//! [`command`] tells `clap` the commands and what each takes. [`parse_request`] makes a [`Request`]
//! of the arguments that `clap` found; its contract, `IsRequestOf`, names each argument. Without a
//! request there is a [`Fault`], which has an exit status and a sentence.
//!
//! ```rust
//! match parse_request(rt.alloc(), matches) {
//!     Ok(request) => write_answer(rt, &request, writer),
//!     Err(fault) => report_fault(rt, &fault),
//! }
//! ```
#![tactic(auto)]

mod arguments;
mod fault;
mod request;
mod spans;

pub use arguments::command;
pub use fault::{Fault, fault_of, is_memory};
pub use request::{
    AttachArgs, Checks, Draft, KeyFile, KeysArgs, Request, SecretFile, ShowArgs, SignArgs,
    ThumbprintArgs, VerifyArgs, is_of_secret, parse_request,
};
