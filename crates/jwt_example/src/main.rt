//! A service that logs users in: sessions as tokens, keys that are changed, a renewal, and a set of
//! keys that others fetch.
//!
//! For whoever writes a service in Rattle over the library: it is a program that runs, and what it
//! states of itself is proved. Its parts are the samples of README, docs/USING.md and the crates'
//! own pages, which the tests compare with it.
//!
//! [`login`] issues a session and verifies it, [`keys`] goes through a change of keys, `renewal`
//! lets a session end after a day however often it is renewed, and `published` has the set that
//! others fetch. `samples` has the small ones, each a function that is called once.
#![tactic(auto)]

mod clock;
mod fault;
mod keys;
mod login;
mod numbers;
mod published;
mod reading;
mod renewal;
mod samples;
mod service;
mod session;
mod signing;

use fault::Fault;
use keys::show_keys;
use login::show_login;
use samples::show_samples;
use std::process::ExitCode;
use std::rt::Runtime;

fn main(rt: HostRuntime) -> ExitCode {
    match show_all(&rt) {
        Ok(()) => ExitCode::SUCCESS,
        Err(fault) => {
            let _ = eprintln!(rt; "{fault}");
            ExitCode::from(1)
        }
    }
}

fn show_all<T: Runtime + AllocGlobal>(rt: &T) -> Result<(), Fault> {
    show_login(rt)?;
    show_keys(rt)?;
    show_samples(rt)
}
