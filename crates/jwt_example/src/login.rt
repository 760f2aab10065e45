//! The sessions of a service whose keys change.

use crate::clock::current_time;
use crate::fault::Fault;
use crate::reading::session_of;
use crate::renewal::last_moment;
use crate::service::Service;
use crate::session::Session;
use jsonwebtoken::{Text, Texts};
use std::alloc::Global;
use std::rt::Runtime;

/// Shows a session of a new service.
pub fn show_login<T: Runtime + AllocGlobal>(rt: &T) -> Result<(), Fault> {
    let mut service = Service::new(rt.alloc(), "2025", b"the secret of 2025, in 32 bytes.")?;
    let token = service.issue(rt.alloc(), &ada(rt.alloc())?)?;
    show_until_retired(rt, &mut service, &token)
}

/// Returns the session of Ada, who may read and write until 2100-01-01 00:00:00 UTC.
fn ada(alloc: Global) -> Result<Session, Fault> {
    Ok(Session {
        user: Text::from_str(alloc, "ada")?,
        roles: Some(Texts::from_slice(alloc, &["read", "write"])?),
        ends: 4102444800,
    })
}

/// Shows what is read of the token until its key is retired.
fn show_until_retired<T: Runtime + AllocGlobal>(
    rt: &T,
    service: &mut Service,
    token: &str,
) -> Result<(), Fault> {
    show(rt, service, token, current_time(rt)?)?;
    let last = last_moment(&service.validation, &ada(rt.alloc())?);
    println!(rt; "{token}: renew by {last}")?;
    show(rt, service, token, last)?;
    show(rt, service, token, last.saturating_add(1))?;
    service.rotate(rt.alloc(), "2026", b"the secret of 2026, in 32 bytes.")?;
    show(rt, service, token, last)?;
    service.retire("2025");
    show(rt, service, token, last)
}

/// Shows the session of the token, or the refusal.
fn show<T: Runtime + AllocGlobal>(
    rt: &T,
    service: &Service,
    token: &str,
    time: u64,
) -> Result<(), Fault> {
    let (keys, validation) = (&service.keys, &service.validation);
    let answer = session_of(rt.alloc(), token.as_bytes(), keys, validation, time);
    Ok(println!(rt; "{answer:?}")?)
}
