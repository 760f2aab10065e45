//! What the calls with handles leave.

// A call takes what the handle holds out of it, and puts it back: an export gets the handle as a
// place that it may write to.

ghost use Rattle.std.specs.Prelude.{◌≡◌, None, Some, Option, IfOk, IfErr, OnErr, MatchOption};
ghost use Rattle.std.specs.Prelude.{length};
ghost use Rattle.jwt_c_calls.specs.Acceptors.{made_value};
ghost use Rattle.jwt_c_calls.specs.Contents.{acceptors_in, keys_in, AreJoined, IsSame};
ghost use Rattle.jwt_c_calls.specs.Held.{AddsTo, IsHeldAs, IsMadeOf, IsNotAdded, IsUnmadeOf};
ghost use Rattle.jwt_c_calls.specs.Held.{LeavesJoined, LeavesKey, LeavesShared, info_held, key_held};
ghost use Rattle.jwt_c_calls.specs.KeyForms.{AnswersForm};
ghost use Rattle.jwt_c_calls.specs.KeyInfos.{key_at};
ghost use Rattle.jwt_c_calls.specs.KeyLists.{keys_of, kept_len};
ghost use Rattle.jwt_c_calls.specs.Verdicts.{AcceptsIn, RefusesIn};
ghost use Rattle.jwt_c_calls.specs.Verifiers.{limits_of};

use crate::acceptors::Made;
use crate::content::Content;
use crate::handle::Handle;
use crate::held_keys::{HeldKeys, KeyInfo};
use crate::key_forms::{KeyForm, form_answer};
use crate::key_sources::{Source, read_keys};
use crate::status::leave;
use crate::status_table::{HANDLE_IN_USE, NO_KEYS, NO_VERIFIER, OK, OUT_OF_MEMORY};
use crate::verdicts::{Accepted, TokenRefusal, decode_by_all, told};
use crate::verifiers::verifier_of;
use std::alloc::{AllocError, Global};
use std::result::Result;

/// How many items some bytes have, and how many of them are kept.
#[derive(Clone, Copy)]
pub struct Added {
    pub items: usize,
    pub kept: usize,
}

/// Adds the keys that some bytes are to those of a handle, or returns the status of the reason for
/// which none are added.
pub fn add_keys(
    alloc: Global,
    source: Source,
    bytes: &[u8],
    keys: &mut Handle,
) -> Result<Added, u32>
    ensures ok { IfOk result (λ a. AddsTo source bytes.now keys.old.held keys.new.held a.items
        a.kept) }
    ensures err { IfErr result (IsNotAdded source bytes.now keys.old.held) }
    ensures unchanged { OnErr result (IsSame keys.old.held keys.new.held) }
{
    match keys.take(alloc) {
        Some(mut held) => {
            let added = add_to(alloc, source, bytes, &mut *held);
            *keys = Handle::of(held);
            added
        }
        None => fill(alloc, source, bytes, keys),
    }
}

fn add_to(alloc: Global, source: Source, bytes: &[u8], content: &mut Content) -> Result<Added, u32>
    ensures ok { IfOk result (λ a. AddsTo source bytes.now (Some content.old) (Some content.new)
        a.items a.kept) }
    ensures err { IfErr result (IsNotAdded source bytes.now (Some content.old)) }
    ensures unchanged { OnErr result (IsSame (Some content.old) (Some content.new)) }
{
    match content {
        Content::Keys(keys) => {
            let more = read_keys(alloc, source, bytes)?;
            let added = added_by(&more);
            match keys.add(more) {
                Ok(()) => Ok(added),
                Err(_) => Err(OUT_OF_MEMORY.0),
            }
        }
        Content::Verifier(_, _) => Err(NO_KEYS.0),
    }
}

// Leaves the keys that some bytes are in a handle that holds nothing.
fn fill(alloc: Global, source: Source, bytes: &[u8], keys: &mut Handle) -> Result<Added, u32>
    requires { keys.old.held ≡ None }
    ensures ok { IfOk result (λ a. AddsTo source bytes.now None keys.new.held a.items a.kept) }
    ensures err { IfErr result (IsNotAdded source bytes.now None) }
    ensures unchanged { OnErr result (keys.new.held ≡ None) }
{
    let read = read_keys(alloc, source, bytes)?;
    let added = added_by(&read);
    match Box::new(alloc, Content::Keys(read)) {
        Ok(held) => {
            *keys = Handle::of(held);
            Ok(added)
        }
        Err(_) => Err(OUT_OF_MEMORY.0),
    }
}

fn added_by(keys: &HeldKeys) -> Added
    ensures items { result.items ≡ length keys.now.items.items }
    ensures kept { result.kept ≡ kept_len keys.now.items.items }
{
    Added {
        items: keys.items.len(),
        kept: keys.kept_len(),
    }
}

/// Returns what the item at this place of a handle can do, or the status of the reason for which
/// there is none.
pub fn info_in(alloc: Global, keys: &mut Handle, at: usize) -> Result<KeyInfo, u32>
    ensures held { keys.new.held ≡ keys.old.held }
    ensures info { result ≡ info_held (keys_in keys.old.held) at }
{
    match keys.take(alloc) {
        Some(held) => {
            let info = info_of(&*held, at);
            *keys = Handle::of(held);
            info
        }
        None => Err(NO_KEYS.0),
    }
}

fn info_of(content: &Content, at: usize) -> Result<KeyInfo, u32>
    ensures { result ≡ info_held (keys_in (Some content.now)) at }
{
    match content {
        Content::Keys(keys) => keys.info_at(at),
        Content::Verifier(_, _) => Err(NO_KEYS.0),
    }
}

/// Leaves the key of the item at this place of a handle, in this form.
pub fn leave_key(
    alloc: Global,
    keys: &mut Handle,
    at: usize,
    form: KeyForm,
    room: &mut [u8],
    len: &mut usize,
) -> u32
    ensures held { keys.new.held ≡ keys.old.held }
    ensures key { LeavesKey (AnswersForm form) (key_held (keys_in keys.old.held) at) result
        len.new room.old room.new }
{
    match keys.take(alloc) {
        Some(held) => {
            let status = leave_key_of(alloc, &*held, at, form, room, len);
            *keys = Handle::of(held);
            status
        }
        None => {
            *len = 0;
            NO_KEYS.0
        }
    }
}

fn leave_key_of(
    alloc: Global,
    content: &Content,
    at: usize,
    form: KeyForm,
    room: &mut [u8],
    len: &mut usize,
) -> u32
    ensures { LeavesKey (AnswersForm form) (key_held (keys_in (Some content.now)) at) result
        len.new room.old room.new }
{
    match content {
        Content::Keys(keys) => leave_key_at(alloc, keys, at, form, room, len),
        Content::Verifier(_, _) => {
            *len = 0;
            NO_KEYS.0
        }
    }
}

fn leave_key_at(
    alloc: Global,
    keys: &HeldKeys,
    at: usize,
    form: KeyForm,
    room: &mut [u8],
    len: &mut usize,
) -> u32
    ensures { LeavesKey (AnswersForm form) (key_at keys.now.items.items at) result len.new
        room.old room.new }
{
    match keys.key_at(at) {
        Ok(key) => {
            let answer = form_answer(alloc, key, form);
            leave(answer, room, len)
        }
        Err(status) => {
            *len = 0;
            status
        }
    }
}

/// Returns the verifier with the keys of a handle and the options that a text describes, or the
/// status of the reason for which there is none.
pub fn verifier_from(
    alloc: Global,
    keys: &mut Handle,
    options: &[u8],
    max_len: usize,
    max_prepared: usize,
) -> Result<Made, u32>
    ensures held { keys.new.held ≡ keys.old.held }
    ensures ok { IfOk result (λ m. IsMadeOf (keys_in keys.old.held) options.now
        (limits_of max_len max_prepared) (made_value m)) }
    ensures err { IfErr result (IsUnmadeOf (keys_in keys.old.held) options.now) }
{
    match keys.take(alloc) {
        Some(held) => {
            let made = verifier_from_content(alloc, &*held, options, max_len, max_prepared);
            *keys = Handle::of(held);
            made
        }
        None => Err(NO_KEYS.0),
    }
}

fn verifier_from_content(
    alloc: Global,
    content: &Content,
    options: &[u8],
    max_len: usize,
    max_prepared: usize,
) -> Result<Made, u32>
    ensures ok { IfOk result (λ m. IsMadeOf (keys_in (Some content.now)) options.now
        (limits_of max_len max_prepared) (made_value m)) }
    ensures err { IfErr result (IsUnmadeOf (keys_in (Some content.now)) options.now) }
{
    match content {
        Content::Keys(keys) => verifier_of(alloc, keys, options, max_len, max_prepared),
        Content::Verifier(_, _) => Err(NO_KEYS.0),
    }
}

/// Leaves a verifier that was made, or its status, in a handle. One that holds something is
/// unchanged.
pub fn write_handle(alloc: Global, made: Result<Made, u32>, verifier: &mut Handle) -> u32
    ensures { IsHeldAs made verifier.old.held verifier.new.held result }
{
    if let Some(held) = verifier.take(alloc) {
        *verifier = Handle::of(held);
        return HANDLE_IN_USE.0;
    }
    match made {
        Ok(made) => store(alloc, Content::of_made(alloc, made).ok(), verifier),
        Err(status) => status,
    }
}

/// Leaves one more handle of what the first holds in the other, which is unchanged if it holds
/// something.
pub fn share(alloc: Global, handle: &mut Handle, other: &mut Handle) -> u32
    ensures held { handle.new.held ≡ handle.old.held }
    ensures other { LeavesShared handle.old.held other.old.held other.new.held result }
{
    if let Some(held) = other.take(alloc) {
        *other = Handle::of(held);
        return HANDLE_IN_USE.0;
    }
    match handle.take(alloc) {
        Some(held) => {
            let status = store(alloc, held.share(alloc).ok(), other);
            *handle = Handle::of(held);
            status
        }
        None => NO_VERIFIER.0,
    }
}

// Leaves the handle of a content, if there is one and memory for it: 0, else 22.
fn store(alloc: Global, made: Option<Content>, handle: &mut Handle) -> u32
    ensures { MatchOption handle.new.held (result ≡ 22)
        (λ s. (result ≡ 0) × MatchOption made ⊥ (λ m. s ≡ m)) }
{
    if let Some(content) = made {
        if let Ok(boxed) = Box::new(alloc, content) {
            *handle = Handle::of(boxed);
            return OK.0;
        }
    }
    *handle = Handle::none(alloc);
    OUT_OF_MEMORY.0
}

/// Leaves one handle of the verifiers of two in a third one, which is unchanged if it holds something.
pub fn join(alloc: Global, first: &mut Handle, second: &mut Handle, either: &mut Handle) -> u32
    ensures first { first.new.held ≡ first.old.held }
    ensures second { second.new.held ≡ second.old.held }
    ensures either { LeavesJoined first.old.held second.old.held either.old.held either.new.held
        result }
{
    if let Some(held) = either.take(alloc) {
        *either = Handle::of(held);
        return HANDLE_IN_USE.0;
    }
    match joined(alloc, first, second) {
        Ok(Some(content)) => store(alloc, Some(content), either),
        Ok(None) => NO_VERIFIER.0,
        Err(_) => OUT_OF_MEMORY.0,
    }
}

fn joined(
    alloc: Global,
    first: &mut Handle,
    second: &mut Handle,
) -> Result<Option<Content>, AllocError>
    ensures first { first.new.held ≡ first.old.held }
    ensures second { second.new.held ≡ second.old.held }
    ensures joined { IfOk result (λ c. AreJoined (acceptors_in first.old.held)
        (acceptors_in second.old.held) c) }
{
    match first.take(alloc) {
        Some(held) => {
            let joined = joined_to(alloc, &*held, second);
            *first = Handle::of(held);
            joined
        }
        None => Ok(None),
    }
}

fn joined_to(
    alloc: Global,
    content: &Content,
    second: &mut Handle,
) -> Result<Option<Content>, AllocError>
    ensures second { second.new.held ≡ second.old.held }
    ensures joined { IfOk result (λ c. AreJoined (acceptors_in (Some content.now))
        (acceptors_in second.old.held) c) }
{
    match second.take(alloc) {
        Some(held) => {
            let joined = content.joined(alloc, &*held);
            *second = Handle::of(held);
            joined.map_err(|_| AllocError)
        }
        None => Ok(None),
    }
}

/// Returns what is said of a token that is verified with what a handle holds.
pub fn answer_in(
    alloc: Global,
    content: &Content,
    token: &[u8],
    time: u64,
) -> Result<Accepted, TokenRefusal>
    ensures ok { IfOk result (AcceptsIn (Some content.now) token.now time) }
    ensures err { IfErr result (RefusesIn (Some content.now) token.now time) }
{
    match content {
        Content::Verifier(first, others) => {
            match decode_by_all(alloc, first, others.as_slice(), token, time) {
                Ok(accepted) => Ok(accepted),
                Err(why) => Err(told(why)),
            }
        }
        Content::Keys(_) => Err(TokenRefusal::of(0, NO_VERIFIER.0, 0, 0)),
    }
}
