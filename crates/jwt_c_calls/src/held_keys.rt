//! The keys of a handle: the items of all texts that were added, and what each can do.

ghost use Rattle.std.specs.Prelude.{◌≡◌, ◌++◌, true, None, Some, Ok, Err, IfOk, IfErr, OnErr, OnOk};
ghost use Rattle.std.specs.Prelude.{◌≤◌, length, MatchOption, MatchResult};
ghost use Rattle.jwt_base.specs.KindOf.{IsMemory};
ghost use Rattle.jwt_key_items.specs.KeyItems.{kept_of};
ghost use Rattle.jwt_c_calls.specs.KeyInfos.{able_bits, all_bits, bits_of, has_kid, info_at};
ghost use Rattle.jwt_c_calls.specs.KeyInfos.{info_of, info_of_bits, key_at, reason_status};
ghost use Rattle.jwt_c_calls.specs.KeyLists.{kept_len, keys_of, lone_key};

use crate::status_table::{
    ALL_ZERO_SECRET, BAD_KEY, BASE64, KEY_AS_SECRET, NOT_FOR_SIGNATURES, OK, UNFIT_KEY,
    UNKNOWN_NUMBER, UNSUPPORTED_ALGORITHM,
};
use jsonwebtoken::errors::Result as Checked;
use jwt_key_items::{Item, Reason, Usage};
use jwt_keys::jwk::Jwk;
use jwt_keys::jwk_set::JwkSet;
use std::alloc::{AllocError, Global};
use std::result::Result;

// The algorithms by which the library signs: `1 << JWT_HS256` and the two after it.
const HMAC_BITS: u32 = 14;

/// The keys that a handle holds.
#[derive(Drop)]
pub struct HeldKeys {
    /// The items of the texts, in the order in which they were added.
    pub items: Vec<Item>,
    /// Whether the keys are a set, in which a token's header selects the key by its `kid`.
    pub is_set: bool,
}

/// What an item can do: `struct jwt_key_info` of `packages/c/include/jwtproved.h`.
#[derive(Clone, Copy)]
#[repr(C)]
pub struct KeyInfo {
    pub status: u32,
    pub verifies: u32,
    pub signs: u32,
}

impl HeldKeys {
    /// Adds keys after these. All together are one set then.
    pub fn add(&mut self, mut more: HeldKeys) -> Result<(), AllocError>
        ensures items { OnOk result (self.new.items.items
            ≡ self.old.items.items ++ more.items.items) }
        ensures is_set { OnOk result (self.new.is_set ≡ true) }
        ensures unchanged { OnErr result (keys_of self.new ≡ keys_of self.old) }
    {
        self.items.append(&mut more.items)?;
        self.is_set = true;
        Ok(())
    }

    /// Returns a copy.
    pub fn clone(&self, alloc: Global) -> Checked<HeldKeys>
        ensures { IfOk result (λ k. keys_of k ≡ keys_of self.now) }
    {
        Ok(HeldKeys {
            items: clone_items(alloc, self.items.as_slice())?,
            is_set: self.is_set,
        })
    }

    /// Returns the number of the items that are kept.
    pub fn kept_len(&self) -> usize
        ensures { result ≡ kept_len self.now.items.items }
    {
        kept_len(self.items.as_slice())
    }

    /// Returns the one key that is not in a set, if there is one.
    pub fn lone(&self) -> Option<&Jwk>
        ensures { MatchOption result (lone_key (keys_of self.now) ≡ None)
            (λ jwk. lone_key (keys_of self.now) ≡ Some jwk.now) }
    {
        if self.is_set || self.items.len() != 1 {
            return None;
        }
        self.items[0].kept()
    }

    /// Returns the set of the kept keys, in order.
    pub fn kept(&self, alloc: Global) -> Checked<JwkSet>
        ensures ok { IfOk result (λ set. set.keys.items ≡ kept_of self.now.items.items) }
        ensures err { IfErr result IsMemory }
    {
        let keys = kept_keys(alloc, self.items.as_slice())?;
        Ok(JwkSet { keys })
    }

    /// Returns the key of the item at this place, or the status of the reason for which there is
    /// none.
    pub fn key_at(&self, at: usize) -> Result<&Jwk, u32>
        ensures { MatchResult result (λ jwk. key_at self.now.items.items at ≡ Ok jwk.now)
            (λ status. key_at self.now.items.items at ≡ Err status) }
    {
        match self.items.get(at) {
            Some(item) => match &item.key {
                Some(key) => Ok(key),
                None => Err(BAD_KEY.0),
            },
            None => Err(UNKNOWN_NUMBER.0),
        }
    }

    /// Returns what the item at this place can do, or all items together at `usize::MAX`.
    pub fn info_at(&self, at: usize) -> Result<KeyInfo, u32>
        ensures { result ≡ info_at (keys_of self.now) at }
    {
        if at == usize::MAX {
            return Ok(info_of_bits(all_bits(self.items.as_slice(), self.is_set)));
        }
        match self.items.get(at) {
            Some(item) => Ok(info_of(item.usage)),
            None => Err(UNKNOWN_NUMBER.0),
        }
    }
}

fn clone_items(alloc: Global, items: &[Item]) -> Checked<Vec<Item>>
    ensures { IfOk result (λ copy. copy.items ≡ items.now) }
{
    let mut copy = Vec::new(alloc);
    for item in items {
        copy.push(item.clone(alloc)?)?;
    }
    Ok(copy)
}

fn kept_len(items: &[Item]) -> usize
    ensures len { result ≡ kept_len items.now }
    ensures within { result ≤ length items.now }
{
    let mut kept = 0;
    for item in items {
        if item.kept().is_some() {
            kept += 1;
        }
    }
    kept
}

fn kept_keys(alloc: Global, items: &[Item]) -> Checked<Vec<Jwk>>
    ensures ok { IfOk result (λ keys. keys.items ≡ kept_of items.now) }
    ensures err { IfErr result IsMemory }
{
    let mut keys = Vec::new(alloc);
    for item in items {
        if let Some(key) = item.kept() {
            keys.push(key.clone(alloc)?)?;
        }
    }
    Ok(keys)
}

// Returns what an item with this usage can do.
fn info_of(usage: Usage) -> KeyInfo
    ensures { result ≡ info_of usage }
{
    match usage {
        Usage::Kept(bits) => info_of_bits(bits),
        Usage::Skipped(why) => KeyInfo {
            status: reason_status(why),
            verifies: 0,
            signs: 0,
        },
    }
}

// Returns what keys that verify with these algorithms can do.
fn info_of_bits(bits: u32) -> KeyInfo
    ensures { result ≡ info_of_bits bits }
{
    KeyInfo {
        status: OK.0,
        verifies: bits,
        signs: bits & HMAC_BITS,
    }
}

// Returns the bits of all items together.
fn all_bits(items: &[Item], is_set: bool) -> u32
    ensures { result ≡ all_bits is_set items.now }
{
    let mut bits = 0;
    let mut at = items.len();
    while at > 0 {
        at -= 1;
        bits = able_bits(&items[at], is_set) | bits;
    }
    bits
}

// Returns the bits of an item that a token can name, if it has to.
fn able_bits(item: &Item, is_set: bool) -> u32
    ensures { result ≡ able_bits is_set item.now }
{
    if is_set && !has_kid(&item.key) {
        return 0;
    }
    bits_of(item.usage)
}

fn has_kid(key: &Option<Jwk>) -> bool
    ensures { result ≡ has_kid key.now }
{
    match key {
        Some(key) => key.common.key_id.is_some(),
        None => false,
    }
}

fn bits_of(usage: Usage) -> u32
    ensures { result ≡ bits_of usage }
{
    match usage {
        Usage::Kept(bits) => bits,
        Usage::Skipped(_) => 0,
    }
}

/// Returns the status of the reason for which an item is skipped.
pub fn reason_status(reason: Reason) -> u32
    ensures { result ≡ reason_status reason }
{
    match reason {
        Reason::NotAKey => BAD_KEY.0,
        Reason::Unsupported => UNSUPPORTED_ALGORITHM.0,
        Reason::Base64 => BASE64.0,
        Reason::NotForSignatures => NOT_FOR_SIGNATURES.0,
        Reason::Unfit => UNFIT_KEY.0,
        Reason::AllZero => ALL_ZERO_SECRET.0,
        Reason::KeyText => KEY_AS_SECRET.0,
    }
}
