//! Keys by the places of their octets in the bytes that they are read of: whole, cut short, and
//! with a byte changed. Of these calls no request for memory is refused.

use crate::files::key_of_der;
use jsonwebtoken::DecodingKeyKind;
use jwt_rows::output::List;
use jwt_rows::{Answer, Output, Row};
use std::alloc::Global;

// Texts in a row, each with the number of times that it stands there.
#[derive(Drop)]
struct Runs {
    done: Vec<String>,
    text: String,
    count: usize,
}

impl Runs {
    fn new(alloc: Global) -> Runs {
        Runs {
            done: Vec::new(alloc),
            text: String::new(alloc),
            count: 0,
        }
    }

    fn end_run(&mut self, alloc: Global) -> Option<()> {
        if self.count == 0 {
            return Some(());
        }
        let (count, text) = (self.count, self.text.as_str());
        let run = format!(in alloc; "{count} {text}").ok()?;
        self.done.push(run).ok()
    }

    fn add(&mut self, alloc: Global, text: String) -> Option<()> {
        if text.as_str() == self.text.as_str() {
            self.count = self.count.saturating_add(1);
            return Some(());
        }
        self.end_run(alloc)?;
        self.text = text;
        self.count = 1;
        Some(())
    }
}

/// Makes a call of this module.
pub fn answer(call: &str, row: &Row<'_>) -> Answer {
    let alloc = row.alloc();
    let of = row.text("of");
    let der = row.bytes("der");
    let mut runs = Runs::new(alloc);
    match call {
        "place" => add_place(alloc, of, &mut runs, der.as_slice())?,
        "each_cut" => add_cuts(alloc, of, &mut runs, der.as_slice())?,
        _ => {
            let mask = u8::try_from(row.number("mask")).ok()?;
            add_changes(alloc, of, &mut runs, der.as_slice(), mask)?;
        }
    }
    runs.end_run(alloc)?;
    row.give(&List(runs.done.as_slice()))
}

// Adds the family and the places of the key that the call reads of the bytes.
fn add_place(alloc: Global, call: &str, runs: &mut Runs, bytes: &[u8]) -> Option<()> {
    let text = place_text(alloc, call, bytes)?;
    runs.add(alloc, text)
}

fn add_cuts(alloc: Global, call: &str, runs: &mut Runs, der: &[u8]) -> Option<()> {
    for end in 0..der.len() {
        let (bytes, _) = der.split_at(end);
        add_place(alloc, call, runs, bytes)?;
    }
    Some(())
}

fn add_changes(alloc: Global, call: &str, runs: &mut Runs, der: &[u8], mask: u8) -> Option<()> {
    for at in 0..der.len() {
        let bytes = change(alloc, der, at, mask)?;
        add_place(alloc, call, runs, bytes.as_slice())?;
    }
    Some(())
}

fn change(alloc: Global, der: &[u8], at: usize, mask: u8) -> Option<Vec<u8>> {
    let mut bytes = der.to_vec(alloc).ok()?;
    if let Some(byte) = bytes.get_mut(at) {
        *byte ^= mask;
    }
    Some(bytes)
}

// Returns the family and the places of the key, or the name of the refusal.
fn place_text(alloc: Global, call: &str, bytes: &[u8]) -> Option<String> {
    match key_of_der(alloc, call, bytes) {
        Ok(key) => {
            let family = key.family().show(alloc)?;
            places(alloc, family.as_str()?, key.kind(), bytes)
        }
        Err(refusal) => String::from_str(alloc, refusal.kind().name()).ok(),
    }
}

fn places(alloc: Global, family: &str, kind: &DecodingKeyKind, bytes: &[u8]) -> Option<String> {
    match kind {
        DecodingKeyKind::SecretOrDer(octets) => {
            let (at, size) = (place_of(bytes, octets.as_slice()), octets.len());
            format!(in alloc; "{family} {at} {size}").ok()
        }
        DecodingKeyKind::RsaModulusExponent { n, e } => {
            let (at, size) = (place_of(bytes, n.as_slice()), n.len());
            let (then, length) = (place_of(bytes, e.as_slice()), e.len());
            format!(in alloc; "{family} {at} {size} {then} {length}").ok()
        }
    }
}

// Returns the first place of the octets in the bytes.
fn place_of(bytes: &[u8], octets: &[u8]) -> usize {
    for place in 0..bytes.len() {
        let (_, rest) = bytes.split_at(place);
        if rest.starts_with(octets) {
            return place;
        }
    }
    bytes.len()
}
