//! Elements of DER: a tag, the octets of a length, and the content.

ghost use Rattle.std.specs.Prelude.{◌≡◌, ◌≢◌, ℕ, ◌<◌, ◌≤◌, List, [], ◌∷◌, ◌++◌, MatchOption};
ghost use Rattle.std.specs.Prelude.{IsTrue, ◌↔◌, length};
ghost use Rattle.jwt_key_files.specs.Der.{number_octets, length_octets, element};
ghost use Rattle.jwt_key_files.specs.private_clauses.Numbers.{number_from};

// Returns the first byte and the bytes after it.
pub(crate) fn next(bytes: &[u8]) -> Option<(u8, &[u8])>
    ensures { MatchOption result (bytes.now ≡ []) (λ p. bytes.now ≡ p.0 ∷ p.1.now) }
{
    match bytes {
        [first, rest @ ..] => Some((*first, rest)),
        _ => None,
    }
}

/// Returns the content of the element with this tag that the bytes begin with, and the bytes after
/// it.
pub fn read(tag: u8, bytes: &[u8]) -> Option<(&[u8], &[u8])>
    ensures { MatchOption result ((content : List ℕ) (rest : List ℕ)
        → bytes.now ≢ element tag content ++ rest)
        (λ p. bytes.now ≡ element tag p.0.now ++ p.1.now) }
{
    let Some((first, rest)) = next(bytes) else {
        return None;
    };
    if first != tag {
        return None;
    }
    let Some((length, rest)) = read_length(rest) else {
        return None;
    };
    if rest.len() < length {
        return None;
    }
    Some(rest.split_at(length))
}

/// Returns the content of the element with this tag that the bytes are.
pub fn read_all(tag: u8, bytes: &[u8]) -> Option<&[u8]>
    ensures { MatchOption result ((content : List ℕ) → bytes.now ≢ element tag content)
        (λ content. bytes.now ≡ element tag content.now) }
{
    let Some((content, rest)) = read(tag, bytes) else {
        return None;
    };
    if rest.len() > 0 {
        return None;
    }
    Some(content)
}

// Returns the length whose octets the bytes begin with, and the bytes after them, if there are as
// many of those.
fn read_length(bytes: &[u8]) -> Option<(usize, &[u8])>
    ensures { MatchOption result ((n : ℕ) (rest : List ℕ) → n ≤ length rest
        → bytes.now ≢ length_octets n ++ rest)
        (λ p. bytes.now ≡ length_octets p.0 ++ p.1.now) }
{
    let Some((first, rest)) = next(bytes) else {
        return None;
    };
    if first < 0x80 {
        return Some((first as usize, rest));
    }
    let Some((n, rest)) = read_number((first - 0x80) as usize, rest) else {
        return None;
    };
    if n < 0x80 {
        return None;
    }
    Some((n, rest))
}

// Returns the number whose octets, so many, the bytes begin with, and the bytes after them.
fn read_number(count: usize, bytes: &[u8]) -> Option<(usize, &[u8])>
    ensures { MatchOption result
        ((n : ℕ) (rest : List ℕ) → n ≤ length rest → length (number_octets n) ≡ count
        → bytes.now ≢ number_octets n ++ rest)
        (λ p. (length (number_octets p.0) ≡ count) × (bytes.now ≡ number_octets p.0 ++ p.1.now)) }
{
    if bytes.len() < count {
        return None;
    }
    let (octets, rest) = bytes.split_at(count);
    if begins_with_0(octets) {
        return None;
    }
    let Some(n) = number(octets, rest.len()) else {
        return None;
    };
    Some((n, rest))
}

fn begins_with_0(octets: &[u8]) -> bool
    ensures { IsTrue result ↔ ((rest : List ℕ) × (octets.now ≡ 0 ∷ rest)) }
{
    match next(octets) {
        Some((first, _)) => first == 0,
        None => false,
    }
}

// Returns the number of the octets, unless it does not fit and so is more than this one.
fn number(octets: &[u8], most: usize) -> Option<usize>
    ensures { MatchOption result (most < number_from 0 octets.now)
        (λ n. n ≡ number_from 0 octets.now) }
{
    let mut n: usize = 0;
    for octet in octets {
        if n >= 0x100_0000_0000_0000 {
            return None;
        }
        n = n * 0x100 + *octet as usize;
    }
    Some(n)
}
