//! JSON Web Tokens for C. `packages/c/include/jwtproved.h` describes how each is called.
//!
//! The clause of each call says that the status, the length and the buffer hold a result that the
//! library's own definitions allow. Nothing is kept between calls but the handles of keys and verifiers that C holds.
//!
//! For programs in C, and for the packages for Python, Rust, Go and nginx, which call nothing else.
//! A call is a function with the header's name that leaves the answer of a function of
//! `jwt_c_calls` in the caller's buffer: `jwt_signing_input` leaves that of `input_answer`.
//!
//! `packages/c/examples` has programs to start from.

// A call has one clause: some result is that of the library's own definitions, and exactly it
// stands in status, length and buffer. Since a first failed test is one only if nothing passes,
// accepted and refused exclude each other, and no further clause says that nothing is lost.
//
// The library for C is two crates: what calls return, as functions over slices and results, and
// the struct of a handle (`jwt_c_calls`); the exports alone (`jwt_c`), since they are
// proved twice: `rt ci` only checks a static library, and `tools/prove` builds it then, by rattle
// over the libraries that `rt ci` built, or by `rt lib`, which proves these again.

#![tactic(auto)]

ghost use Rattle.std.specs.Prelude.{◌≡◌, ℕ, None, Some};
ghost use Rattle.jwt_base.specs.Algorithm.{name_of};
ghost use Rattle.jwt_base.specs.Kind.{Kind};
ghost use Rattle.jwt_base.specs.declared.algorithms.Algorithm.{Algorithm};
ghost use Rattle.jsonwebtoken.specs.TestName.{test_name};
ghost use Rattle.jsonwebtoken.specs.declared.refusal.Test.{Test};
ghost use Rattle.jwt_c_calls.specs.BySignature.{AnswersEcdsa, LeavesAttached, LeavesInput};
ghost use Rattle.jwt_c_calls.specs.Calls.{Answer, Leaves, LeavesSigned, AnswersGivenVerdict};
ghost use Rattle.jwt_c_calls.specs.Calls.{claim_of, status_of};
ghost use Rattle.jwt_c_calls.specs.ClaimRules.{AnswersRules};
ghost use Rattle.jwt_c_calls.specs.Contents.{keys_in};
ghost use Rattle.jwt_c_calls.specs.Held.{LeavesAdded, LeavesInfo, LeavesJoined, LeavesKey, LeavesMade};
ghost use Rattle.jwt_c_calls.specs.Held.{LeavesShared, LeavesThumbprint, info_held, key_held};
ghost use Rattle.jwt_c_calls.specs.Issued.{LeavesToken};
ghost use Rattle.jwt_c_calls.specs.KeyForms.{AnswersText, hash_numbered};
ghost use Rattle.jwt_c_calls.specs.KeySources.{source_numbered};
ghost use Rattle.jwt_c_calls.specs.Members.{LeavesMember};
ghost use Rattle.jwt_c_calls.specs.Membership.{ChecksMember};
ghost use Rattle.jwt_c_calls.specs.Options.{AnswersFault, AnswersQuoted};
ghost use Rattle.jwt_c_calls.specs.Signatures.{LeavesCheck};
ghost use Rattle.jwt_c_calls.specs.Status.{algorithm_numbered, kind_part, number as status_number, told_text};
ghost use Rattle.jwt_c_calls.specs.TestNumbers.{test_number};
ghost use Rattle.jwt_c_calls.specs.Texts.{IsNumberOfName, LeavesText, text_numbered};
ghost use Rattle.jwt_c_calls.specs.Unverified.{LeavesPart};
ghost use Rattle.jwt_c_calls.specs.Verdicts.{LeavesVerdict};
ghost use Rattle.jwt_c_calls.specs.Verifiers.{limits_of};

use jsonwebtoken::signed_part;
use jwt_c_calls::answers::{CallerVerdict, given_verdict_answer};
use jwt_c_calls::by_signature::{attach_in, ecdsa_answer};
use jwt_c_calls::claim_rules::rules_answer;
use jwt_c_calls::exact::input_answer;
use jwt_c_calls::handle::Handle;
use jwt_c_calls::handle_results::{
    add_keys, answer_in, info_in, join, leave_key, share, verifier_from, write_handle,
};
use jwt_c_calls::held_keys::KeyInfo;
use jwt_c_calls::issued::leave_signed;
use jwt_c_calls::key_forms::{KeyForm, numbered_hash};
use jwt_c_calls::key_sources::numbered_source;
use jwt_c_calls::members::member_answer;
use jwt_c_calls::membership::member_status;
use jwt_c_calls::options::{options_answer, quoted_answer};
use jwt_c_calls::signatures::check_in;
use jwt_c_calls::status::{
    algorithm_number, claim_in, claim_of as refusal_claim, leave, number_of, put_bytes, status_of,
};
use jwt_c_calls::status_table::{
    INVALID_ALGORITHM_NAME, NO_MEMBER, NO_VERIFIER, OK, UNKNOWN_NUMBER,
};
use jwt_c_calls::texts::{number_of_name, text_numbered};
use jwt_c_calls::unverified::{numbered_part, part_answer};
use jwt_c_calls::verdicts::{TokenRefusal, Verdict, write_verdict};
use std::alloc::Global;

/// Verifies a token whose signature the caller has checked: `verdict` is the yes or no to this
/// signature of this message by the algorithm of this number. A number of no algorithm is refused
/// with `InvalidAlgorithmName`, before the options are read. `claim` is set to the place of a claim's
/// name in the option `required` or `texts` that it does not meet, from 1 on, and else to 0.
#[unsafe(no_mangle)]
pub extern "C" fn jwt_decode_verdict(
    alloc: Global,
    token: &[u8],
    algorithm: u32,
    message: &[u8],
    signature: &[u8],
    verdict: bool,
    options: &[u8],
    time: u64,
    claim: &mut u32,
    room: &mut [u8],
    len: &mut usize,
) -> u32
    ensures { (a : Answer) × AnswersGivenVerdict (algorithm_numbered algorithm) options.now token.now
        (record { message = message.now; signature = signature.now; says_yes = verdict }) time a
        × (claim.new ≡ claim_of a) × Leaves a result len.new room.old room.new }
{
    let said = CallerVerdict {
        algorithm,
        message,
        signature,
        verdict,
    };
    let answer = given_verdict_answer(alloc, token, &said, options, time);
    *claim = claim_in(&answer);
    leave(answer, room, len)
}

/// Writes the things that a verifier elsewhere is asked about: the number of the algorithm that the
/// token's header names, the number of bytes at its front that are the message, and the signature's
/// bytes in the buffer. Nothing is verified.
#[unsafe(no_mangle)]
pub extern "C" fn jwt_signed_part(
    alloc: Global,
    token: &[u8],
    algorithm: &mut u32,
    message_len: &mut usize,
    room: &mut [u8],
    len: &mut usize,
) -> u32
    ensures { LeavesSigned token.now algorithm.new message_len.new result len.new room.old
        room.new }
{
    match signed_part(alloc, token) {
        Ok(part) => {
            *algorithm = algorithm_number(part.header.alg);
            *message_len = part.message.len();
            put_bytes(part.signature.as_slice(), room, len)
        }
        Err(refused) => {
            *algorithm = 0;
            *message_len = 0;
            *len = 0;
            number_of(refused.kind())
        }
    }
}

/// Writes a part of a token as it was signed: the header if `part` is 1, and the payload if it is 2. A
/// part in which an object has a name twice is written as JSON of its value. Nothing is verified, and
/// the token may be of any algorithm. A text with fewer than two dots is refused with `InvalidToken`,
/// a part that is not base64url with `Base64`, and one that is not the JSON of an object with `Json`.
/// Any other `part` is 102.
#[unsafe(no_mangle)]
pub extern "C" fn jwt_unverified(
    alloc: Global,
    token: &[u8],
    part: u32,
    room: &mut [u8],
    len: &mut usize,
) -> u32
    ensures { LeavesPart token.now part result len.new room.old room.new }
{
    match numbered_part(part) {
        Some(part) => {
            let answer = part_answer(alloc, token, part);
            leave(answer, room, len)
        }
        None => {
            *len = 0;
            UNKNOWN_NUMBER.0
        }
    }
}

/// Checks claims by the rules of options at the time `time`: returns 0 if every rule holds, and else
/// the status of the first that does not. The algorithms of the options are not looked at, and
/// nothing is verified. A text that does not describe options is 101, and then claims that are not
/// the JSON of an object are 105. `claim` is set as by `jwt_decode_verdict`.
#[unsafe(no_mangle)]
pub extern "C" fn jwt_check_claims(
    alloc: Global,
    claims: &[u8],
    options: &[u8],
    time: u64,
    claim: &mut u32,
) -> u32
    ensures { (a : Answer) × AnswersRules options.now claims.now time a
        × (claim.new ≡ claim_of a) × (result ≡ status_of a) }
{
    match rules_answer(alloc, claims, options, time) {
        Ok(()) => {
            *claim = 0;
            OK.0
        }
        Err(refusal) => {
            *claim = refusal_claim(&refusal);
            status_of(&refusal)
        }
    }
}

/// Signs a header and a payload, which are JSON texts of objects without a name twice, byte for byte
/// with the one key of a handle, and writes the token. The status is 117 if the handle holds no keys,
/// and 118 if it holds several, or a set. Then the header is read, 104, and the payload, 105. A key
/// that is no secret is refused with `InvalidKeyFormat`, and one that is not for the header's
/// algorithm, or an algorithm of another family, with `InvalidAlgorithm`.
#[unsafe(no_mangle)]
pub extern "C" fn jwt_sign(
    alloc: Global,
    keys: &mut Handle,
    header: &[u8],
    payload: &[u8],
    room: &mut [u8],
    len: &mut usize,
) -> u32
    ensures held { keys.new.held ≡ keys.old.held }
    ensures token { LeavesToken (keys_in keys.old.held) header.now payload.now result len.new
        room.old room.new }
{
    leave_signed(alloc, keys, header, payload, room, len)
}

/// Writes the message of a token that is to be signed elsewhere, and the number of the algorithm
/// that its header names. The header and the payload are read as by `jwt_sign`.
#[unsafe(no_mangle)]
pub extern "C" fn jwt_signing_input(
    alloc: Global,
    header: &[u8],
    payload: &[u8],
    number: &mut u32,
    room: &mut [u8],
    len: &mut usize,
) -> u32
    ensures { LeavesInput header.now payload.now number.new result len.new room.old room.new }
{
    match input_answer(alloc, header, payload) {
        Ok(input) => {
            *number = algorithm_number(input.algorithm);
            put_bytes(input.message.as_bytes(), room, len)
        }
        Err(refusal) => {
            *number = 0;
            *len = 0;
            status_of(&refusal)
        }
    }
}

/// Writes the token of a message of `jwt_signing_input` and a signature that was made elsewhere, once
/// the one key of the verifier that a handle holds accepts it. With a handle that holds nothing the
/// length of the signature is tested alone. The status is 108 if the handle holds keys; 118 if the
/// verifier has a set, or there are several; 17 if the message is no message, or the signature has no
/// length of the header's algorithm; and then that of `jwt_verifier_check`.
#[unsafe(no_mangle)]
pub extern "C" fn jwt_attach(
    alloc: Global,
    verifier: &mut Handle,
    message: &[u8],
    signature: &[u8],
    room: &mut [u8],
    len: &mut usize,
) -> u32
    ensures held { verifier.new.held ≡ verifier.old.held }
    ensures token { LeavesAttached verifier.old.held message.now signature.now result len.new
        room.old room.new }
{
    match attach_in(alloc, verifier, message, signature) {
        Ok(token) => put_bytes(token.as_slice(), room, len),
        Err(status) => {
            *len = 0;
            status
        }
    }
}

/// Writes the two numbers of a signature in DER, by the algorithm of ECDSA with this number. A
/// number of no algorithm is refused with `InvalidAlgorithmName`.
#[unsafe(no_mangle)]
pub extern "C" fn jwt_ecdsa_signature(
    alloc: Global,
    der: &[u8],
    algorithm: u32,
    room: &mut [u8],
    len: &mut usize,
) -> u32
    ensures { (a : Answer) × AnswersEcdsa (algorithm_numbered algorithm) der.now a
        × Leaves a result len.new room.old room.new }
{
    let answer = ecdsa_answer(alloc, der, algorithm);
    leave(answer, room, len)
}

/// Writes a text as a JSON string, with its quotation marks, for options: what else the text says
/// can't become a member of them. The JSON is read back as the text. Bytes that are not UTF-8 are
/// refused with `Utf8`. The only other refusal is `OutOfMemory`.
#[unsafe(no_mangle)]
pub extern "C" fn jwt_quote(alloc: Global, text: &[u8], room: &mut [u8], len: &mut usize) -> u32
    ensures { (a : Answer) × AnswersQuoted text.now a × Leaves a result len.new room.old room.new }
{
    let answer = quoted_answer(alloc, text);
    leave(answer, room, len)
}

/// Writes what keeps a text from being options, such as `"algorithms" is not a list of names of
/// algorithms`: that it is not the JSON of an object, or which member is at fault, and why. Nothing
/// is written if the text is the JSON of options. The only refusal is `OutOfMemory`.
#[unsafe(no_mangle)]
pub extern "C" fn jwt_options_fault(
    alloc: Global,
    options: &[u8],
    room: &mut [u8],
    len: &mut usize,
) -> u32
    ensures { (a : Answer) × AnswersFault options.now a × Leaves a result len.new room.old
        room.new }
{
    let answer = options_answer(alloc, options);
    leave(answer, room, len)
}

/// Reads the keys that some bytes are, and adds them after those that the handle holds. All together
/// are one set then. The source is 1 for a text, 2 for a secret, 3 for a certificate in PEM, of which
/// NOTHING IS VERIFIED, and 4 for the text of a key set alone; any other number is 102.
///
/// A text is a key set (RFC 7517 section 5), one JSON Web Key, or the file of a public key in PEM or
/// DER. Each item of a set is kept if the library verifies with it, and skipped otherwise:
/// [`usage_of`](jwt_key_items::usage_of) has the conditions. One key that is not in a set is refused
/// with the status of the reason for which it would be skipped. `items` is set to the number of
/// items, and `kept` to that of the kept ones. With another status than 0 the handle holds what it
/// held, and both are 0:
///
/// - 117 if the handle holds a verifier;
/// - 18 for a private key in PEM or DER, 7 for a public key of another algorithm, 116 for a
///   certificate that is given as a text;
/// - 106 for any other bytes.
#[unsafe(no_mangle)]
pub extern "C" fn jwt_keys_add(
    alloc: Global,
    keys: &mut Handle,
    source: u32,
    bytes: &[u8],
    items: &mut usize,
    kept: &mut usize,
) -> u32
    ensures { LeavesAdded (source_numbered source) bytes.now keys.old.held keys.new.held items.new
        kept.new result }
{
    let added = match numbered_source(source) {
        Some(source) => add_keys(alloc, source, bytes, keys),
        None => Err(UNKNOWN_NUMBER.0),
    };
    match added {
        Ok(added) => {
            *items = added.items;
            *kept = added.kept;
            OK.0
        }
        Err(status) => {
            *items = 0;
            *kept = 0;
            status
        }
    }
}

/// Sets `info` to what the item at this place of a handle can do: 0, or the status of the reason for
/// which it is skipped, and the algorithms that verify with it and by which the library signs with
/// it, each as the bit of its number. The place `usize::MAX` stands for all items together. Another
/// place without an item is 102, and a handle without keys 117: then all numbers of `info` are 0.
#[unsafe(no_mangle)]
pub extern "C" fn jwt_keys_info(
    alloc: Global,
    keys: &mut Handle,
    at: usize,
    info: &mut KeyInfo,
) -> u32
    ensures held { keys.new.held ≡ keys.old.held }
    ensures info { LeavesInfo (info_held (keys_in keys.old.held) at) info.new result }
{
    match info_in(alloc, keys, at) {
        Ok(found) => {
            *info = found;
            OK.0
        }
        Err(status) => {
            *info = KeyInfo {
                status: 0,
                verifies: 0,
                signs: 0,
            };
            status
        }
    }
}

/// Writes the JSON Web Key (RFC 7517 section 4) of the item at this place of a handle, which may be
/// skipped, as compact JSON. An item that is not a key is 106, a place without an item 102, and a
/// handle without keys 117.
#[unsafe(no_mangle)]
pub extern "C" fn jwt_keys_text(
    alloc: Global,
    keys: &mut Handle,
    at: usize,
    room: &mut [u8],
    len: &mut usize,
) -> u32
    ensures held { keys.new.held ≡ keys.old.held }
    ensures text { LeavesKey AnswersText (key_held (keys_in keys.old.held) at) result len.new
        room.old room.new }
{
    leave_key(alloc, keys, at, KeyForm::Text, room, len)
}

/// Writes the thumbprint (RFC 7638) of the item at this place of a handle, by SHA-2 with this many
/// bits. A number of no hash is refused with `InvalidAlgorithmName`, and a place like by
/// `jwt_keys_text`.
#[unsafe(no_mangle)]
pub extern "C" fn jwt_thumbprint(
    alloc: Global,
    keys: &mut Handle,
    at: usize,
    bits: u32,
    room: &mut [u8],
    len: &mut usize,
) -> u32
    ensures held { keys.new.held ≡ keys.old.held }
    ensures thumbprint { LeavesThumbprint (hash_numbered bits) (key_held (keys_in keys.old.held) at)
        result len.new room.old room.new }
{
    match numbered_hash(bits) {
        Some(hash) => leave_key(alloc, keys, at, KeyForm::Thumbprint(hash), room, len),
        None => {
            *len = 0;
            INVALID_ALGORITHM_NAME.0
        }
    }
}

/// Makes the verifier with the keys of a handle and the options that a text describes, for tokens of
/// up to `max_len` bytes, or of up to 1 MiB if that is 0. It keeps prepared keys of up to
/// `max_prepared` bytes, or of up to 64 MiB if that is 0; the others verify too. With another status
/// than 0 no verifier is made:
///
/// - 109 if the verifier's handle holds something, which is unchanged;
/// - 117 if the keys' handle holds no keys;
/// - 101 if the text is not options;
/// - 110 if no kept key verifies with any of the algorithms of the options, and agrees with it by its
///   own `alg`. In a set such a key needs a `kid`.
///
/// One key that is not in a set verifies each token, and several keys are a set, in which the token's
/// `kid` selects the key.
#[unsafe(no_mangle)]
pub extern "C" fn jwt_verifier_new(
    alloc: Global,
    keys: &mut Handle,
    options: &[u8],
    max_len: usize,
    max_prepared: usize,
    verifier: &mut Handle,
) -> u32
    ensures held { keys.new.held ≡ keys.old.held }
    ensures made { LeavesMade (keys_in keys.old.held) options.now (limits_of max_len max_prepared)
        verifier.old.held verifier.new.held result }
{
    let made = verifier_from(alloc, keys, options, max_len, max_prepared);
    write_handle(alloc, made, verifier)
}

/// Leaves one more handle of what the first holds, for another thread: 0; 22 if memory ran out; 108
/// if the first handle holds nothing; 109 if the other holds something, which is unchanged.
#[unsafe(no_mangle)]
pub extern "C" fn jwt_share(alloc: Global, handle: &mut Handle, other: &mut Handle) -> u32
    ensures held { handle.new.held ≡ handle.old.held }
    ensures other { LeavesShared handle.old.held other.old.held other.new.held result }
{
    share(alloc, handle, other)
}

/// Makes one handle of the verifiers of two: a token is offered to those of the first, and then to
/// those of the second. The status is 109 if the third handle holds something, which is unchanged, and
/// 108 if one of the two holds no verifier.
#[unsafe(no_mangle)]
pub extern "C" fn jwt_verifier_or(
    alloc: Global,
    first: &mut Handle,
    second: &mut Handle,
    either: &mut Handle,
) -> u32
    ensures first { first.new.held ≡ first.old.held }
    ensures second { second.new.held ≡ second.old.held }
    ensures either { LeavesJoined first.old.held second.old.held either.old.held either.new.held
        result }
{
    join(alloc, first, second, either)
}

/// Verifies a signature of a message, both as bytes, with the one key of the verifier that a handle
/// holds and the algorithm of this number: returns 0, or the status of `InvalidSignature`. The status
/// is 108 if the handle holds no verifier, and 118 if that has a set, or there are several. A number
/// of no algorithm is refused with `InvalidAlgorithmName`, one that is not listed with
/// `InvalidAlgorithm`, and one that the key does not serve with `InvalidKeyFormat`.
#[unsafe(no_mangle)]
pub extern "C" fn jwt_verifier_check(
    alloc: Global,
    verifier: &mut Handle,
    algorithm: u32,
    message: &[u8],
    signature: &[u8],
) -> u32
    ensures held { verifier.new.held ≡ verifier.old.held }
    ensures check { LeavesCheck verifier.old.held (algorithm_numbered algorithm) message.now
        signature.now result }
{
    check_in(alloc, verifier, algorithm, message, signature)
}

/// Verifies a token at the time `time` with the verifiers that a handle holds, and writes its claims
/// as they were signed. `said` is set to what is said of the token: the last time at which it is
/// accepted, the length of the claims, the place of the verifier, the number of the header's algorithm, the number of the first
/// test that failed, the place of a claim's name in the option that it does not meet, whether the
/// header has a `kid`, and whether the claims are the payload's own bytes. The status is 108 for a
/// handle that holds no verifier, and 111 for a token that is longer than the verifier allows.
#[unsafe(no_mangle)]
pub extern "C" fn jwt_verifier_decode(
    alloc: Global,
    verifier: &mut Handle,
    token: &[u8],
    time: u64,
    room: &mut [u8],
    said: &mut Verdict,
) -> u32
    ensures held { verifier.new.held ≡ verifier.old.held }
    ensures said { LeavesVerdict verifier.old.held token.now time said.new result room.old
        room.new }
{
    match verifier.take(alloc) {
        Some(held) => {
            let answer = answer_in(alloc, &*held, token, time);
            *verifier = Handle::of(held);
            write_verdict(answer, room, said)
        }
        None => write_verdict(Err(TokenRefusal::of(0, NO_VERIFIER.0, 0, 0)), room, said),
    }
}

/// Frees what a handle holds, if it holds something: a verifier with the last handle of it. Then the
/// handle holds nothing.
#[unsafe(no_mangle)]
pub extern "C" fn jwt_free(alloc: Global, handle: &mut Handle)
    ensures { handle.new.held ≡ None }
{
    *handle = Handle::none(alloc);
}

/// Writes the value at a path of a JSON object: the bytes of a string, without quotes and escapes, and
/// JSON of any other value, whose numbers keep their digits. The path is a JSON list of names, of
/// which each is that of a member of the value before it. `type_number` is set to 1 for null, 2 for a
/// boolean, 3 for a number, 4 for a string, 5 for an array and 6 for an object, and to 0 if there is no
/// such value. A text that is not a path is refused with 101, and one that is not the JSON of an
/// object with 105. The status is 112 if there is no value. Of several members of one name the last
/// counts.
#[unsafe(no_mangle)]
pub extern "C" fn jwt_member(
    alloc: Global,
    json: &[u8],
    path: &[u8],
    type_number: &mut u32,
    room: &mut [u8],
    len: &mut usize,
) -> u32
    ensures { LeavesMember json.now path.now type_number.new result len.new room.old room.new }
{
    match member_answer(alloc, json, path) {
        Ok(Some(found)) => {
            *type_number = found.type_number;
            put_bytes(found.text.as_slice(), room, len)
        }
        Ok(None) => {
            *type_number = 0;
            *len = 0;
            NO_MEMBER.0
        }
        Err(refusal) => {
            *type_number = 0;
            *len = 0;
            status_of(&refusal)
        }
    }
}

/// Checks that the value at a path of a JSON object has a text: returns 0 if it is an array of which
/// an item is this string, or a string of which a word is the text. Words are parted by a space, as
/// those of `scope` (RFC 6749 section 3.3). The texts are read, and refused, as by `jwt_member`, and
/// else the status is 112.
#[unsafe(no_mangle)]
pub extern "C" fn jwt_check_member(alloc: Global, json: &[u8], path: &[u8], text: &[u8]) -> u32
    ensures { ChecksMember json.now path.now text.now result }
{
    member_status(alloc, json, path, text)
}

/// Returns the number of the algorithm with this name, such as 4 for `RS256`, or 0 for any other
/// name.
#[unsafe(no_mangle)]
pub extern "C" fn jwt_algorithm(name: &[u8]) -> u32
    ensures { IsNumberOfName name.now result }
{
    number_of_name(name)
}

/// Writes the text of a number: of a status if `of` is 1, the name of a test of
/// `jwt_verifier_decode`, such as `SignatureIsAccepted`, if it is 2, the name of an algorithm if it
/// is 3, and the version of the library, the `JWT_VERSION` of `packages/c/include/jwtproved.h`, if
/// it is 4 and the number is 0. Any other `of` and number is 102.
#[unsafe(no_mangle)]
pub extern "C" fn jwt_text(of: u32, number: u32, room: &mut [u8], len: &mut usize) -> u32
    ensures text { LeavesText of number result len.new room.old room.new }
    // The status of a refusal has the text of its kind, as far as a status tells it.
    ensures kinds { (k : Kind) → text_numbered 1 (status_number k) ≡ Some (told_text (kind_part k)) }
    // Each test that a call reports has its name, and each algorithm.
    ensures tests { (t : Test) → text_numbered 2 (test_number t) ≡ Some (test_name t) }
    ensures algorithms { (n : ℕ) → (a : Algorithm) → algorithm_numbered n ≡ Some a
        → text_numbered 3 n ≡ Some (name_of a) }
{
    match text_numbered(of, number) {
        Some(text) => put_bytes(text.as_bytes(), room, len),
        None => {
            *len = 0;
            UNKNOWN_NUMBER.0
        }
    }
}
