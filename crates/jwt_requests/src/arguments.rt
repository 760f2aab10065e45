//! The arguments of the program: its commands, and what each takes.

use clap::{Arg, ArgAction, ArgGroup, Command};
use std::alloc::{AllocError, Global};

/// How often an argument may be given, and whether a value follows it.
#[derive(Clone, Copy)]
enum Shape {
    /// A word that is on or off.
    Flag,
    /// A value, once at most.
    Once,
    /// A value each time.
    Repeated,
    /// A value without a name before it.
    Place,
    /// The same, which has to be given.
    NeededPlace,
}

/// An argument, as help shows it.
#[derive(Clone, Copy)]
struct Entry {
    name: &'static str,
    shape: Shape,
    value: &'static str,
    help: &'static str,
}

const NOW: Entry = Entry {
    name: "now",
    shape: Shape::Once,
    value: "TIME",
    help: "Take this time as now: seconds since 1970 UTC, or RFC 3339",
};

const TOKEN: Entry = Entry {
    name: "token",
    shape: Shape::Place,
    value: "TOKEN",
    help: "The token; '-', or none, reads it from standard input",
};

const TRIM: Entry = Entry {
    name: "trim",
    shape: Shape::Flag,
    value: "",
    help: "Leave one newline at the end of the secret file out of the secret",
};

const ALLOW_KEY: Entry = Entry {
    name: "allow-key-as-secret",
    shape: Shape::Flag,
    value: "",
    help: "Accept a secret that is the text of a key, for tests: anyone can sign with a public key",
};

/// Returns the command with all that it takes.
pub fn command<'a>(alloc: Global) -> Result<Command<'a>, AllocError> {
    let command = Command::new(alloc, "jwt")
        .version("0.2.0")
        .about("Verify, explain, show and sign JSON Web Tokens")
        .subcommand_required(true)
        .arg_required_else_help(true);
    let command = add_token_commands(alloc, command)?;
    add_key_commands(alloc, command)
}

/// Adds the commands that take or make a token.
fn add_token_commands<'a>(alloc: Global, command: Command<'a>) -> Result<Command<'a>, AllocError> {
    let command = add_subcommand(command, verify_command(alloc))?;
    let command = add_subcommand(command, explain_command(alloc))?;
    let command = add_subcommand(command, show_command(alloc))?;
    add_subcommand(command, sign_command(alloc))
}

/// Adds the commands that take keys alone.
fn add_key_commands<'a>(alloc: Global, command: Command<'a>) -> Result<Command<'a>, AllocError> {
    let command = add_subcommand(command, keys_command(alloc))?;
    let command = add_subcommand(command, jwk_command(alloc))?;
    add_subcommand(command, thumbprint_command(alloc))
}

fn explain_command<'a>(alloc: Global) -> Result<Command<'a>, AllocError> {
    let command = Command::new(alloc, "explain").about(
        "Explain each test of a token, and when it is accepted",
    );
    let command = add_checks(alloc, command)?;
    add_entries(
        alloc,
        command,
        &[flag("brief", "Write the verdict, its cause and its cure alone")],
    )
}

fn add_checks<'a>(alloc: Global, command: Command<'a>) -> Result<Command<'a>, AllocError> {
    let command = add_entries(alloc, command, &[TOKEN])?;
    let command = add_keys(alloc, command)?;
    let command = add_entries(alloc, command, &option_entries())?;
    add_entries(
        alloc,
        command,
        &[flag("json", "Write the answer as one line of JSON")],
    )
}

fn add_entries<'a>(
    alloc: Global,
    command: Command<'a>,
    entries: &[Entry],
) -> Result<Command<'a>, AllocError> {
    let mut command = command;
    for entry in entries {
        command = command.arg(argument(alloc, *entry))?;
    }
    Ok(command)
}

fn argument<'a>(alloc: Global, entry: Entry) -> Arg<'a> {
    let named = Arg::new(alloc, entry.name).help(entry.help);
    match entry.shape {
        Shape::Flag => named.long(entry.name).action(ArgAction::SetTrue),
        Shape::Once => named
            .long(entry.name)
            .value_name(entry.value)
            .action(ArgAction::Set),
        Shape::Repeated => named
            .long(entry.name)
            .value_name(entry.value)
            .action(ArgAction::Append),
        Shape::Place => named.value_name(entry.value).action(ArgAction::Set),
        Shape::NeededPlace => named
            .value_name(entry.value)
            .action(ArgAction::Set)
            .required(true),
    }
}

fn add_keys<'a>(alloc: Global, command: Command<'a>) -> Result<Command<'a>, AllocError> {
    let command = add_entries(alloc, command, &key_entries())?;
    add_group(command, key_group(alloc))
}

fn key_entries() -> [Entry; 6] {
    [
        option(
            "secret-file",
            "FILE",
            "Verify with HMAC and the bytes of this file as the secret",
        ),
        option("jwk", "FILE", "Verify with this JSON Web Key (RFC 7517)"),
        option(
            "jwks",
            "FILE",
            "Verify with the key of this set that the token's 'kid' names",
        ),
        option(
            "pem",
            "FILE",
            "Verify with this public key in PEM (RFC 7468)",
        ),
        TRIM,
        ALLOW_KEY,
    ]
}

const fn option(name: &'static str, value: &'static str, help: &'static str) -> Entry {
    Entry {
        name,
        shape: Shape::Once,
        value,
        help,
    }
}

const fn flag(name: &'static str, help: &'static str) -> Entry {
    Entry {
        name,
        shape: Shape::Flag,
        value: "",
        help,
    }
}

fn key_group<'a>(alloc: Global) -> Result<ArgGroup<'a>, AllocError> {
    let group = ArgGroup::new(alloc, "key").required(true);
    group
        .arg("secret-file")?
        .arg("jwk")?
        .arg("jwks")?
        .arg("pem")
}

fn option_entries() -> [Entry; 14] {
    [
        repeated_option(
            "alg",
            "ALG",
            "Accept this algorithm (default: the 'alg' of the key)",
        ),
        repeated_option(
            "aud",
            "AUDIENCE",
            "Accept tokens whose 'aud' names this audience",
        ),
        repeated_option("iss", "ISSUER", "Accept tokens of this issuer only"),
        option("sub", "SUBJECT", "Accept tokens of this subject only"),
        option(
            "leeway",
            "SPAN",
            "Accept tokens this long after 'exp' and before 'nbf' (default: 60s)",
        ),
        option(
            "not-within",
            "SPAN",
            "Refuse tokens this long before they expire (default: 0s)",
        ),
        repeated_option(
            "require",
            "CLAIM",
            "Require this claim: 'exp', 'nbf', 'aud', 'iss' or 'sub'",
        ),
        flag("nbf", "Check 'nbf'"),
        flag("no-exp", "Neither require nor check 'exp'"),
        flag(
            "strict",
            "Check 'nbf', without leeway, and refuse from 'exp' on",
        ),
        repeated_option(
            "crit",
            "NAME",
            "Understand this member in the header's 'crit'",
        ),
        option("typ", "TYPE", "Accept tokens of this 'typ' only"),
        NOW,
        option(
            "options",
            "FILE",
            "Begin with the options of this JSON file",
        ),
    ]
}

const fn repeated_option(name: &'static str, value: &'static str, help: &'static str) -> Entry {
    Entry {
        name,
        shape: Shape::Repeated,
        value,
        help,
    }
}

/// Adds a command to the others, if there was memory for it.
fn add_subcommand<'a>(
    command: Command<'a>,
    added: Result<Command<'a>, AllocError>,
) -> Result<Command<'a>, AllocError> {
    match added {
        Ok(added) => command.subcommand(added),
        Err(error) => {
            drop(command);
            Err(error)
        }
    }
}

/// Adds an argument to a command, if there was memory for it.
fn add_argument<'a>(
    command: Command<'a>,
    added: Result<Arg<'a>, AllocError>,
) -> Result<Command<'a>, AllocError> {
    match added {
        Ok(added) => command.arg(added),
        Err(error) => {
            drop(command);
            Err(error)
        }
    }
}

/// Adds a group of arguments to a command, if there was memory for it.
fn add_group<'a>(
    command: Command<'a>,
    added: Result<ArgGroup<'a>, AllocError>,
) -> Result<Command<'a>, AllocError> {
    match added {
        Ok(added) => command.group(added),
        Err(error) => {
            drop(command);
            Err(error)
        }
    }
}

fn verify_command<'a>(alloc: Global) -> Result<Command<'a>, AllocError> {
    let command = Command::new(alloc, "verify").about("Verify a token and print its claims");
    let command = add_checks(alloc, command)?;
    add_entries(
        alloc,
        command,
        &[
            flag(
                "header",
                "Print the header too, on a line before the claims",
            ),
            flag(
                "lines",
                "Read one token per line, and answer each with a line of JSON",
            ),
        ],
    )
}

fn show_command<'a>(alloc: Global) -> Result<Command<'a>, AllocError> {
    let command = Command::new(alloc, "show").about(
        "Print header and claims of a token, unverified",
    );
    add_entries(
        alloc,
        command,
        &[TOKEN, NOW, flag("json", "Write one line of JSON")],
    )
}

fn sign_command<'a>(alloc: Global) -> Result<Command<'a>, AllocError> {
    let command = Command::new(alloc, "sign").about("Sign claims, and print the token");
    let command = add_signers(alloc, command)?;
    let command = add_entries(alloc, command, &sign_entries())?;
    let command = add_entries(alloc, command, &signed_entries())?;
    add_group(command, signed_group(alloc))
}

/// Adds the three ways to sign, of which one is needed.
fn add_signers<'a>(alloc: Global, command: Command<'a>) -> Result<Command<'a>, AllocError> {
    let by_secret = option(
        "secret-file",
        "FILE",
        "Sign with HMAC and the bytes of this file as the secret",
    );
    let command = add_entries(alloc, command, &[by_secret])?;
    let command = add_argument(command, signing_input_argument(alloc))?;
    let command = add_argument(command, signature_argument(alloc))?;
    add_group(command, signer_group(alloc))
}

fn signing_input_argument<'a>(alloc: Global) -> Result<Arg<'a>, AllocError> {
    let input = flag(
        "signing-input",
        "Print what another program has to sign with RSA or a curve, without a line end",
    );
    apart(argument(alloc, input), &OF_SECRETS)
}

fn signature_argument<'a>(alloc: Global) -> Result<Arg<'a>, AllocError> {
    let given = option(
        "signature",
        "FILE",
        "Print the token of the signing input on standard input and this signature, raw or in DER",
    );
    let given = apart(argument(alloc, given), &OF_SECRETS)?;
    apart(given, &OF_DRAFTS)
}

/// Returns an argument beside which none of these may be given.
fn apart<'a>(argument: Arg<'a>, names: &[&'static str]) -> Result<Arg<'a>, AllocError> {
    let mut argument = argument;
    for name in names {
        argument = argument.conflicts_with(name)?;
    }
    Ok(argument)
}

/// The arguments about the secret.
const OF_SECRETS: [&str; 2] = ["trim", "allow-key-as-secret"];

/// The arguments about header and claims.
const OF_DRAFTS: [&str; 8] = [
    "claims", "alg", "kid", "typ", "exp-in", "nbf-in", "iat", "now",
];

fn signer_group<'a>(alloc: Global) -> Result<ArgGroup<'a>, AllocError> {
    let group = ArgGroup::new(alloc, "signer").required(true);
    group
        .arg("secret-file")?
        .arg("signing-input")?
        .arg("signature")
}

/// Returns the arguments about the keys that accept a signature.
fn signed_entries() -> [Entry; 3] {
    [
        option(
            "pem",
            "FILE",
            "Verify the signature with this public key in PEM (RFC 7468) first",
        ),
        option(
            "jwk",
            "FILE",
            "Verify the signature with this JSON Web Key (RFC 7517) first",
        ),
        option(
            "jwks",
            "FILE",
            "Verify the signature with the key of this set that the 'kid' names first",
        ),
    ]
}

fn signed_group<'a>(alloc: Global) -> Result<ArgGroup<'a>, AllocError> {
    let group = ArgGroup::new(alloc, "verified").conflicts_with("secret-file")?;
    let group = group.conflicts_with("signing-input")?;
    group.arg("pem")?.arg("jwk")?.arg("jwks")
}

fn sign_entries() -> [Entry; 10] {
    [
        TRIM,
        ALLOW_KEY,
        option(
            "claims",
            "FILE",
            "Read the claims from this file (default: standard input)",
        ),
        option("alg", "ALG", "Sign with this algorithm (default: HS256)"),
        option("kid", "NAME", "Write this 'kid' into the header"),
        option(
            "typ",
            "TYPE",
            "Write this 'typ' into the header (default: JWT)",
        ),
        option(
            "exp-in",
            "SPAN",
            "Let the token expire after this span, such as 15m or 12h",
        ),
        option("nbf-in", "SPAN", "Let the token be valid after this span"),
        flag("iat", "Write the time into 'iat'"),
        NOW,
    ]
}

fn keys_command<'a>(alloc: Global) -> Result<Command<'a>, AllocError> {
    let command = Command::new(alloc, "keys").about("Print a table of a key set");
    add_entries(
        alloc,
        command,
        &[
            place(
                "file",
                "FILE",
                "A set of JSON Web Keys (RFC 7517); '-' reads it from standard input",
            ),
            flag("json", "Write one line of JSON"),
        ],
    )
}

const fn place(name: &'static str, value: &'static str, help: &'static str) -> Entry {
    Entry {
        name,
        shape: Shape::NeededPlace,
        value,
        help,
    }
}

fn jwk_command<'a>(alloc: Global) -> Result<Command<'a>, AllocError> {
    let command = Command::new(alloc, "jwk").about("Print a public key in PEM as a JSON Web Key");
    add_entries(
        alloc,
        command,
        &[place(
            "file",
            "FILE",
            "A public key in PEM (RFC 7468); '-' reads it from standard input",
        )],
    )
}

fn thumbprint_command<'a>(alloc: Global) -> Result<Command<'a>, AllocError> {
    let command = Command::new(alloc, "thumbprint").about(
        "Print the thumbprint of a key (RFC 7638)",
    );
    add_entries(
        alloc,
        command,
        &[
            place(
                "file",
                "FILE",
                "A JSON Web Key, or a public key in PEM; '-' reads it from standard input",
            ),
            option("hash", "HASH", "SHA256, SHA384 or SHA512 (default: SHA256)"),
        ],
    )
}
