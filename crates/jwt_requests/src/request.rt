//! The request of the arguments.

ghost use Rattle.std.specs.Prelude.{◌≡◌, ◌≢◌, ◌↔◌, [], Some, true, false, All, IfOk, IfSome, IsTrue, codes};
ghost use Rattle.std.specs.Prelude.{map, option_map};
ghost use Rattle.clap.specs.Matches.{found_of, first_value};
ghost use Rattle.jwt_base.specs.Algorithm.{algorithm_named, family_of};
ghost use Rattle.jwt_base.specs.declared.algorithms.AlgorithmFamily.TheVariants.{Hmac};
ghost use Rattle.jwt_requests.specs.Arguments.{AreChecks, AreNames, AreOfOneFamily};
ghost use Rattle.jwt_requests.specs.Arguments.{IsChecking, IsCommand, IsFile, IsFlag};
ghost use Rattle.jwt_requests.specs.Arguments.{IsDraftOf, IsHash, IsKeyFile, IsKeyGiven, IsNumberOf};
ghost use Rattle.jwt_requests.specs.Arguments.{IsRequestOf};
ghost use Rattle.jwt_requests.specs.Arguments.{IsFromInput, IsRequirable, IsSecretFile, IsSigningOf};
ghost use Rattle.jwt_requests.specs.Arguments.{text_of, texts_of};

use crate::fault::Fault;
use crate::spans::{parse_span, parse_time};
use clap::ArgMatches;
use jwt_base::algorithms::{Algorithm, AlgorithmFamily};
use jwt_params::thumbprints::ThumbprintHash;
use std::alloc::Global;

/// The file of a secret.
#[derive(Clone, Copy)]
pub struct SecretFile<'a> {
    pub path: &'a str,
    /// Whether one newline at the end of the file is no part of the secret.
    pub is_trimmed: bool,
    /// Whether the secret may be the text of a key of another kind.
    pub allows_key: bool,
}

/// The file of the keys that a token is verified with.
#[derive(Clone, Copy)]
pub enum KeyFile<'a> {
    /// A secret.
    Secret(SecretFile<'a>),
    /// A JSON Web Key.
    Jwk(&'a str),
    /// A set of JSON Web Keys.
    Jwks(&'a str),
    /// A public key in PEM.
    Pem(&'a str),
}

/// The arguments that say against which options a token is checked.
#[derive(Drop)]
pub struct Checks<'m, 'a> {
    pub options: Option<&'a str>,
    pub is_strict: bool,
    pub algorithms: Option<Vec<Algorithm>>,
    pub audiences: Option<&'m [&'a str]>,
    pub issuers: Option<&'m [&'a str]>,
    pub subject: Option<&'a str>,
    pub leeway: Option<u64>,
    pub not_within: Option<u64>,
    pub required: Option<&'m [&'a str]>,
    pub checks_nbf: bool,
    pub skips_exp: bool,
    pub understood: Option<&'m [&'a str]>,
}

/// The arguments of `verify`, which has no `--brief`, and `explain`, which has neither `--header` nor
/// `--lines`.
#[derive(Drop)]
pub struct VerifyArgs<'m, 'a> {
    pub token: Option<&'a str>,
    pub key: KeyFile<'a>,
    pub checks: Checks<'m, 'a>,
    pub typ: Option<&'a str>,
    pub time: Option<u64>,
    pub has_header: bool,
    pub is_json: bool,
    pub is_lines: bool,
    pub is_brief: bool,
}

/// The arguments of `sign` about header and claims. The times are in seconds from now.
#[derive(Clone, Copy)]
pub struct Draft<'a> {
    pub claims: Option<&'a str>,
    pub algorithm: Algorithm,
    pub kid: Option<&'a str>,
    pub typ: Option<&'a str>,
    pub exp_in: Option<u64>,
    pub nbf_in: Option<u64>,
    pub has_iat: bool,
    pub time: Option<u64>,
}

/// The arguments of `sign` with a secret.
#[derive(Clone, Copy)]
pub struct SignArgs<'a> {
    pub draft: Draft<'a>,
    pub secret: SecretFile<'a>,
}

/// The arguments of `sign` with the signature of another program.
#[derive(Clone, Copy)]
pub struct AttachArgs<'a> {
    /// The file of the signature.
    pub signature: &'a str,
    /// The file of the keys that the signature is verified with, if it is.
    pub key: Option<KeyFile<'a>>,
}

/// The arguments of `show`.
#[derive(Clone, Copy)]
pub struct ShowArgs<'a> {
    pub token: Option<&'a str>,
    pub time: Option<u64>,
    pub is_json: bool,
}

/// The arguments of `keys`.
#[derive(Clone, Copy)]
pub struct KeysArgs<'a> {
    pub file: &'a str,
    pub is_json: bool,
}

/// The arguments of `thumbprint`.
#[derive(Drop)]
pub struct ThumbprintArgs<'a> {
    pub file: &'a str,
    pub hash: ThumbprintHash,
}

/// A command with its arguments.
#[derive(Drop)]
pub enum Request<'m, 'a> {
    /// Verifies a token and prints its claims.
    Verify(VerifyArgs<'m, 'a>),
    /// Explains whether a token is accepted.
    Explain(VerifyArgs<'m, 'a>),
    /// Prints header and claims of a token, unverified.
    Show(ShowArgs<'a>),
    /// Signs claims with a secret.
    Sign(SignArgs<'a>),
    /// Prints what another program has to sign.
    SigningInput(Draft<'a>),
    /// Prints the token of a signature that another program made.
    Attach(AttachArgs<'a>),
    /// Prints a table of a key set.
    Keys(KeysArgs<'a>),
    /// Prints the JSON Web Key of the key in PEM of a file.
    Jwk(&'a str),
    /// Prints the thumbprint of a key.
    Thumbprint(ThumbprintArgs<'a>),
}

/// Returns the request of the arguments.
pub fn parse_request<'m, 'a: 'm>(
    alloc: Global,
    matches: &'m ArgMatches<'a>,
) -> Result<Request<'m, 'a>, Fault<'static>>
    ensures { IfOk result (IsRequestOf matches.now) }
{
    match matches.subcommand() {
        Some((name, found)) => parse_command(alloc, name, found),
        None => Err(Fault::Usage("a command is needed")),
    }
}

/// Returns the request of a command and its arguments.
fn parse_command<'m, 'a: 'm>(
    alloc: Global,
    name: &str,
    found: &'m ArgMatches<'a>,
) -> Result<Request<'m, 'a>, Fault<'static>>
    ensures { IfOk result (IsCommand name.now (found_of found.now)) }
{
    match name {
        "verify" => parse_verify(alloc, found),
        "explain" => parse_explain(alloc, found),
        "show" => parse_show(found),
        "sign" => parse_sign(found),
        "keys" => Ok(Request::Keys(parse_keys(found))),
        "jwk" => Ok(Request::Jwk(file(found))),
        "thumbprint" => parse_thumbprint(found),
        _ => Err(Fault::Usage("a command is needed")),
    }
}

fn parse_verify<'m, 'a: 'm>(
    alloc: Global,
    matches: &'m ArgMatches<'a>,
) -> Result<Request<'m, 'a>, Fault<'static>>
    ensures { IfOk result (IsCommand (codes "verify") (found_of matches.now)) }
{
    let has_header = matches.get_flag("header");
    let is_lines = parse_lines(matches, has_header)?;
    let mut request = parse_verification(alloc, matches)?;
    request.has_header = has_header;
    request.is_lines = is_lines;
    Ok(Request::Verify(request))
}

fn parse_explain<'m, 'a: 'm>(
    alloc: Global,
    matches: &'m ArgMatches<'a>,
) -> Result<Request<'m, 'a>, Fault<'static>>
    ensures { IfOk result (IsCommand (codes "explain") (found_of matches.now)) }
{
    let is_brief = matches.get_flag("brief");
    if is_brief && matches.get_flag("json") {
        return Err(Fault::Usage("--brief and --json ask for two forms of an answer"));
    }
    let mut request = parse_verification(alloc, matches)?;
    request.is_brief = is_brief;
    Ok(Request::Explain(request))
}

/// Returns whether each line of standard input is a token. Neither a token nor `--header` may stand
/// beside `--lines`.
fn parse_lines(matches: &ArgMatches<'_>, has_header: bool) -> Result<bool, Fault<'static>>
    ensures { IfOk result (λ is_lines. IsFlag (found_of matches.now) (codes "lines") is_lines
        × (is_lines ≡ true → (has_header ≡ false)
        × IsFromInput (first_value (found_of matches.now) (codes "token")))) }
{
    if !matches.get_flag("lines") {
        return Ok(false);
    }
    if has_header {
        return Err(Fault::Usage("--lines prints no headers; leave out --header"));
    }
    match matches.get_str("token") {
        None | Some("-") => Ok(true),
        Some(_) => Err(Fault::Usage(
            "--lines reads the tokens from standard input, and takes none on the command line",
        )),
    }
}

/// Returns the arguments that `verify` and `explain` share.
fn parse_verification<'m, 'a: 'm>(
    alloc: Global,
    matches: &'m ArgMatches<'a>,
) -> Result<VerifyArgs<'m, 'a>, Fault<'static>>
    ensures { IfOk result (λ v. IsChecking (found_of matches.now) v
        × (v.has_header ≡ false) × (v.is_lines ≡ false)) }
{
    Ok(VerifyArgs {
        token: matches.get_str("token"),
        key: key_file(matches)?,
        typ: matches.get_str("typ"),
        time: time(matches, "now")?,
        checks: parse_checks(alloc, matches)?,
        has_header: false,
        is_json: matches.get_flag("json"),
        is_lines: false,
        is_brief: false,
    })
}

fn key_file<'a>(matches: &ArgMatches<'a>) -> Result<KeyFile<'a>, Fault<'static>>
    ensures { IfOk result (IsKeyFile (found_of matches.now)) }
{
    if let Some(path) = matches.get_str("secret-file") {
        return Ok(KeyFile::Secret(secret_file(matches, path)));
    }
    if let Some(path) = matches.get_str("jwk") {
        return Ok(KeyFile::Jwk(path));
    }
    if let Some(path) = matches.get_str("jwks") {
        return Ok(KeyFile::Jwks(path));
    }
    match matches.get_str("pem") {
        Some(path) => Ok(KeyFile::Pem(path)),
        None => Err(Fault::Usage("one of --secret-file, --jwk, --jwks and --pem is needed")),
    }
}

/// Returns the file of a secret with the flags that say how it is read.
fn secret_file<'a>(matches: &ArgMatches<'a>, path: &'a str) -> SecretFile<'a>
    ensures { IsSecretFile (found_of matches.now) path.entry result }
{
    SecretFile {
        path,
        is_trimmed: matches.get_flag("trim"),
        allows_key: matches.get_flag("allow-key-as-secret"),
    }
}

fn file<'a>(matches: &ArgMatches<'a>) -> &'a str
    ensures { IsFile (found_of matches.now) result }
{
    matches.get_str("file").unwrap_or("")
}

fn time(matches: &ArgMatches<'_>, id: &str) -> Result<Option<u64>, Fault<'static>>
    ensures { IfOk result (IsNumberOf (first_value (found_of matches.now) id.now)) }
{
    let Some(text) = matches.get_str(id) else {
        return Ok(None);
    };
    match parse_time(text) {
        Some(time) => Ok(Some(time)),
        None => Err(Fault::Usage(
            "--now wants seconds since 1970 UTC, or a time such as 2026-01-31T12:00:00Z",
        )),
    }
}

fn parse_checks<'m, 'a: 'm>(
    alloc: Global,
    matches: &'m ArgMatches<'a>,
) -> Result<Checks<'m, 'a>, Fault<'static>>
    ensures { IfOk result (AreChecks (found_of matches.now)) }
{
    Ok(Checks {
        options: matches.get_str("options"),
        is_strict: matches.get_flag("strict"),
        audiences: names(
            matches.get_strs("aud"),
            "--aud must name an audience; leave it out to require none",
        )?,
        issuers: names(
            matches.get_strs("iss"),
            "--iss must name an issuer; leave it out to require none",
        )?,
        subject: subject(matches)?,
        leeway: span(
            matches,
            "leeway",
            "--leeway wants seconds, or a span such as 5m",
        )?,
        not_within: span(
            matches,
            "not-within",
            "--not-within wants seconds, or a span such as 5m",
        )?,
        required: requirable_claims(matches.get_strs("require"))?,
        checks_nbf: matches.get_flag("nbf"),
        skips_exp: matches.get_flag("no-exp"),
        understood: matches.get_strs("crit"),
        algorithms: algorithms(alloc, matches.get_strs("alg"))?,
    })
}

/// Returns the names, unless one is empty.
fn names<'m, 'a: 'm>(
    names: Option<&'m [&'a str]>,
    mistake: &'static str,
) -> Result<Option<&'m [&'a str]>, Fault<'static>>
    ensures given { IfOk result (λ given. given ≡ names.entry) }
    ensures named { IfOk result (λ given. IfSome given AreNames) }
{
    let Some(given) = names else {
        return Ok(None);
    };
    if given.iter().all(|name| is_name(name)) {
        Ok(Some(given))
    } else {
        Err(Fault::Usage(mistake))
    }
}

fn is_name(text: &str) -> bool
    ensures { IsTrue result ↔ text.now ≢ [] }
{
    !text.is_empty()
}

fn subject<'a>(matches: &ArgMatches<'a>) -> Result<Option<&'a str>, Fault<'static>>
    ensures given { IfOk result (λ s. text_of s ≡ first_value (found_of matches.now) (codes "sub")) }
    ensures named { IfOk result (λ s. IfSome s (λ name. name.now ≢ [])) }
{
    match matches.get_str("sub") {
        Some("") => Err(Fault::Usage("--sub must name a subject; leave it out to require none")),
        subject => Ok(subject),
    }
}

fn span(
    matches: &ArgMatches<'_>,
    id: &str,
    mistake: &'static str,
) -> Result<Option<u64>, Fault<'static>>
    ensures { IfOk result (IsNumberOf (first_value (found_of matches.now) id.now)) }
{
    let Some(text) = matches.get_str(id) else {
        return Ok(None);
    };
    match parse_span(text) {
        Some(seconds) => Ok(Some(seconds)),
        None => Err(Fault::Usage(mistake)),
    }
}

/// Returns the names, if each is that of a claim that can be required.
fn requirable_claims<'m, 'a: 'm>(
    names: Option<&'m [&'a str]>,
) -> Result<Option<&'m [&'a str]>, Fault<'static>>
    ensures given { IfOk result (λ given. given ≡ names.entry) }
    ensures requirable { IfOk result (λ given. IfSome given
        (λ names. All (λ s. IsRequirable s.now) names.now)) }
{
    let Some(given) = names else {
        return Ok(None);
    };
    if given.iter().all(|name| is_requirable(name)) {
        Ok(Some(given))
    } else {
        Err(Fault::Usage("--require wants exp, nbf, aud, iss or sub"))
    }
}

fn is_requirable(name: &str) -> bool
    ensures { IsTrue result ↔ IsRequirable name.now }
{
    matches!(name, "exp" | "nbf" | "aud" | "iss" | "sub")
}

/// Returns the algorithms of these names, if they are of one family.
fn algorithms(
    alloc: Global,
    names: Option<&[&str]>,
) -> Result<Option<Vec<Algorithm>>, Fault<'static>>
    ensures given { IfOk result (λ given. option_map (map algorithm_named) (texts_of names.entry)
        ≡ option_map (λ a. map Some a.items) given) }
    ensures of_one_family { IfOk result (λ given. IfSome given (λ a. AreOfOneFamily a.items)) }
{
    let Some(names) = names else {
        return Ok(None);
    };
    let algorithms = algorithms_named(alloc, names)?;
    if are_of_one_family(&algorithms) {
        Ok(Some(algorithms))
    } else {
        drop(algorithms);
        Err(Fault::Usage(
            "--alg must name algorithms of one family, such as HS256 and HS512, RS256 and PS256, or ES256 and ES384",
        ))
    }
}

fn are_of_one_family(algorithms: &[Algorithm]) -> bool
    ensures { IsTrue result ↔ AreOfOneFamily algorithms.now }
{
    match algorithms.first() {
        Some(first) => algorithms
            .iter()
            .all(|other| other.family() == first.family()),
        None => true,
    }
}

fn algorithms_named(alloc: Global, names: &[&str]) -> Result<Vec<Algorithm>, Fault<'static>>
    ensures { IfOk result (λ a. map algorithm_named (map (λ s. s.now) names.now)
        ≡ map Some a.items) }
{
    let mut algorithms = Vec::new(alloc);
    for name in names {
        algorithms.push(algorithm(name)?)?;
    }
    Ok(algorithms)
}

fn algorithm(name: &str) -> Result<Algorithm, Fault<'static>>
    ensures { IfOk result (λ a. algorithm_named name.now ≡ Some a) }
{
    match name.parse::<Algorithm>() {
        Ok(algorithm) => Ok(algorithm),
        Err(_) => Err(Fault::Usage(
            "--alg wants HS256, HS384, HS512, RS256, RS384, RS512, PS256, PS384, PS512, ES256, ES384 or EdDSA",
        )),
    }
}

fn parse_show<'m, 'a: 'm>(matches: &ArgMatches<'a>) -> Result<Request<'m, 'a>, Fault<'static>>
    ensures { IfOk result (IsCommand (codes "show") (found_of matches.now)) }
{
    Ok(Request::Show(ShowArgs {
        token: matches.get_str("token"),
        time: time(matches, "now")?,
        is_json: matches.get_flag("json"),
    }))
}

/// Returns the request of `sign`: for the token of a signature that is given, for what is to be
/// signed, or for the token of a secret.
fn parse_sign<'m, 'a: 'm>(matches: &ArgMatches<'a>) -> Result<Request<'m, 'a>, Fault<'static>>
    ensures { IfOk result (IsCommand (codes "sign") (found_of matches.now)) }
{
    if let Some(signature) = matches.get_str("signature") {
        return Ok(Request::Attach(AttachArgs {
            signature,
            key: given_key_file(matches)?,
        }));
    }
    if matches.get_flag("signing-input") {
        return Ok(Request::SigningInput(parse_signing_input(matches)?));
    }
    Ok(Request::Sign(parse_sign_by_secret(matches)?))
}

/// Returns the file of the keys that a signature is verified with, if one is given.
fn given_key_file<'a>(matches: &ArgMatches<'a>) -> Result<Option<KeyFile<'a>>, Fault<'static>>
    ensures { IfOk result (IsKeyGiven (found_of matches.now)) }
{
    if matches.get_str("jwk").is_none()
        && matches.get_str("jwks").is_none()
        && matches.get_str("pem").is_none()
    {
        return Ok(None);
    }
    let file = key_file(matches)?;
    Ok(Some(file))
}

/// Returns the arguments for what another program has to sign, which no secret signs.
fn parse_signing_input<'a>(matches: &ArgMatches<'a>) -> Result<Draft<'a>, Fault<'static>>
    ensures { IfOk result (λ d. IsDraftOf (found_of matches.now) d
        × (family_of d.algorithm ≢ Hmac)) }
{
    let draft = parse_draft(matches)?;
    if is_of_secret(draft.algorithm) {
        return Err(Fault::Usage("--signing-input wants --alg with RSA or a curve, such as RS256"));
    }
    Ok(draft)
}

/// Returns whether a secret signs with the algorithm.
pub fn is_of_secret(algorithm: Algorithm) -> bool
    ensures { IsTrue result ↔ family_of algorithm ≡ Hmac }
{
    matches!(algorithm.family(), AlgorithmFamily::Hmac)
}

fn parse_sign_by_secret<'a>(matches: &ArgMatches<'a>) -> Result<SignArgs<'a>, Fault<'static>>
    ensures { IfOk result (IsSigningOf (found_of matches.now)) }
{
    let Some(path) = matches.get_str("secret-file") else {
        return Err(Fault::Usage("one of --secret-file, --signing-input and --signature is needed"));
    };
    Ok(SignArgs {
        secret: secret_file(matches, path),
        draft: parse_draft(matches)?,
    })
}

fn parse_draft<'a>(matches: &ArgMatches<'a>) -> Result<Draft<'a>, Fault<'static>>
    ensures { IfOk result (IsDraftOf (found_of matches.now)) }
{
    Ok(Draft {
        claims: matches.get_str("claims"),
        algorithm: algorithm(matches.get_str("alg").unwrap_or("HS256"))?,
        kid: matches.get_str("kid"),
        typ: matches.get_str("typ"),
        exp_in: span(
            matches,
            "exp-in",
            "--exp-in wants a span such as 15m, or seconds",
        )?,
        nbf_in: span(
            matches,
            "nbf-in",
            "--nbf-in wants a span such as 15m, or seconds",
        )?,
        has_iat: matches.get_flag("iat"),
        time: time(matches, "now")?,
    })
}

fn parse_keys<'a>(matches: &ArgMatches<'a>) -> KeysArgs<'a>
    ensures { IsFile (found_of matches.now) result.file
        × IsFlag (found_of matches.now) (codes "json") result.is_json }
{
    KeysArgs {
        file: file(matches),
        is_json: matches.get_flag("json"),
    }
}

fn parse_thumbprint<'m, 'a: 'm>(matches: &ArgMatches<'a>) -> Result<Request<'m, 'a>, Fault<'static>>
    ensures { IfOk result (IsCommand (codes "thumbprint") (found_of matches.now)) }
{
    Ok(Request::Thumbprint(ThumbprintArgs {
        file: file(matches),
        hash: hash(matches)?,
    }))
}

fn hash(matches: &ArgMatches<'_>) -> Result<ThumbprintHash, Fault<'static>>
    ensures { IfOk result (IsHash (first_value (found_of matches.now) (codes "hash"))) }
{
    match matches.get_str("hash") {
        None | Some("SHA256") => Ok(ThumbprintHash::SHA256),
        Some("SHA384") => Ok(ThumbprintHash::SHA384),
        Some("SHA512") => Ok(ThumbprintHash::SHA512),
        Some(_) => Err(Fault::Usage("--hash wants SHA256, SHA384 or SHA512")),
    }
}
