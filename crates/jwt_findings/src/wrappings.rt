//! Recognizes by its first bytes what stands around a token, or instead of one.

use memchr::memmem;

/// The contents of a text that is not a token as it stands, and how to get the token.
#[derive(Clone, Copy)]
pub struct Wrapping {
    pub found: &'static str,
    pub wanted: &'static str,
}

/// A word that stands before a token, as it is written in lower case.
struct Scheme {
    word: &'static str,
    found: &'static str,
}

const SCHEMES: [Scheme; 5] = [
    Scheme {
        word: "authorization:",
        found: "the field name 'Authorization:' before the token",
    },
    Scheme {
        word: "bearer ",
        found: "the word Bearer before the token",
    },
    Scheme {
        word: "dpop ",
        found: "the word DPoP before the token",
    },
    Scheme {
        word: "jwt ",
        found: "the word JWT before the token",
    },
    Scheme {
        word: "token ",
        found: "the word Token before the token",
    },
];

/// A mark that a text begins with, and what it is a mark of.
struct Mark {
    bytes: &'static [u8],
    wrapping: Wrapping,
}

const MARKS: [Mark; 17] = [
    Mark {
        bytes: b"\xef\xbb\xbf",
        wrapping: Wrapping {
            found: "a byte order mark before the token",
            wanted: "the token alone, as an editor saves it without that mark",
        },
    },
    Mark {
        bytes: b"\xff\xfe",
        wrapping: UTF_16,
    },
    Mark {
        bytes: b"\xfe\xff",
        wrapping: UTF_16,
    },
    Mark {
        bytes: b"{{",
        wrapping: PLACEHOLDER,
    },
    Mark {
        bytes: b"$",
        wrapping: PLACEHOLDER,
    },
    Mark {
        bytes: b"{",
        wrapping: Wrapping {
            found: "a JSON object",
            wanted: "the token alone: the member of the object that holds it, without its quotes",
        },
    },
    Mark {
        bytes: b"[",
        wrapping: Wrapping {
            found: "a JSON array",
            wanted: "one token alone, without its quotes",
        },
    },
    Mark {
        bytes: b"\"",
        wrapping: QUOTED,
    },
    Mark {
        bytes: b"'",
        wrapping: QUOTED,
    },
    Mark {
        bytes: b"<",
        wrapping: Wrapping {
            found: "'<', as in a page of HTML, in XML or in a placeholder",
            wanted: "a token: perhaps the server answered with a page about an error",
        },
    },
    Mark {
        bytes: b"-----BEGIN ",
        wrapping: Wrapping {
            found: "a key or a certificate in PEM",
            wanted: "a token; --pem names the file of a public key",
        },
    },
    Mark {
        bytes: b"\xe2\x80",
        wrapping: TYPOGRAPHIC,
    },
    Mark {
        bytes: b"\xc2\xa0",
        wrapping: TYPOGRAPHIC,
    },
    Mark {
        bytes: b"Basic ",
        wrapping: Wrapping {
            found: "the word Basic, before a name and a password (RFC 7617)",
            wanted: "a token, which the word Bearer precedes (RFC 6750 section 2.1)",
        },
    },
    Mark {
        bytes: b"ZXlK",
        wrapping: Wrapping {
            found: "'ZXlK', which is 'eyJ' in base64: the token was encoded once more",
            wanted: "the token alone, as 'base64 -d' prints it",
        },
    },
    Mark {
        bytes: b"eyj",
        wrapping: OTHER_CASE,
    },
    Mark {
        bytes: b"EYJ",
        wrapping: OTHER_CASE,
    },
];

const PLACEHOLDER: Wrapping = Wrapping {
    found: "a placeholder, as in a template or a script",
    wanted: "a token: what writes it into the placeholder did not",
};

const TYPOGRAPHIC: Wrapping = Wrapping {
    found: "a typographic character before the token",
    wanted: "the token alone, copied from where it was issued",
};

const OTHER_CASE: Wrapping = Wrapping {
    found: "'eyj' or 'EYJ', where a token has 'eyJ': the case of its letters was changed",
    wanted: "the token as it was issued: the case of its letters counts",
};

const UTF_16: Wrapping = Wrapping {
    found: "a text in UTF-16",
    wanted: "the token in ASCII, as an editor saves it in UTF-8 without a byte order mark",
};

const QUOTED: Wrapping = Wrapping {
    found: "a quotation mark before the token",
    wanted: "the token alone, without quotes",
};

const ENCODED: Wrapping = Wrapping {
    found: "a percent sign and two digits: the text is URL-encoded",
    wanted: "the decoded text, with '.' for '%2E' and without '%3D'",
};

const NAMED: Wrapping = Wrapping {
    found: "a name and '=' before the token",
    wanted: "the token alone: the text after the first '='",
};

const ENCRYPTED: Wrapping = Wrapping {
    found: "five parts: an encrypted token (JWE, RFC 7516)",
    wanted: "a signed token, of three parts (RFC 7515); encrypted ones are not read here",
};

const PRECEDED: Wrapping = Wrapping {
    found: "text before the token",
    wanted: "the token alone: 'eyJ' and what follows it",
};

const SEVERAL: Wrapping = Wrapping {
    found: "five parts with a space or a line end: two tokens",
    wanted: "one token; 'jwt verify --lines' reads one in each line",
};

const MORE_DOTS: Wrapping = Wrapping {
    found: "more than the two dots of a token",
    wanted: "header, payload and signature with dots between them, and no other dot",
};

const HIDDEN: Wrapping = Wrapping {
    found: "'***', as a program writes in place of what it hides",
    wanted: "the whole token",
};

const SHORTENED: Wrapping = Wrapping {
    found: "'..' or another ellipsis: the token was shortened, as in a log",
    wanted: "the whole token",
};

/// The texts that programs write for a token that they do not have.
const NOTHING: [&[u8]; 5] = [b"null", b"undefined", b"None", b"nil", b"[object Object]"];

const NO_TOKEN: Wrapping = Wrapping {
    found: "a text that a program writes for a value that it does not have",
    wanted: "a token: the caller had none",
};

/// Returns why a text is not a token as it stands, if that is a well-known reason.
pub fn wrapping_of(text: &[u8]) -> Option<Wrapping> {
    if NOTHING.iter().any(|word| text == *word) {
        return Some(NO_TOKEN);
    }
    if let Some(found) = scheme_before(text) {
        return Some(found);
    }
    match mark_before(text) {
        Some(found) => Some(found),
        None => inner_wrapping(text),
    }
}

/// Returns whether a text has the five parts of an encrypted token, is not two tokens, and was not
/// shortened.
pub fn is_encrypted(text: &[u8]) -> bool {
    part_count(text) == 5 && !is_shortened(text) && !has_space(text)
}

fn has_space(text: &[u8]) -> bool {
    text.iter().any(|byte| byte.is_ascii_whitespace())
}

/// Returns the number of parts of a text, between dots.
fn part_count(text: &[u8]) -> usize {
    text.split(|byte| *byte == b'.').count()
}

fn scheme_before(text: &[u8]) -> Option<Wrapping> {
    for scheme in &SCHEMES {
        if begins_with(text, scheme.word) {
            return Some(Wrapping {
                found: scheme.found,
                wanted: "the token alone: 'eyJ' and what follows it",
            });
        }
    }
    None
}

/// Returns whether a text begins with this word, in letters of either case.
fn begins_with(text: &[u8], word: &str) -> bool {
    match text.get(..word.len()) {
        Some(front) => front.eq_ignore_ascii_case(word.as_bytes()),
        None => false,
    }
}

fn mark_before(text: &[u8]) -> Option<Wrapping> {
    for mark in &MARKS {
        if text.starts_with(mark.bytes) {
            return Some(mark.wrapping);
        }
    }
    None
}

fn inner_wrapping(text: &[u8]) -> Option<Wrapping> {
    if is_encoded(text) {
        return Some(ENCODED);
    }
    if is_named(text) {
        return Some(NAMED);
    }
    if is_shortened(text) {
        return Some(SHORTENED);
    }
    if memmem::find(text, b"***").is_some() {
        return Some(HIDDEN);
    }
    if is_encrypted(text) {
        return Some(ENCRYPTED);
    }
    if is_preceded(text) {
        return Some(PRECEDED);
    }
    match part_count(text) {
        0..=3 => None,
        5 => Some(SEVERAL),
        _ => Some(MORE_DOTS),
    }
}

/// Returns whether a header begins within a text, after a character that no token has.
fn is_preceded(text: &[u8]) -> bool {
    !text.starts_with(b"eyJ")
        && text.windows(4).any(
            |window| matches!(window, [before, b'e', b'y', b'J'] if !is_of_token(*before)),
        )
}

/// Returns whether a byte may stand in a token.
fn is_of_token(byte: u8) -> bool {
    byte.is_ascii_alphanumeric() || matches!(byte, b'-' | b'_' | b'.')
}

/// Returns whether a percent sign and two hexadecimal digits stand in a text (RFC 3986 section
/// 2.1).
fn is_encoded(text: &[u8]) -> bool {
    text.windows(3).any(|window| {
        matches!(window, [b'%', high, low] if high.is_ascii_hexdigit() && low.is_ascii_hexdigit())
    })
}

/// Returns whether a name and '=' stand before more text, of which the name has no dot.
fn is_named(text: &[u8]) -> bool {
    match text.iter().position(|byte| matches!(*byte, b'=' | b'.')) {
        Some(place) if text.get(place).copied() == Some(b'=') => {
            matches!(text.get(place + 1).copied(), Some(next) if next.is_ascii_alphanumeric())
        }
        _ => false,
    }
}

fn is_shortened(text: &[u8]) -> bool {
    memmem::find(text, b"...").is_some() || memmem::find(text, b"\xe2\x80\xa6").is_some()
}
