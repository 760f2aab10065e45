//! Characters that are not seen as they stand, and that a terminal may act on.

ghost use Rattle.std.specs.Prelude.{◌≡◌, ◌++◌, ◌<◌, ◌%◌, flat_map, IfOk, OnOk, string_bytes};
ghost use Rattle.std.specs.Char.{digit_char};
ghost use Rattle.std.specs.Char.Escape.{encode_utf16};
ghost use Rattle.jwt_findings.specs.Escapes as spec;
ghost use Rattle.jwt_findings.specs.Escapes.{escaped, seen, unit_escape};

use std::alloc::{AllocError, Global};

/// Returns whether a character is not seen as it stands: one of control or of format, such as one
/// that turns the direction of what follows around, or a separator of lines (Unicode, general
/// categories Cc, Cf, Zl and Zp).
pub fn is_unseen(character: char) -> bool
    ensures { result ≡ spec.is_unseen character }
{
    character.is_control()
        || is_of_format(character)
        || matches!(character, '\u{2028}' | '\u{2029}')
}

/// Returns JSON text with the characters that are not seen written as escapes of JSON (RFC 8259
/// section 7). JSON itself escapes the control characters below U+0020 in its strings, and line
/// ends stand between them.
pub fn escape_unseen(alloc: Global, text: String) -> Result<String, AllocError>
    ensures { IfOk result (λ t. string_bytes t ≡ escaped (string_bytes text)) }
{
    if !text.chars().any(is_to_escape) {
        return Ok(text);
    }
    let mut written = String::new(alloc);
    for character in text.chars() {
        push_seen(&mut written, character)?;
    }
    Ok(written)
}

/// Adds a character, or its escape.
fn push_seen(text: &mut String, character: char) -> Result<(), AllocError>
    ensures { OnOk result (string_bytes text.new ≡ string_bytes text.old ++ seen character) }
{
    if is_to_escape(character) {
        push_escape(text, character)
    } else {
        text.push(character)
    }
}

/// Returns whether a character of JSON text is written as an escape.
fn is_to_escape(character: char) -> bool
    ensures { result ≡ spec.is_to_escape character }
{
    character != '\n' && is_unseen(character)
}

/// Returns whether a character is of the general category Cf of Unicode 16.
fn is_of_format(character: char) -> bool
    ensures { result ≡ spec.is_of_format character }
{
    matches!(
        character,
        '\u{ad}' | '\u{61c}' | '\u{6dd}' | '\u{70f}' | '\u{8e2}' | '\u{180e}' | '\u{feff}'
            | '\u{600}'..='\u{605}' | '\u{890}'..='\u{891}' | '\u{200b}'..='\u{200f}'
            | '\u{202a}'..='\u{202e}' | '\u{2060}'..='\u{2064}' | '\u{2066}'..='\u{206f}'
            | '\u{fff9}'..='\u{fffb}' | '\u{110bd}' | '\u{110cd}' | '\u{13430}'..='\u{1343f}'
            | '\u{1bca0}'..='\u{1bca3}' | '\u{1d173}'..='\u{1d17a}' | '\u{e0001}'
            | '\u{e0020}'..='\u{e007f}'
    )
}

/// Adds the escape of a character: one for each of its code units in UTF-16.
fn push_escape(text: &mut String, character: char) -> Result<(), AllocError>
    ensures { OnOk result (string_bytes text.new
        ≡ string_bytes text.old ++ flat_map unit_escape (encode_utf16 character)) }
{
    let mut units = [0u16; 2];
    for unit in character.encode_utf16(&mut units).iter() {
        push_unit(text, *unit)?;
    }
    Ok(())
}

/// Adds the escape of a code unit.
fn push_unit(text: &mut String, unit: u16) -> Result<(), AllocError>
    ensures { OnOk result (string_bytes text.new ≡ string_bytes text.old ++ unit_escape unit) }
{
    text.push_str("\\u")?;
    text.push(hex_digit(unit / 0x1000))?;
    text.push(hex_digit(unit / 0x100))?;
    text.push(hex_digit(unit / 0x10))?;
    text.push(hex_digit(unit))
}

/// Returns the last hexadecimal digit of a number.
fn hex_digit(number: u16) -> char
    ensures digit { result ≡ digit_char (number % 16) }
    ensures ascii { result < 128 }
{
    char::from_digit(u32::from(number % 16), 16).unwrap_or('0')
}
