ghost use Rattle.std.specs.Fmt.{signed_decimal};
ghost use Rattle.std.specs.List.{flat_map};
ghost use Rattle.std.specs.Prelude.{◌≡◌, ◌++◌, ◌∷◌, ◌<◌, ◌≤◌, length, if◌then◌else◌, IfSome, IsTrue};
ghost use Rattle.std.specs.Str.{IsUtf8};
ghost use Rattle.std.specs.declared.cmp.Ordering.TheVariants.{Less};
ghost use Rattle.st_plain.specs.Plain.{comma, escape};
ghost use Rattle.st_plain.specs.ReadAgain.{IsReadAgain};
ghost use Rattle.st_plain.specs.inside.Objects.{ranks_cmp};
ghost use Rattle.st_plain.specs.inside.Walk.{IsEscapeInFront, IsInFront, IsTextInFront, ItemsAreInFront, MembersAreInFront, name_of};

use crate::names::{behind_mark, compare_names, next_byte};
use crate::numbers::Whole;
use crate::quoted::strip_escaped;
use crate::respelling::MAX_DEPTH;
use crate::spans::span_length;
use crate::values::starts;
use itoa::Buffer;
use std::cmp::Ordering;

// Whether a text is already canonical (RFC 8785), so that it needn't be written again. `false`
// promises nothing.
pub(crate) fn is_canonical(text: &str) -> bool
    ensures { IsTrue result → IsReadAgain text.now }
{
    match behind_value(text, MAX_DEPTH) {
        Some(rest) => rest.is_empty(),
        None => false,
    }
}

// The text after its first value, if that value is seen to be canonical.
#[cycle(behind_value)]
fn behind_value(text: &str, depth: usize) -> Option<&str>
    ensures value { IfSome result (λ rest. IsInFront depth text.now rest.now) }
    ensures shorter { IfSome result (λ rest. length rest.now < length text.now) }
{
    if let Some(rest) = behind_text(text) {
        return Some(rest);
    }
    if let Some(rest) = behind_scalar(text) {
        return Some(rest);
    }
    if depth == 0 {
        return None;
    }
    if let Some(members) = behind_byte(text, b'{') {
        return behind_members(members, depth - 1);
    }
    behind_items(behind_byte(text, b'[')?, depth - 1)
}

#[cycle(behind_value)]
fn behind_items(text: &str, depth: usize) -> Option<&str>
    ensures items { IfSome result (λ rest. ItemsAreInFront depth text.now rest.now) }
    ensures shorter { IfSome result (λ rest. length rest.now < length text.now) }
{
    let mut rest = text;
    let mut comma = false;
    'items: loop {
        if let Some(behind) = behind_byte(rest, b']') {
            return Some(behind);
        }
        rest = behind_value(behind_comma(rest, comma)?, depth)?;
        comma = true;
    }
}

#[cycle(behind_value)]
fn behind_members(text: &str, depth: usize) -> Option<&str>
    ensures members { IfSome result (λ rest. MembersAreInFront depth text.now rest.now) }
    ensures shorter { IfSome result (λ rest. length rest.now < length text.now) }
{
    let mut rest = text;
    let mut last: Option<&str> = None;
    'members: loop {
        if let Some(behind) = behind_byte(rest, b'}') {
            return Some(behind);
        }
        let name = behind_comma(rest, last.is_some())?;
        let value = behind_text(name)?;
        if !is_above(last, name) {
            return None;
        }
        rest = behind_value(behind_byte(value, b':')?, depth)?;
        last = Some(name);
    }
}

// Whether a name is above the previous one, if any. Both are escaped, as in the text.
fn is_above(last: Option<&str>, name: &str) -> bool
    ensures { IsTrue result → IfSome last.entry (λ last. ranks_cmp (name_of last.now) (name_of name.now) ≡ Less) }
{
    match last {
        Some(last) => compare_names(behind_mark(last.as_bytes()), behind_mark(name.as_bytes()))
            == Ordering::Less,
        None => true,
    }
}

// The text after the first string.
fn behind_text(text: &str) -> Option<&str>
    ensures text { IfSome result (λ rest. IsTextInFront text.now rest.now) }
    ensures shorter { IfSome result (λ rest. length rest.now < length text.now) }
{
    let mut rest = behind_byte(text, b'"')?;
    'runs: loop {
        let (_span, behind) = split_unescaped(rest)?;
        if let Some(after) = behind_byte(behind, b'"') {
            return Some(after);
        }
        rest = behind_escape(behind)?;
    }
}

// The text before its first escaped byte, and the text from there on.
#[inline]
fn split_unescaped(text: &str) -> Option<(&str, &str)>
    ensures plain { IfSome result (λ parts. flat_map escape parts.0.now ≡ parts.0.now) }
    ensures parted { IfSome result (λ parts. text.now ≡ parts.0.now ++ parts.1.now) }
    ensures utf8 { IfSome result (λ parts. IsUtf8 parts.0.now) }
{
    let length = span_length(text.as_bytes());
    if !text.is_char_boundary(length) {
        return None;
    }
    Some(text.split_at(length))
}

// The text after the first byte, if that is escaped as canonical text escapes it: the byte is
// guessed and written again to compare.
fn behind_escape(text: &str) -> Option<&str>
    ensures byte { IfSome result (λ rest. IsEscapeInFront text.now rest.now) }
    ensures shorter { IfSome result (λ rest. length rest.now < length text.now) }
{
    let (byte, _rest) = next_byte(text.as_bytes())?;
    if byte >= 128 {
        return None;
    }
    let behind = strip_escaped(text.as_bytes(), byte)?;
    let at = text.len().checked_sub(behind.len())?;
    if at == 0 || !text.is_char_boundary(at) {
        return None;
    }
    Some(text.split_at(at).1)
}

// The text after the first literal or number.
fn behind_scalar(text: &str) -> Option<&str>
    ensures value { IfSome result (λ rest. IsInFront 0 text.now rest.now) }
    ensures shorter { IfSome result (λ rest. length rest.now < length text.now) }
{
    match *text.as_bytes().first()? {
        b'n' => behind_null(text),
        b't' => behind_true(text),
        b'f' => behind_false(text),
        b'-' | b'0'..=b'9' => behind_number(text),
        _ => None,
    }
}

fn behind_null(text: &str) -> Option<&str>
    ensures value { IfSome result (λ rest. IsInFront 0 text.now rest.now) }
    ensures shorter { IfSome result (λ rest. length rest.now < length text.now) }
{
    let rest = behind_byte(text, b'n')?;
    let rest = behind_byte(rest, b'u')?;
    let rest = behind_byte(rest, b'l')?;
    Some(behind_byte(rest, b'l')?)
}

fn behind_true(text: &str) -> Option<&str>
    ensures value { IfSome result (λ rest. IsInFront 0 text.now rest.now) }
    ensures shorter { IfSome result (λ rest. length rest.now < length text.now) }
{
    let rest = behind_byte(text, b't')?;
    let rest = behind_byte(rest, b'r')?;
    let rest = behind_byte(rest, b'u')?;
    Some(behind_byte(rest, b'e')?)
}

fn behind_false(text: &str) -> Option<&str>
    ensures value { IfSome result (λ rest. IsInFront 0 text.now rest.now) }
    ensures shorter { IfSome result (λ rest. length rest.now < length text.now) }
{
    let rest = behind_byte(text, b'f')?;
    let rest = behind_byte(rest, b'a')?;
    let rest = behind_byte(rest, b'l')?;
    let rest = behind_byte(rest, b's')?;
    Some(behind_byte(rest, b'e')?)
}

// The number is guessed and written again to compare.
fn behind_number(text: &str) -> Option<&str>
    ensures value { IfSome result (λ rest. IsInFront 0 text.now rest.now) }
    ensures shorter { IfSome result (λ rest. length rest.now < length text.now) }
{
    let length = number_length(text.as_bytes());
    if length == 0 || !text.is_char_boundary(length) {
        return None;
    }
    let (digits, rest) = text.split_at(length);
    let whole = Whole::new(guessed(digits)?)?;
    if is_spelling(digits, whole.value()) {
        Some(rest)
    } else {
        None
    }
}

// The length of the prefix of digits and minus signs.
fn number_length(bytes: &[u8]) -> usize
    ensures { result ≤ length bytes.now }
{
    let mut rest = bytes;
    'digits: while let Some((byte, behind)) = rest.split_first() {
        if *byte != b'-' && !byte.is_ascii_digit() {
            return bytes.len() - rest.len();
        }
        rest = behind;
    }
    bytes.len()
}

fn guessed(digits: &str) -> Option<i64> {
    match digits.parse() {
        Ok(value) => Some(value),
        Err(_) => None,
    }
}

fn is_spelling(text: &str, value: i64) -> bool
    ensures { IsTrue result → text.now ≡ signed_decimal value }
{
    Buffer::new().format(value).as_bytes() == text.as_bytes()
}

// The text after the first comma, if one is due.
#[inline]
fn behind_comma(text: &str, due: bool) -> Option<&str>
    ensures { IfSome result (λ rest. text.now ≡ comma due ++ rest.now) }
{
    if due {
        behind_byte(text, b',')
    } else {
        Some(text)
    }
}

// The text after this byte, if it is the first.
#[inline]
fn behind_byte(text: &str, byte: u8) -> Option<&str>
    ensures { IfSome result (λ rest. text.now ≡ byte ∷ rest.now) }
{
    if starts(text.as_bytes(), byte) && text.is_char_boundary(1) {
        Some(text.split_at(1).1)
    } else {
        None
    }
}
