ghost use Rattle.std.specs.Fmt.{decimal};
ghost use Rattle.std.specs.Option.{option_copied};
ghost use Rattle.std.specs.Prelude.{◌≡◌, IfNone, ◌<◌, ◌==◌, ◌++◌, ◌∷◌, length, position, option_map, IfSome, ◌≢◌, ◌≤◌, ◌^◌, ◌↔◌, ℕ, Some, IsTrue, IfOk, OnOk, codes};
ghost use Rattle.st_base.specs.Texts.{reply, first_word, other_words, HasNo, cut_at, number_of};

use crate::bytes::Bytes;
use crate::errors::WantOfMemory;
use itoa::Buffer;
use memchr::memchr;
use std::alloc::Global;

/// The bytes before the first separator, or all of the text, and the bytes after the separator, if
/// any.
pub fn cut_word(text: &[u8], separator: u8) -> (&[u8], Option<&[u8]>)
    ensures first { result.0.now ≡ first_word separator text.now }
    ensures others { option_copied result.1 ≡ other_words separator text.now }
    ensures whole { IfNone result.1 (result.0.now ≡ text.now) }
{
    match cut_at(text, separator) {
        Some((word, others)) => (word, Some(others)),
        None => (text, None),
    }
}

/// The bytes before the first separator, and all bytes after it; `None` if and only if there is no
/// separator.
pub fn cut_at(text: &[u8], separator: u8) -> Option<(&[u8], &[u8])>
    ensures value { option_map (λ cut. (cut.0.now, cut.1.now)) result ≡ cut_at separator text.now }
    ensures whole { IfSome result (λ cut. text.now ≡ cut.0.now ++ separator ∷ cut.1.now) }
    ensures first { IfSome result (λ cut. HasNo separator cut.0.now) }
    ensures none { IfNone result (HasNo separator text.now) }
{
    match index_of(text, separator) {
        Some(at) => Some((&text[..at], &text[at + 1..])),
        None => None,
    }
}

fn index_of(text: &[u8], separator: u8) -> Option<usize>
    ensures first { result ≡ position (λ byte. byte == separator) text.now }
    ensures within { IfSome result (λ at. at < length text.now) }
{
    memchr(separator, text)
}

/// The number with this decimal text, if it is at most `most`.
///
/// `None` if and only if there is no such number: a sign, a leading zero except in `0` itself, and
/// any byte that is not a digit are refused.
pub fn read_number(text: &[u8], most: u32) -> Option<u32>
    ensures value { result ≡ number_of most text.now }
    ensures spelled { IfSome result (λ number. (number ≤ most) × (text.now ≡ decimal number)) }
    ensures no_spelling { IfNone result ((number : ℕ) → number ≤ most → text.now ≢ decimal number) }
{
    let Some(number) = parse(text) else {
        return None;
    };
    if number > most {
        return None;
    }
    if is_spelling(text, number) {
        Some(number)
    } else {
        None
    }
}

// The number, by a parser that also accepts other decimal spellings.
fn parse(text: &[u8]) -> Option<u32>
    ensures { (number : ℕ) → number < 2 ^ 32 → text.now ≡ decimal number → result ≡ Some number }
{
    match str::from_utf8(text) {
        Ok(text) => match text.parse() {
            Ok(number) => Some(number),
            Err(_) => None,
        },
        Err(_) => None,
    }
}

fn is_spelling(text: &[u8], number: u32) -> bool
    ensures { IsTrue result ↔ (text.now ≡ decimal number) }
{
    Buffer::new().format(number).as_bytes() == text
}

/// A reply: a word, the rest, and the line end. It is allocated once.
pub fn reply(alloc: Global, word: &str, rest: &[u8]) -> Result<Bytes, WantOfMemory>
    ensures { IfOk result (λ text. text ≡ reply word.now rest.now) }
{
    let length = word.len().saturating_add(rest.len()).saturating_add(1);
    let mut text = Vec::with_capacity(alloc, length)?;
    text.extend_from_slice(word.as_bytes())?;
    text.extend_from_slice(rest)?;
    text.push(b'\n')?;
    Ok(Bytes::from_vec(text))
}

/// Appends a space and the word to the text. If it runs out of memory, the text may end with the
/// space.
pub fn push_word(text: &mut Vec<u8>, word: &[u8]) -> Result<(), WantOfMemory>
    ensures { OnOk result (text.new.items ≡ text.old.items ++ (codes " " ++ word.now)) }
{
    text.push(b' ')?;
    text.extend_from_slice(word)?;
    Ok(())
}
