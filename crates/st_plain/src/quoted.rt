ghost use Rattle.std.specs.Prelude.{◌≡◌, ◌≢◌, ◌↔◌, ◌++◌, ◌∷◌, [], ◌<◌, ℕ, List, IfNone, IfSome, IsTrue};
ghost use Rattle.std.specs.Str.{IsUtf8};
ghost use Rattle.st_plain.specs.Plain.{escape, hex_digit, quoted};
ghost use Rattle.st_plain.specs.Names.{is_name};

use crate::spans::split_span;
use crate::values::opened;

/// Whether the canonical text of a name is that of this one.
pub fn is_named(text: &[u8], name: &str) -> bool
    ensures asked { (word : List ℕ) → IsUtf8 word → text.now ≡ quoted word → result ≡ is_name name.now word }
    ensures among { (word : List ℕ) → IsUtf8 word → text.now ≡ quoted word → result ≡ is_name word name.now }
{
    is_quoted(text, name.as_bytes())
}

/// Whether this is the word as a JSON string. The bytes before the first escaped one are compared
/// at once, the rest byte by byte, and nothing is written.
pub fn is_quoted(text: &[u8], word: &[u8]) -> bool
    ensures { IsTrue result ↔ (text.now ≡ quoted word.now) }
{
    let Some(inside) = opened(text, b'"') else {
        return false;
    };
    let (span, others) = split_span(word);
    let Some(mut rest) = strip(inside, span) else {
        return false;
    };
    'bytes: for byte in others {
        let Some(behind) = strip_escaped(rest, *byte) else {
            return false;
        };
        rest = behind;
    }
    is_closing(rest)
}

fn is_closing(text: &[u8]) -> bool
    ensures { IsTrue result ↔ (text.now ≡ 34 ∷ []) }
{
    text.len() == 1 && text[0] == b'"'
}

// The text after this byte in its escaped form, if that is its prefix.
#[tactic(auto, unfolding(crate::specs::Plain::escape))]
pub(crate) fn strip_escaped(text: &[u8], byte: u8) -> Option<&[u8]>
    ensures some { IfSome result (λ behind. text.now ≡ escape byte ++ behind.now) }
    ensures none { IfNone result ((behind : List ℕ) → text.now ≢ escape byte ++ behind) }
{
    match byte {
        b'"' => strip(text, b"\\\""),
        b'\\' => strip(text, b"\\\\"),
        0x08 => strip(text, b"\\b"),
        b'\t' => strip(text, b"\\t"),
        b'\n' => strip(text, b"\\n"),
        0x0c => strip(text, b"\\f"),
        b'\r' => strip(text, b"\\r"),
        0..=31 => strip(
            text,
            &[b'\\', b'u', b'0', b'0', hex(byte / 16), hex(byte % 16)],
        ),
        _ => strip(text, &[byte]),
    }
}

fn hex(digit: u8) -> u8
    requires { digit < 16 }
    ensures { result ≡ hex_digit digit }
{
    if digit < 10 {
        b'0' + digit
    } else {
        b'a' + (digit - 10)
    }
}

fn strip<'a>(text: &'a [u8], front: &[u8]) -> Option<&'a [u8]>
    ensures some { IfSome result (λ behind. text.now ≡ front.now ++ behind.now) }
    ensures none { IfNone result ((behind : List ℕ) → text.now ≢ front.now ++ behind) }
{
    match text.strip_prefix(front) {
        Some(behind) => Some(behind),
        None => None,
    }
}
