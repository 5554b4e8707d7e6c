ghost use Rattle.std.specs.Prelude.{◌≡◌, ◌∷◌, false, IfNone, IfSome, ◌≤◌, length};
ghost use Rattle.st_plain.specs.ReadAgain.{behind_first, starts, Splits, follows};
ghost use Rattle.st_plain.specs.inside.Walk.{outside, behind_brackets, behind_scalar, behind_text, behind_value};

use crate::spans::next_mark;

/// The text after this bracket, if it is the first byte.
pub fn opened(text: &[u8], bracket: u8) -> Option<&[u8]>
    ensures none { IfNone result (starts bracket text.now ≡ false) }
    ensures some { IfSome result (λ left. text.now ≡ bracket ∷ left.now) }
{
    match text.split_first() {
        Some((byte, left)) if *byte == bracket => Some(left),
        _ => None,
    }
}

/// Whether this is the first byte.
pub fn starts(text: &[u8], byte: u8) -> bool
    ensures { result ≡ starts byte text.now }
{
    match text.split_first() {
        Some((first, _)) => *first == byte,
        None => false,
    }
}

/// The text without its first byte.
pub fn behind_first(text: &[u8]) -> &[u8]
    ensures { result.now ≡ behind_first text.now }
{
    match text.split_first() {
        Some((_, behind)) => behind,
        None => text,
    }
}

/// The first canonical value, and the text after it.
pub fn split_value(text: &[u8]) -> (&[u8], &[u8])
    ensures { Splits text.now result.0.now result.1.now }
{
    let rest = behind_value(text);
    let length = text.len() - rest.len();
    (&text[..length], rest)
}

#[tactic(auto, unfolding(crate::specs::inside::Walk::behind_value))]
fn behind_value(text: &[u8]) -> &[u8]
    ensures value { result.now ≡ behind_value text.now }
    ensures shorter { length result.now ≤ length text.now }
{
    let Some((byte, behind)) = text.split_first() else {
        return text;
    };
    match *byte {
        b'"' => behind_text(behind),
        b'[' | b'{' => behind_brackets(behind),
        _ => behind_scalar(text),
    }
}

// The text after the closing quotation mark, from after the opening one. The byte after a backslash
// does not close it.
#[tactic(auto, unfolding(crate::specs::inside::Walk::behind_text))]
fn behind_text(bytes: &[u8]) -> &[u8]
    ensures value { result.now ≡ behind_text false bytes.now }
    ensures shorter { length result.now ≤ length bytes.now }
{
    let mut rest = bytes;
    'marks: while let Some((mark, behind)) = next_mark(rest) {
        if mark == b'"' {
            return behind;
        }
        rest = behind_first(behind);
    }
    &[]
}

// The text after the bracket that closes the one before these bytes.
#[tactic(auto, using(crate::proofs::WalkLemmas::brackets_behind_text), unfolding(crate::specs::inside::Walk::behind_brackets))]
fn behind_brackets(bytes: &[u8]) -> &[u8]
    ensures value { result.now ≡ behind_brackets 0 outside bytes.now }
    ensures shorter { length result.now ≤ length bytes.now }
{
    let mut rest = bytes;
    let mut depth: usize = 0;
    'bytes: while let Some((byte, behind)) = rest.split_first() {
        match *byte {
            b'"' => rest = behind_text(behind),
            b'[' | b'{' => {
                depth += 1;
                rest = behind;
            }
            b']' | b'}' => {
                if depth == 0 {
                    return behind;
                }
                depth -= 1;
                rest = behind;
            }
            _ => rest = behind,
        }
    }
    rest
}

// The text from the first byte on that may follow a value.
#[tactic(auto, unfolding(crate::specs::inside::Walk::behind_scalar))]
fn behind_scalar(bytes: &[u8]) -> &[u8]
    ensures value { result.now ≡ behind_scalar bytes.now }
    ensures shorter { length result.now ≤ length bytes.now }
{
    let mut rest = bytes;
    'bytes: while let Some((byte, behind)) = rest.split_first() {
        if can_follow(*byte) {
            return rest;
        }
        rest = behind;
    }
    rest
}

fn can_follow(byte: u8) -> bool
    ensures { result ≡ follows byte }
{
    byte == b',' || byte == b':' || byte == b']' || byte == b'}'
}
