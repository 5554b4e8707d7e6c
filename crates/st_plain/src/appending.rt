ghost use Rattle.std.specs.List.{flat_map};
ghost use Rattle.std.specs.Prelude.{◌≡◌, ◌++◌, OnErr, OnOk, ◌<◌};
ghost use Rattle.std.specs.Str.{IsUtf8};
ghost use Rattle.st_plain.specs.Plain.{canonical, comma as comma_text, escape, quoted, hex_digit, IsWhole, boolean, whole as whole_number};

use crate::numbers::Whole;
use crate::spans::split_span;
use itoa::Buffer;
use std::alloc::AllocError;

pub(crate) fn push_all(out: &mut Vec<u8>, bytes: &[u8]) -> Result<(), AllocError>
    ensures ok { OnOk result (out.new.items ≡ out.old.items ++ bytes.now) }
    ensures err { OnErr result (out.new.items ≡ out.old.items) }
{
    out.extend_from_slice(bytes)
}

// Appends the comma before an element that is not the first.
pub(crate) fn append_comma(out: &mut Vec<u8>, comma: bool) -> Result<(), AllocError>
    ensures { OnOk result (out.new.items ≡ out.old.items ++ comma_text comma) }
{
    if comma { push_all(out, b",") } else { Ok(()) }
}

pub(crate) fn append_bool(out: &mut Vec<u8>, b: bool) -> Result<(), AllocError>
    ensures { OnOk result (out.new.items ≡ out.old.items ++ canonical (boolean b)) }
{
    if b {
        push_all(out, b"true")
    } else {
        push_all(out, b"false")
    }
}

pub(crate) fn append_whole(out: &mut Vec<u8>, whole: Whole) -> Result<(), AllocError>
    ensures text { OnOk result (out.new.items ≡ out.old.items ++ canonical (whole_number whole)) }
    ensures proper { OnOk result (IsWhole whole) }
{
    push_all(out, Buffer::new().format(whole.value()).as_bytes())
}

/// Appends the text as a JSON string: escaped, between quotes.
pub fn append_text(out: &mut Vec<u8>, text: &str) -> Result<(), AllocError>
    ensures text { OnOk result (out.new.items ≡ out.old.items ++ quoted text.now) }
    ensures utf8 { OnOk result (IsUtf8 text.now) }
{
    push_all(out, b"\"")?;
    append_escaped(out, text.as_bytes())?;
    push_all(out, b"\"")
}

/// Appends the inside of a JSON string. The bytes between two escaped ones are copied at once.
pub fn append_escaped(out: &mut Vec<u8>, bytes: &[u8]) -> Result<(), AllocError>
    ensures { OnOk result (out.new.items ≡ out.old.items ++ flat_map escape bytes.now) }
{
    let (span, mut rest) = split_span(bytes);
    append_span(out, span)?;
    while let Some((byte, behind)) = rest.split_first() {
        let (span, after) = split_span(behind);
        append_byte(out, *byte)?;
        append_span(out, span)?;
        rest = after;
    }
    Ok(())
}

// Two escaped bytes are often adjacent.
fn append_span(out: &mut Vec<u8>, span: &[u8]) -> Result<(), AllocError>
    ensures { OnOk result (out.new.items ≡ out.old.items ++ span.now) }
{
    if span.is_empty() {
        Ok(())
    } else {
        push_all(out, span)
    }
}

#[tactic(auto, unfolding(crate::specs::Plain::escape))]
fn append_byte(out: &mut Vec<u8>, byte: u8) -> Result<(), AllocError>
    ensures { OnOk result (out.new.items ≡ out.old.items ++ escape byte) }
{
    match byte {
        b'"' => push_all(out, b"\\\""),
        b'\\' => push_all(out, b"\\\\"),
        0x08 => push_all(out, b"\\b"),
        b'\t' => push_all(out, b"\\t"),
        b'\n' => push_all(out, b"\\n"),
        0x0c => push_all(out, b"\\f"),
        b'\r' => push_all(out, b"\\r"),
        0..=31 => push_all(
            out,
            &[b'\\', b'u', b'0', b'0', hex(byte / 16), hex(byte % 16)],
        ),
        _ => push_all(out, &[byte]),
    }
}

fn hex(digit: u8) -> u8
    requires { digit < 16 }
    ensures { result ≡ hex_digit digit }
{
    if digit < 10 {
        b'0' + digit
    } else {
        b'a' + (digit - 10)
    }
}
