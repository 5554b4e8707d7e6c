ghost use Rattle.std.specs.Cow.{cow_slice_items};
ghost use Rattle.std.specs.Prelude.{◌≡◌, true, ◌<◌, length, Err, Ok, None, IfErr, IfOk, IfSome, IsTrue, OnOk, false};
ghost use Rattle.json.specs.Json.{items, members, value};
ghost use Rattle.serde_json.specs.Data.{no_members};
ghost use Rattle.serde_json.specs.Read.{converted, number_of, of_items, of_json, of_members};
ghost use Rattle.st_plain.specs.ReadAgain.{IsReadAgain, value_read};
ghost use Rattle.st_plain.specs.Shapes.{Refuses, json_of};
ghost use Rattle.st_plain.specs.declared.respelling.ReadRefused.TheVariants.{NotJson};
ghost use Rattle.st_plain.specs.inside.Respelled.{IsNoJson, IsNumberWritten, HasNoMark, IsRespelled, ItemsAreRespelled, MembersAreRespelled};

use crate::appending::{append_bool, append_comma, append_text, append_whole, push_all};
use crate::canonical::is_canonical;
use crate::names::is_above;
use crate::numbers::number_in;
use crate::objects::{begin, end, put_in_order};
use json::{Reader, Scratch, Token};
use memchr::memchr;
use std::alloc::{AllocError, AllocFailed, Global};
use std::borrow::CowSlice;
use thiserror::Error;

/// Why bytes are not read as JSON.
#[derive(Clone, Copy, Debug, Drop, Error, PartialEq, Eq)]
pub enum ReadRefused {
    /// The bytes are not a JSON text in UTF-8 (RFC 8259), nest deeper than 127 lists and objects,
    /// or have a number that is too large for a double.
    #[error("not JSON")]
    NotJson,
    /// The bytes are JSON, with a number that has a fraction or an exponent, is `-0`, or is outside
    /// -(2^53 - 1) to 2^53 - 1.
    #[error("a number that is not whole")]
    NotWhole,
    #[error("out of memory")]
    WantOfMemory,
}

impl From<AllocError> for ReadRefused {
    ghost use Rattle.std.specs.Prelude.{◌≡◌};
    ghost use Rattle.st_plain.specs.declared.respelling.ReadRefused.TheVariants.{WantOfMemory};

    ghost from_gives = { λ _ refused. refused ≡ WantOfMemory };

    fn from(_error: AllocError) -> ReadRefused {
        ReadRefused::WantOfMemory
    }
}

impl<T: Drop> From<AllocFailed<T>> for ReadRefused {
    ghost use Rattle.std.specs.Prelude.{◌≡◌};
    ghost use Rattle.st_plain.specs.declared.respelling.ReadRefused.TheVariants.{WantOfMemory};

    ghost from_gives = { λ _ refused. refused ≡ WantOfMemory };

    fn from(_error: AllocFailed<T>) -> ReadRefused {
        ReadRefused::WantOfMemory
    }
}

// How deep lists and objects may nest in the input, as in `serde_json`.
pub(crate) const MAX_DEPTH: usize = 127;

// Written for a number that is not whole: a byte that no UTF-8 has.
const MARK: u8 = 255;

/// The canonical text (RFC 8785) of JSON of any spelling: the bytes themselves if they are canonical
/// already. A member that appears twice has its last value.
///
/// The result is `NotJson` if and only if `serde_json` refuses the bytes, and `NotWhole` if and
/// only if they are JSON with a number that no `Whole` holds or that is written as a float.
pub fn canonical_text(alloc: Global, bytes: &[u8]) -> Result<CowSlice<'_, u8>, ReadRefused>
    ensures value { IfOk result (λ text. json_of bytes.now ≡ Ok (value_read (json_of (cow_slice_items text)))) }
    ensures refusal { IfErr result (Refuses (json_of bytes.now)) }
    ensures again { IfOk result (λ text. IsReadAgain (cow_slice_items text)) }
{
    let Ok(text) = simdutf8::compat::from_utf8(bytes) else {
        return Err(ReadRefused::NotJson);
    };
    if is_canonical(text) {
        return Ok(CowSlice::Borrowed(bytes));
    }
    Ok(CowSlice::Owned(respell_text(alloc, text)?))
}

// The canonical text of a text, from its tokens.
fn respell_text(alloc: Global, text: &str) -> Result<Vec<u8>, ReadRefused>
    ensures value { IfOk result (λ out. json_of text.now ≡ Ok (value_read (json_of out.items))) }
    ensures refusal { IfErr result (Refuses (json_of text.now)) }
    ensures again { IfOk result (λ out. IsReadAgain out.items) }
{
    let mut scratch = Scratch::new(alloc);
    let Ok(mut reader) = Reader::new(text, &mut scratch) else {
        return Err(ReadRefused::WantOfMemory);
    };
    let mut out = Vec::with_capacity(alloc, text.len())?;
    respell(alloc, &mut out, &mut reader, MAX_DEPTH)?;
    if reader.next().is_some() {
        return Err(ReadRefused::NotJson);
    }
    if is_whole(out.as_slice()) {
        Ok(out)
    } else {
        Err(ReadRefused::NotWhole)
    }
}

fn is_whole(text: &[u8]) -> bool
    ensures yes { result ≡ true → HasNoMark text.now }
    ensures no { result ≡ false → HasNoMark text.now → ⊥ }
{
    memchr(MARK, text).is_none()
}

// Appends the canonical text of the next value of a reader of tokens. A number that is not whole is
// written as a mark, since a later member of the same name may replace it. Lists and objects may
// nest `depth` deep.
#[cycle(respell)]
fn respell(
    alloc: Global,
    out: &mut Vec<u8>,
    reader: &mut Reader<'_>,
    depth: usize,
) -> Result<(), ReadRefused>
    ensures next { OnOk result (IsRespelled depth reader.old reader.new out.old.items out.new.items) }
    ensures none { IfErr result (IsNoJson (converted of_json (value depth reader.old) ≡ None)) }
    ensures shorter { OnOk result (length reader.new < length reader.old) }
{
    let Some(token) = reader.next() else {
        return Err(ReadRefused::NotJson);
    };
    match token {
        Token::Null => Ok(push_all(out, b"null")?),
        Token::Bool(b) => Ok(append_bool(out, b)?),
        Token::Number(text) => Ok(respell_number(alloc, out, text)?),
        Token::String(text) => Ok(append_text(out, text)?),
        Token::BeginArray => if depth == 0 {
            Err(ReadRefused::NotJson)
        } else {
            push_all(out, b"[")?;
            respell_items(alloc, out, reader, depth - 1)?;
            Ok(push_all(out, b"]")?)
        },
        Token::BeginObject => if depth == 0 {
            Err(ReadRefused::NotJson)
        } else {
            push_all(out, b"{")?;
            respell_members(alloc, out, reader, depth - 1)?;
            Ok(push_all(out, b"}")?)
        },
        Token::EndObject | Token::EndArray | Token::Key(_) | Token::Bad => Err(
            ReadRefused::NotJson,
        ),
    }
}

// The same for a number's text.
fn respell_number(alloc: Global, out: &mut Vec<u8>, text: &str) -> Result<(), ReadRefused>
    ensures number { OnOk result (IsNumberWritten text.now out.old.items out.new.items) }
    ensures none { IfErr result (IsNoJson (number_of text.now ≡ None)) }
{
    match number_in(text) {
        Some(Some(whole)) => Ok(append_whole(out, whole)?),
        Some(None) => Ok(push_all(out, &[MARK])?),
        None => Err(ReadRefused::NotJson),
    }
}

#[cycle(respell)]
fn respell_items(
    alloc: Global,
    out: &mut Vec<u8>,
    reader: &mut Reader<'_>,
    depth: usize,
) -> Result<(), ReadRefused>
    ensures items { OnOk result (ItemsAreRespelled depth reader.old reader.new out.old.items out.new.items) }
    ensures none { IfErr result (IsNoJson (converted of_items (items (value depth) (length reader.old) reader.old) ≡ None)) }
    ensures shorter { OnOk result (length reader.new < length reader.old) }
{
    let mut comma = false;
    'items: while !reader.take_end_array() {
        append_comma(out, comma)?;
        respell(alloc, out, reader, depth)?;
        comma = true;
    }
    Ok(())
}

// Members are written in the order of the input, and sorted at the end if their names do not
// ascend.
#[cycle(respell)]
fn respell_members<'a>(
    alloc: Global,
    out: &mut Vec<u8>,
    reader: &mut Reader<'a>,
    depth: usize,
) -> Result<(), ReadRefused>
    ensures members { OnOk result (MembersAreRespelled depth reader.old reader.new out.old.items out.new.items) }
    ensures none { IfErr result (IsNoJson (converted (λ ms. of_members ms no_members) (members (value depth) (length reader.old) reader.old) ≡ None)) }
    ensures shorter { OnOk result (length reader.new < length reader.old) }
{
    let from = out.len();
    let mut places = Vec::new(alloc);
    let mut last: Option<&'a str> = None;
    let mut up = true;
    'members: loop {
        let Ok(key) = reader.next_key() else {
            return Err(ReadRefused::NotJson);
        };
        let Some(key) = key else {
            if !up {
                put_in_order(alloc, out, from, places)?;
            }
            return Ok(());
        };
        let above = is_above(last, key);
        let begun = begin(out, last.is_some(), key)?;
        respell(alloc, out, reader, depth)?;
        end(out, &mut places, begun)?;
        last = Some(key);
        up = up & above;
    }
}
