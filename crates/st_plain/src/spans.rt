ghost use Rattle.std.specs.Bool.{OnTrue};
ghost use Rattle.std.specs.List.{flat_map};
ghost use Rattle.std.specs.Prelude.{◌≡◌, map, ◌≤◌, [], false, drop, length, IfNone, IfSome, Some, ◌+◌, ◌++◌, ◌<◌};
ghost use Rattle.std.specs.Simd.Lanes.{mask_l};
ghost use Rattle.json.specs.Run.{is_stop, is_plain};
ghost use Rattle.json.specs.Written.{PlainBetween};
ghost use Rattle.memchr.specs.Find.{is_byte2, IsFirstByte};
ghost use Rattle.st_plain.specs.Plain.{escape};
ghost use Rattle.st_plain.specs.inside.Walk.{IsNextMark, behind_text};

use memchr::memchr2;
use std::simd::prelude::*;

// Sixteen bytes of a text at a time.

// A bit for each quotation mark or backslash.
pub(crate) fn marks_of_16(step: u8x16) -> u64
    ensures { result ≡ mask_l (map (is_byte2 34 92) step) }
{
    (step.simd_eq(u8x16::splat(b'"')) | step.simd_eq(u8x16::splat(b'\\'))).to_bitmask()
}

// A bit for each byte that a text escapes.
pub(crate) fn stops_of_16(step: u8x16) -> u64
    ensures { result ≡ mask_l (map is_stop step) }
{
    (step.simd_eq(u8x16::splat(b'"'))
        | step.simd_eq(u8x16::splat(b'\\'))
        | step.simd_lt(u8x16::splat(0x20))).to_bitmask()
}

// Names and most texts are short, so this many steps of sixteen bytes are tried before a longer
// search starts.
const NEAR: usize = 4;

// The first quotation mark or backslash, and the bytes after it.
pub(crate) fn next_mark(bytes: &[u8]) -> Option<(u8, &[u8])>
    ensures some { IfSome result (λ found. IsNextMark bytes.now found.0 found.1.now) }
    ensures none { IfNone result (behind_text false bytes.now ≡ []) }
{
    let mut rest = bytes;
    let mut steps = NEAR;
    'steps: while steps > 0 && rest.len() >= 16 {
        if let Some(at) = near_mark(rest) {
            return Some(mark_at(rest, at));
        }
        rest = &rest[16..];
        steps -= 1;
    }
    match memchr2(b'"', b'\\', rest) {
        Some(at) => Some(mark_at(rest, at)),
        None => None,
    }
}

fn mark_at(bytes: &[u8], at: usize) -> (u8, &[u8])
    requires { IsFirstByte (is_byte2 34 92) bytes.now (Some at) }
    ensures { IsNextMark bytes.now result.0 result.1.now }
{
    (bytes[at], &bytes[at + 1..])
}

// The place of the first among the next sixteen bytes.
fn near_mark(bytes: &[u8]) -> Option<usize>
    requires { 16 ≤ length bytes.now }
    ensures some { IfSome result (λ at. IsFirstByte (is_byte2 34 92) bytes.now (Some at)) }
    ensures none { IfNone result (behind_text false bytes.now ≡ behind_text false (drop 16 bytes.now)) }
{
    let marks = marks_of_16(u8x16::from_slice(bytes));
    if marks == 0 {
        None
    } else {
        Some(marks.trailing_zeros() as usize)
    }
}

/// The bytes before the first escaped one, and those from it on.
pub fn split_span(bytes: &[u8]) -> (&[u8], &[u8])
    ensures escaped { flat_map escape bytes.now ≡ result.0.now ++ flat_map escape result.1.now }
    ensures shorter { length result.1.now ≤ length bytes.now }
{
    let at = span_length(bytes);
    (&bytes[..at], &bytes[at..])
}

// How many bytes precede the first escaped one. Each step looks at sixteen; the last step may look
// at some again.
pub(crate) fn span_length(bytes: &[u8]) -> usize
    ensures within { result ≤ length bytes.now }
    ensures plain { PlainBetween bytes.now 0 result }
{
    if !bytes.is_empty() && !is_unescaped(bytes[0]) {
        return 0;
    }
    if bytes.len() < 16 {
        return short_span(bytes);
    }
    let at = long_span(bytes);
    if bytes.len() - at < 16 && are_unescaped::<16>(bytes, bytes.len() - 16) {
        bytes.len()
    } else {
        span_from(bytes, at)
    }
}

// The same for fewer than sixteen: eight in one step, if there are that many.
fn short_span(bytes: &[u8]) -> usize
    requires { length bytes.now < 16 }
    ensures within { result ≤ length bytes.now }
    ensures plain { PlainBetween bytes.now 0 result }
{
    if bytes.len() < 8 || !are_unescaped::<8>(bytes, 0) {
        return span_from(bytes, 0);
    }
    if are_unescaped::<8>(bytes, bytes.len() - 8) {
        bytes.len()
    } else {
        span_from(bytes, 8)
    }
}

// How many bytes precede the first escaped one, in whole steps.
fn long_span(bytes: &[u8]) -> usize
    ensures within { result ≤ length bytes.now }
    ensures plain { PlainBetween bytes.now 0 result }
{
    let mut at = 0;
    while bytes.len() - at >= 16 {
        let span = near_span(bytes, at);
        at += span;
        if span < 16 {
            return at;
        }
    }
    at
}

// How many of the next sixteen precede the first escaped one.
fn near_span(bytes: &[u8], at: usize) -> usize
    requires { at + 16 ≤ length bytes.now }
    ensures few { result ≤ 16 }
    ensures plain { PlainBetween bytes.now at (at + result) }
{
    let stops = stops_of_16(u8x16::from_slice(&bytes[at..]));
    if stops == 0 {
        16
    } else {
        stops.trailing_zeros() as usize
    }
}

// The place of the first escaped byte, or the end, if there is none before this place.
fn span_from(bytes: &[u8], start: usize) -> usize
    requires within { start ≤ length bytes.now }
    requires plain { PlainBetween bytes.now 0 start }
    ensures within { result ≤ length bytes.now }
    ensures plain { PlainBetween bytes.now 0 result }
{
    let mut at = start;
    while at < bytes.len() && is_unescaped(bytes[at]) {
        at += 1;
    }
    at
}

fn are_unescaped<const N: usize>(bytes: &[u8], at: usize) -> bool
    requires few { N ≤ 64 }
    requires within { at + N ≤ length bytes.now }
    ensures { OnTrue result (PlainBetween bytes.now at (at + N)) }
{
    let step = Simd::<u8, N>::from_slice(&bytes[at..]);
    (step.simd_eq(Simd::splat(b'"'))
        | step.simd_eq(Simd::splat(b'\\'))
        | step.simd_lt(Simd::splat(0x20))).to_bitmask()
        == 0
}

fn is_unescaped(byte: u8) -> bool
    ensures { result ≡ is_plain byte }
{
    byte != b'"' && byte != b'\\' && byte >= 0x20
}
