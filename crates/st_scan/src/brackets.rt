ghost use Rattle.std.specs.Prelude.{◌≡◌, ◌+◌, ◌≤◌, drop, length};
ghost use Rattle.std.specs.List.{count_by};
ghost use Rattle.st_plain.specs.Plain.{canonical};
ghost use Rattle.st_plain.specs.Measures.{depth_of, opening_count};
ghost use Rattle.st_plain.specs.ReadAgain.{opens};
ghost use Rattle.st_scan.specs.Standing.{IsText, value_of};

use std::simd::prelude::*;

// A value nests no deeper than the number of opening brackets and braces in its text.

// An upper bound of its depth, by the brackets in its text. Those inside its strings count too.
pub(crate) fn depth_bound(text: &[u8]) -> usize
    requires { IsText text.now }
    ensures exact { result ≡ opening_count (canonical (value_of text.now)) + 1 }
    ensures depth { depth_of (value_of text.now) ≤ result }
{
    opening_count(text).saturating_add(1)
}

fn opening_count(text: &[u8]) -> usize
    ensures { result ≡ opening_count text.now }
{
    let mut rest = text;
    let mut count: usize = 0;
    'steps: while rest.len() >= 16 {
        count += near_count(rest);
        rest = &rest[16..];
    }
    count + short_count(rest)
}

fn near_count(bytes: &[u8]) -> usize
    requires { 16 ≤ length bytes.now }
    ensures value { result + opening_count (drop 16 bytes.now) ≡ opening_count bytes.now }
    ensures within { result ≤ 16 }
{
    openings_of_16(u8x16::from_slice(bytes))
}

// How many are opening brackets or braces.
fn openings_of_16(step: u8x16) -> usize
    ensures { result ≡ count_by opens step }
{
    let marks = (step.simd_eq(u8x16::splat(b'[')) | step.simd_eq(u8x16::splat(b'{'))).to_bitmask();
    marks.count_ones() as usize
}

fn short_count(text: &[u8]) -> usize
    ensures value { result ≡ opening_count text.now }
    ensures within { result ≤ length text.now }
{
    let mut count: usize = 0;
    for byte in text {
        if opens(*byte) {
            count += 1;
        }
    }
    count
}

fn opens(byte: u8) -> bool
    ensures { result ≡ opens byte }
{
    byte == b'[' || byte == b'{'
}
