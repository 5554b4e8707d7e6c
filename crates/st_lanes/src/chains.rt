ghost use Rattle.std.specs.Prelude.{◌≡◌, ℕ, ◌<◌, ◌++◌, ◌∷◌, List, slice_index, ◌+◌, ◌-◌, ◌*◌, ◌%◌, ◌^◌, ◌≤◌, length};
ghost use Rattle.std.specs.Int.{to_be_bytes, w16};
ghost use Rattle.sha2.specs.Sha256.{digest_bytes, sha256};
ghost use Rattle.st_lanes.specs.Chains.{end_of, steps, value_at};
ghost use Rattle.st_lanes.specs.inside.Lanes.{Has, Moves, lane, AreWords, IsHead, joined, link_words};

use crate::block::{compress, initial_hash};
use crate::rows::{heads, put_values, values};
use crate::words::{add, and, shift_left, shift_right};
use std::simd::u32x8;

// A step of a chain in each lane, from words to words.

#[inline(always)]
fn joined(x: u32x8, y: u32x8) -> u32x8
    ensures { (k : ℕ) → k < 8 → slice_index result k ≡ joined (slice_index x k) (slice_index y k) }
{
    add(shift_left(x, 8), shift_right(y, 24))
}

#[inline(always)]
fn link(head: &[u32x8; 6], value: &[u32x8; 8], j: u32x8) -> [u32x8; 16]
    ensures { (k : ℕ) → k < 8
        → lane k result ≡ link_words (lane k head.now) (lane k value.now) (slice_index j k) }
{
    let [a, b, c, d, e, f, g, h] = *value;
    [
        head[0],
        head[1],
        head[2],
        head[3],
        head[4],
        add(add(head[5], shift_left(j, 8)), shift_right(a, 24)),
        joined(a, b),
        joined(b, c),
        joined(c, d),
        joined(d, e),
        joined(e, f),
        joined(f, g),
        joined(g, h),
        add(shift_left(h, 8), u32x8::splat(0x80)),
        u32x8::splat(0),
        u32x8::splat(440),
    ]
}

/// The digests, as words, of the messages of a head of 22 bytes, one byte and a digest.
#[inline(always)]
pub(crate) fn step(head: &[u32x8; 6], value: &[u32x8; 8], j: u32x8) -> [u32x8; 8]
    ensures digest { (k : ℕ) (p : List ℕ) → k < 8 → IsHead (lane k head.now) p → AreWords (lane k value.now)
        → slice_index j k < 256
        → digest_bytes (lane k result) 8 ≡ sha256 (p ++ slice_index j k ∷ digest_bytes (lane k value.now) 8) }
    ensures words { (k : ℕ) → k < 8 → AreWords (lane k result) }
{
    compress(&initial_hash(), &link(head, value, j))
}

// Chains, eight at a time.

// The places of the lanes' chains in a table.
#[inline(always)]
#[tactic(auto, using(crate::proofs::Lanes::filled_none, crate::proofs::Lanes::filled_more))]
fn pick(table: &[u16; 265], numbers: &[u32; 8]) -> [u32; 8]
    requires { (k : ℕ) → k < 8 → slice_index numbers.now k < 265 }
    ensures { (k : ℕ) → k < 8
        → slice_index result k ≡ slice_index table.now (slice_index numbers.now k) }
{
    let mut picked = [0u32; 8];
    'lanes: for k in 0..8 {
        picked[k] = table[numbers[k] as usize] as u32;
    }
    picked
}

// The steps that chain `i` has left.
#[inline(always)]
fn steps_left(places: &[u16; 265], to: &[u16; 265], i: usize) -> u16
    requires { i < 265 }
    ensures { result ≡ slice_index to.now i - slice_index places.now i }
{
    to[i].saturating_sub(places[i])
}

// The lane whose chain has the fewest steps left.
#[inline(always)]
fn shortest(places: &[u16; 265], to: &[u16; 265], numbers: &[u32; 8]) -> usize
    requires { (k : ℕ) → k < 8 → slice_index numbers.now k < 265 }
    ensures lane { result < 8 }
    ensures shortest { (k : ℕ) → k < 8
        → slice_index to.now (slice_index numbers.now result) - slice_index places.now (slice_index numbers.now result)
        ≤ slice_index to.now (slice_index numbers.now k) - slice_index places.now (slice_index numbers.now k) }
{
    let mut shortest = 0;
    'lanes: for k in 0..8 {
        let steps = steps_left(places, to, numbers[k] as usize);
        if steps == 0 {
            return k;
        }
        if steps < steps_left(places, to, numbers[shortest] as usize) {
            shortest = k;
        }
    }
    shortest
}

// The bytes of the steps after `done` of them.
#[inline(always)]
fn bytes_after(from: u32x8, done: u32) -> u32x8
    ensures { (k : ℕ) → k < 8 → slice_index result k ≡ (slice_index from k + done + 255) % 256 }
{
    let places = add(from, u32x8::splat(done));
    and(add(places, u32x8::splat(255)), u32x8::splat(255))
}

// Moves the places of the lanes' chains.
#[inline(always)]
fn move_places(places: &mut [u16; 265], numbers: &[u32; 8], first: &[u32; 8], count: u16)
    requires numbers { (k : ℕ) → k < 8 → slice_index numbers.now k < 265 }
    requires first { (k : ℕ) → k < 8
        → slice_index first.now k ≡ slice_index places.old (slice_index numbers.now k) }
    requires fits { (k : ℕ) → k < 8 → slice_index first.now k + count < 2 ^ 16 }
    ensures { (i : ℕ) → Moves numbers.now 8 count (slice_index places.old i) (slice_index places.new i) i }
{
    'lanes: for k in 0..8 {
        places[numbers[k] as usize] = first[k] as u16 + count;
    }
}

// Takes `count` steps with each of the lanes' chains. The row has the values of all chains.
fn advance(
    row: &mut [u8; 8480],
    places: &mut [u16; 265],
    head: &[u8; 20],
    numbers: &[u32; 8],
    count: u16,
)
    requires numbers { (k : ℕ) → k < 8 → slice_index numbers.now k < 265 }
    requires fits { (k : ℕ) → k < 8
        → slice_index places.old (slice_index numbers.now k) + count < 2 ^ 16 }
    ensures places { (i : ℕ) → Moves numbers.now 8 count (slice_index places.old i) (slice_index places.new i) i }
    ensures values { (i : ℕ) → value_at row.new i ≡ steps (head.now ++ to_be_bytes w16 i) (slice_index places.old i)
        (slice_index places.new i - slice_index places.old i) (value_at row.old i) }
{
    let heads = heads(head, numbers);
    let first = pick(places, numbers);
    let mut value = values(row, numbers);
    'steps: for done in 0..count {
        let bytes = bytes_after(u32x8::from_array(first), done as u32);
        value = step(&heads, &value, bytes);
    }
    put_values(row, numbers, &value);
    move_places(places, numbers, &first, count);
}

// All numbers of chains in order.
#[tactic(auto, using(crate::proofs::Lanes::filled_none, crate::proofs::Lanes::filled_more))]
fn all_numbers() -> [u16; 265]
    ensures long { length result ≡ 265 }
    ensures numbers { (i : ℕ) → i < 265 → slice_index result i ≡ i }
{
    let mut numbers = [0u16; 265];
    'numbers: for i in 0..265u16 {
        numbers[i as usize] = i;
    }
    numbers
}

// The numbers of the first chains, those with few steps first.
fn by_steps(from: &[u16; 265], to: &[u16; 265], count: usize) -> [u16; 265]
    requires { count ≤ 265 }
    ensures long { length result ≡ 265 }
    ensures all { (i : ℕ) → i < count → Has result count i }
    ensures chains { (k : ℕ) → k < count → slice_index result k < count }
{
    let mut numbers = all_numbers();
    numbers[..count].sort_unstable_by_key(|i| {
        let i = *i as usize % 265;
        to[i].saturating_sub(from[i])
    });
    numbers
}

// The eight numbers before place `end`. If there are fewer, the first one fills the other lanes.
#[inline(always)]
#[tactic(auto, using(crate::proofs::Lanes::filled_none, crate::proofs::Lanes::filled_more))]
fn eight_before(order: &[u16], end: usize) -> [u32; 8]
    requires some { 0 < end }
    requires fits { end ≤ length order.now }
    ensures { (k : ℕ) → k < 8 → slice_index result k ≡ slice_index order.now (end + k - 8) }
{
    let mut numbers = [0u32; 8];
    'lanes: for k in 0..8 {
        numbers[k] = order[(end + k).saturating_sub(8)] as u32;
    }
    numbers
}

// A row that begins with the first values of another.
fn copied(starts: &[u8], count: usize) -> [u8; 8480]
    requires count { count ≤ 265 }
    requires starts { 32 * count ≤ length starts.now }
    ensures long { length result ≡ 8480 }
    ensures values { (i : ℕ) → i < count → value_at result i ≡ value_at starts.now i }
{
    let mut row = [0; 8480];
    row[..32 * count].copy_from_slice(&starts[..32 * count]);
    row
}

/// The ends of the first `count` chains, in a row. Chain `i` begins at place `from[i]` with value
/// `i` of the row `starts`, and ends at place `to[i]`.
pub fn walk(
    head: &[u8; 20],
    from: &[u16; 265],
    to: &[u16; 265],
    starts: &[u8],
    count: usize,
) -> [u8; 8480]
    requires count { count ≤ 265 }
    requires starts { 32 * count ≤ length starts.now }
    ensures long { length result ≡ 8480 }
    ensures ends { (i : ℕ) → i < count
        → value_at result i ≡ end_of head.now from.now to.now starts.now i }
{
    let mut order = by_steps(from, to, count);
    let mut places = *from;
    let mut row = copied(starts, count);
    // The lanes have the last eight of the chains that go on. The one that ends first makes room
    // for the longest that waits.
    'chains: for ended in 0..count {
        let left = count - ended;
        let numbers = eight_before(&order, left);
        let lane = shortest(&places, to, &numbers);
        let steps = steps_left(&places, to, numbers[lane] as usize);
        if steps > 0 {
            advance(&mut row, &mut places, head, &numbers, steps);
        }
        order[(left + lane).saturating_sub(8)] = order[left - 1];
    }
    row
}
