ghost use Rattle.std.specs.Prelude.{◌≡◌, ◌+◌, ◌*◌, ◌<◌, ◌≤◌, ◌++◌, ℕ, length, slice_index};
ghost use Rattle.st_lms.specs.OneTime.{checked, checksum, chains, greatest_digit, width, one_time_number};
ghost use Rattle.st_lms.specs.Strings.{coef, u32str, value_at};

use crate::parameters::OneTimeType;
use crate::strings::{coef, put, u16str, u32str};

/// A hash and its checksum.
pub(crate) type Digits = [u8; 34];

fn checksum(hash: &[u8; 32], kind: OneTimeType) -> u16
    ensures { result ≡ checksum (one_time_number kind) hash.now }
{
    let parameters = kind.parameters();
    let count = (256 / parameters.width) as u16;
    let mut sum = 0u16;
    'digits: for i in 0..count {
        sum += (parameters.greatest_digit - coef(hash, i, kind)) as u16;
    }
    sum << parameters.shift
}

/// The string whose digits are signed.
pub(crate) fn checked(hash: &[u8; 32], kind: OneTimeType) -> Digits
    ensures { result ≡ checked (one_time_number kind) hash.now }
{
    let mut digits = [0; 34];
    put(&mut digits, 0, hash);
    put(&mut digits, 32, &u16str(checksum(hash, kind)));
    digits
}

// The starts and the ends of a key's chains. Place 0 of a chain is the input of its secret element,
// place 1 the element, and the value of a digit is at the place after the digit.

/// A place in each chain. A key has at most 265 chains.
pub(crate) type Places = [u16; 265];

/// A value of each chain, in a row.
pub(crate) type Values = [u8; 8480];

/// The common prefix of the steps of all chains of a key.
pub(crate) fn head(id: &[u8; 16], q: u32) -> [u8; 20]
    ensures { result ≡ id.now ++ u32str q }
{
    let mut head = [0; 20];
    put(&mut head, 0, id);
    put(&mut head, 16, &u32str(q));
    head
}

/// The places of the values of these digits.
pub(crate) fn digit_places(kind: OneTimeType, digits: &Digits) -> Places
    ensures { (i : ℕ) → i < chains (one_time_number kind)
        → slice_index result i ≡ coef digits.now i (width (one_time_number kind)) + 1 }
{
    let mut places = [0u16; 265];
    'digits: for i in 0..kind.parameters().chains {
        places[i as usize] = coef(digits, i, kind) as u16 + 1;
    }
    places
}

/// The ends of chains.
pub(crate) fn last_places(kind: OneTimeType) -> Places
    ensures { (i : ℕ) → i < 265
        → slice_index result i ≡ greatest_digit (one_time_number kind) + 1 }
{
    [kind.parameters().greatest_digit as u16 + 1; 265]
}

fn blank() -> Values
    ensures { length result ≡ 8480 }
{
    [0; 8480]
}

/// A row whose first values are all this one.
pub(crate) fn repeated(value: &[u8; 32], count: u16) -> Values
    requires { count ≤ 265 }
    ensures long { length result ≡ 8480 }
    ensures values { (i : ℕ) → i < count → value_at result i ≡ value.now }
{
    let mut row = blank();
    'values: for i in 0..count {
        put(&mut row, 32 * i as usize, value);
    }
    row
}
