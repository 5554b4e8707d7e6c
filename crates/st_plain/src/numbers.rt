ghost use Rattle.std.specs.Option.{SomeIff};
ghost use Rattle.std.specs.Prelude.{◌≡◌, ◌<◌, ◌==◌, true, false, length, option_map, pos, slice_index, IsTrue};
ghost use Rattle.serde_json.specs.Read.{float_of, number_from, number_of};
ghost use Rattle.st_plain.specs.Plain.{IsWhole};
ghost use Rattle.st_plain.specs.Shapes.{whole_integer, whole_number};

use fast_float::Numeral;
use std::marker::Model;

const LARGEST: i64 = 9007199254740991;

/// A whole number from -(2^53 - 1) to 2^53 - 1, which every reader of JSON keeps exactly (RFC 7493,
/// section 2.2). Contracts see it as its integer.
#[derive(Clone, Copy, Debug, PartialEq, Eq)]
pub struct Whole {
    value: i64,
}

impl Model for Whole {
    ghost use Rattle.std.specs.Prelude.{ℤ};
    ghost use Rattle.st_plain.specs.Plain.{IsWhole};

    ghost Value = { ℤ };

    ghost view = { λ w. w.value };

    ghost invariant = { λ w. IsWhole w.value };

    ghost inverse = { λ z. record { value = z } };
}

impl Whole {
    /// The number, if it is in the range.
    pub fn new(value: i64) -> Option<Whole>
        ensures { SomeIff result (IsWhole value) value }
    {
        if -LARGEST <= value && value <= LARGEST {
            Some(Whole { value })
        } else {
            None
        }
    }

    pub fn value(&self) -> i64
        ensures same { result ≡ self.now }
        ensures whole { IsWhole result }
    {
        self.value
    }
}

// The number in a numeral: `None` if it is too large for a float, `Some(None)` if it is not whole.
pub(crate) fn number_in(text: &str) -> Option<Option<Whole>>
    ensures { result ≡ option_map whole_number (number_of text.now) }
{
    let bytes = text.as_bytes();
    if has_minus(bytes) {
        number_below(&Numeral::scan(&bytes[1..]))
    } else {
        number_from(&Numeral::scan(bytes))
    }
}

fn has_minus(bytes: &[u8]) -> bool
    ensures value { result ≡ (slice_index bytes.now 0 == 45) }
    ensures some { IsTrue result → 0 < length bytes.now }
{
    !bytes.is_empty() && bytes[0] == b'-'
}

// The number after a minus sign.
fn number_below(numeral: &Numeral<'_>) -> Option<Option<Whole>>
    ensures { result ≡ option_map whole_number (number_from true numeral.now) }
{
    if let Some(value) = numeral.to_i64(true) {
        if value < 0 {
            return Some(Whole::new(value));
        }
    }
    float(true, numeral)
}

// The number without a sign.
fn number_from(numeral: &Numeral<'_>) -> Option<Option<Whole>>
    ensures { result ≡ option_map whole_number (number_from false numeral.now) }
{
    match numeral.to_u64() {
        Some(value) => Some(whole_from(value)),
        None => float(false, numeral),
    }
}

fn whole_from(value: u64) -> Option<Whole>
    ensures { result ≡ whole_integer (pos value) }
{
    if value <= i64::MAX as u64 {
        Whole::new(value as i64)
    } else {
        None
    }
}

// A float is not whole.
fn float(negative: bool, numeral: &Numeral<'_>) -> Option<Option<Whole>>
    ensures { result ≡ option_map whole_number (float_of negative numeral.now) }
{
    if numeral.to_float::<f64>(negative).is_finite() {
        Some(None)
    } else {
        None
    }
}
