ghost use Rattle.std.specs.Prelude.{◌++◌, ◌≡◌, ◌+◌, ◌<◌, ◌≤◌, ◌*◌, length, take};
ghost use Rattle.sha2.specs.Hashers.{Holds256};
ghost use Rattle.st_lms.specs.OneTime.{width, one_time_number};
ghost use Rattle.st_lms.specs.Strings.{u32str, u16str, str_to_u32, coef, value_at};

use crate::parameters::OneTimeType;
use sha2::{Digest, Sha256};

// Separates the hashes of public keys from other hashes (RFC 8554, section 7.1).
pub(crate) const D_PBLC: u16 = 0x8080;

pub(crate) const D_MESG: u16 = 0x8181;

pub(crate) const D_LEAF: u16 = 0x8282;

pub(crate) const D_INTR: u16 = 0x8383;

/// A hasher of a message that starts with an identifier, the number of a key or a node, and the
/// kind of message.
pub(crate) fn hasher(id: &[u8; 16], number: u32, kind: u16) -> Sha256
    ensures { Holds256 result (id.now ++ u32str number ++ u16str kind) }
{
    let mut hasher = Sha256::new();
    hasher.update(id.as_slice());
    hasher.update(u32str(number));
    hasher.update(u16str(kind));
    hasher
}

/// These bytes as an array.
#[inline(always)]
pub(crate) fn copied<const N: usize>(bytes: &[u8]) -> [u8; N]
    requires { length bytes.now ≡ N }
    ensures { result ≡ bytes.now }
{
    let mut copied = [0u8; N];
    copied.copy_from_slice(bytes);
    copied
}

/// Writes these bytes over `row` from place `at` on.
#[inline(always)]
pub(crate) fn put(row: &mut [u8], at: usize, bytes: &[u8])
    requires { at + length bytes.now ≤ length row.old }
    ensures { take (at + length bytes.now) row.new ≡ take at row.old ++ bytes.now }
{
    row[at..at + bytes.len()].copy_from_slice(bytes);
}

/// A number as 4 bytes, big-endian (RFC 8554, section 3.1.1).
#[tactic(auto, unfolding(crate::specs::Strings::u32str))]
pub(crate) fn u32str(n: u32) -> [u8; 4]
    ensures { result ≡ u32str n }
{
    n.to_be_bytes()
}

/// A number as 2 bytes, big-endian.
#[tactic(auto, unfolding(crate::specs::Strings::u16str))]
pub(crate) fn u16str(n: u16) -> [u8; 2]
    ensures { result ≡ u16str n }
{
    n.to_be_bytes()
}

/// The number in 4 bytes, big-endian.
#[tactic(auto, unfolding(crate::specs::Strings::str_to_u32))]
pub(crate) fn str_to_u32(bytes: &[u8]) -> u32
    requires { length bytes.now ≡ 4 }
    ensures { result ≡ str_to_u32 bytes.now }
{
    u32::from_be_bytes(copied(bytes))
}

/// String `i` of a row of strings of 32 bytes.
#[tactic(auto, unfolding(crate::specs::Strings::value_at))]
pub(crate) fn value_at(row: &[u8], i: usize) -> [u8; 32]
    requires { 32 * i + 32 ≤ length row.now }
    ensures { result ≡ value_at row.now i }
{
    copied(&row[32 * i..32 * i + 32])
}

/// Digit `i` of a string, from the highest bit of its first byte on (RFC 8554, section 3.1.3).
pub(crate) fn coef(s: &[u8], i: u16, kind: OneTimeType) -> u8
    requires { i * width (one_time_number kind) < 8 * length s.now }
    ensures { result ≡ coef s.now i (width (one_time_number kind)) }
{
    let parameters = kind.parameters();
    let width = parameters.width;
    let i = i as usize;
    let below = 8 - (width * (i % (8 / width)) + width);
    (s[i * width / 8] >> below) & parameters.greatest_digit
}
