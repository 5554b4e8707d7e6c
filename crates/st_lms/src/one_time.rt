ghost use Rattle.std.specs.Prelude.{◌≡◌, ◌+◌, ◌*◌, ◌<◌, ℕ, List, length, slice_index, take};
ghost use Rattle.st_lms.specs.OneTime.{candidate_key, chain, key_of_ends, message_hash, one_time_public, secret_element, signed_values, chains, one_time_number};
ghost use Rattle.st_lms.specs.Strings.{value_at};

use crate::digits::{Digits, Places, Values, digit_places, head, last_places, repeated};
use crate::parameters::OneTimeType;
use crate::strings::{D_MESG, D_PBLC, hasher};
use sha2::Digest;
use st_lanes::walk;

/// The hash of a message under the randomizer `c`, for the key with number `q`.
pub(crate) fn message_hash(id: &[u8; 16], q: u32, c: &[u8], message: &[u8]) -> [u8; 32]
    ensures { result ≡ message_hash id.now q c.now message.now }
{
    let mut hasher = hasher(id, q, D_MESG);
    hasher.update(c);
    hasher.update(message);
    hasher.finalize()
}

/// Secret element `i` of the key with number `q`, which is hashed as a step with the number 0xff.
pub(crate) fn secret_element(id: &[u8; 16], q: u32, i: u16, seed: &[u8; 32]) -> [u8; 32]
    ensures { result ≡ secret_element id.now q i seed.now }
{
    let mut hasher = hasher(id, q, i);
    hasher.update([0xffu8]);
    hasher.update(seed.as_slice());
    hasher.finalize()
}

/// The values of a secret's chains at these places, in a row.
fn values_of_secret(
    kind: OneTimeType,
    id: &[u8; 16],
    q: u32,
    seed: &[u8; 32],
    to: &Places,
) -> Values
    ensures long { length result ≡ 8480 }
    ensures values { (i n : ℕ) → i < chains (one_time_number kind) → n < 256
        → slice_index to.now i ≡ n + 1
        → value_at result i ≡ chain id.now q i 0 n (secret_element id.now q i seed.now) }
{
    let count = kind.parameters().chains;
    let starts = repeated(seed, count);
    walk(&head(id, q), &[0; 265], to, &starts, count as usize)
}

/// The public key over the ends of its chains, which are in a row.
fn key_of_ends(kind: OneTimeType, id: &[u8; 16], q: u32, ends: &Values) -> [u8; 32]
    ensures { (end : ℕ → List ℕ)
        → ((i : ℕ) → i < chains (one_time_number kind) → value_at ends.now i ≡ end i)
        → result ≡ key_of_ends (one_time_number kind) id.now q end }
{
    let mut hasher = hasher(id, q, D_PBLC);
    hasher.update(&ends[..32 * kind.parameters().chains as usize]);
    hasher.finalize()
}

/// The public key of the secret key with number `q`.
pub(crate) fn one_time_public(kind: OneTimeType, id: &[u8; 16], q: u32, seed: &[u8; 32]) -> [u8; 32]
    ensures { result ≡ one_time_public (one_time_number kind) id.now q seed.now }
{
    let ends = values_of_secret(kind, id, q, seed, &last_places(kind));
    key_of_ends(kind, id, q, &ends)
}

/// The signed values of the digits, in a row.
pub(crate) fn signed_values(
    kind: OneTimeType,
    id: &[u8; 16],
    q: u32,
    seed: &[u8; 32],
    digits: &Digits,
) -> Values
    ensures long { length result ≡ 8480 }
    ensures values { take (32 * chains (one_time_number kind)) result
        ≡ signed_values (one_time_number kind) id.now q seed.now digits.now }
{
    values_of_secret(kind, id, q, seed, &digit_places(kind, digits))
}

/// The public key under which these values are a signature of these digits.
pub(crate) fn candidate_key(
    kind: OneTimeType,
    id: &[u8; 16],
    q: u32,
    digits: &Digits,
    values: &[u8],
) -> [u8; 32]
    requires { length values.now ≡ 32 * chains (one_time_number kind) }
    ensures { result ≡ candidate_key (one_time_number kind) id.now q digits.now values.now }
{
    let ends = walk(
        &head(id, q),
        &digit_places(kind, digits),
        &last_places(kind),
        values,
        kind.parameters().chains as usize,
    );
    key_of_ends(kind, id, q, &ends)
}
