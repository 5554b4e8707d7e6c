ghost use Rattle.std.specs.Prelude.{◌≡◌, ◌≤◌, IfOk};
ghost use Rattle.st_workload.specs.Identifier.{jwk, key, nonce_at, recovery_jwk, update_jwk, bytes, key_bytes, word, words_from};

use rand_chacha::ChaCha8Rng;
use rand_core::SeedableRng;
use rand_core::utils::{NextWord, fill_bytes_via_u32};
use st_base::WantOfMemory;
use st_jws::Jwk;
use st_lms::Secret;
use st_vault::VaultSigner;

fn key_bytes(seed: u64) -> [u8; 32]
    ensures { result ≡ key_bytes seed }
{
    let mut key = [0; 32];
    key[..8].copy_from_slice(&seed.to_le_bytes());
    key
}

#[tactic(auto, unfolding(crate::specs::Identifier::words_from))]
fn words_from(seed: u64, stream: u32, n: u64) -> ChaCha8Rng
    ensures { result ≡ words_from seed stream n }
{
    let mut words = ChaCha8Rng::from_seed(key_bytes(seed));
    words.set_stream(u64::from(stream));
    words.set_word_pos(u128::from(n));
    words
}

/// The word with this number of a stream.
#[tactic(auto, unfolding(crate::specs::Identifier::word))]
pub(crate) fn word(seed: u64, stream: u32, n: u64) -> u32
    ensures { result ≡ word seed stream n }
{
    let mut words = words_from(seed, stream, n);
    words.next_word()
}

/// Sixteen bytes of the words from this number on.
#[tactic(auto, unfolding(crate::specs::Identifier::bytes))]
pub(crate) fn sixteen(seed: u64, stream: u32, n: u64) -> [u8; 16]
    ensures { result ≡ bytes seed stream n 16 }
{
    let mut words = words_from(seed, stream, n);
    let mut bytes = [0; 16];
    fill_bytes_via_u32(&mut words, &mut bytes);
    bytes
}

/// Thirty-two bytes of the words from this number on.
#[tactic(auto, unfolding(crate::specs::Identifier::bytes))]
pub(crate) fn thirty_two(seed: u64, stream: u32, n: u64) -> [u8; 32]
    ensures { result ≡ bytes seed stream n 32 }
{
    let mut words = words_from(seed, stream, n);
    let mut bytes = [0; 32];
    fill_bytes_via_u32(&mut words, &mut bytes);
    bytes
}

/// The key of an identifier. Both of its types are known, so making it can't fail.
#[tactic(auto, unfolding(crate::specs::Identifier::key))]
pub(crate) fn secret(seed: u64, number: u32) -> Result<Secret, WantOfMemory>
    ensures { IfOk result (λ secret. secret ≡ key seed number) }
{
    match Secret::new(3, 5, sixteen(seed, number, 0), thirty_two(seed, number, 4)) {
        Ok(secret) => Ok(secret),
        Err(_) => Err(WantOfMemory),
    }
}

/// The JWK with the recovery nonce.
pub(crate) fn recovery_jwk(signer: &VaultSigner, seed: u64, number: u32) -> Jwk
    requires { signer.now ≡ key seed number }
    ensures { result ≡ recovery_jwk seed number }
{
    jwk(signer, seed, number, 12)
}

/// The JWK with the nonce for a round.
pub(crate) fn update_jwk(signer: &VaultSigner, seed: u64, number: u32, round: u32) -> Jwk
    requires key { signer.now ≡ key seed number }
    requires round { round ≤ 30 }
    ensures { result ≡ update_jwk seed number round }
{
    jwk(signer, seed, number, nonce_at(round))
}

// The key as a JWK, with the nonce that starts at this word.
#[tactic(auto, unfolding(crate::specs::Identifier::jwk))]
fn jwk(signer: &VaultSigner, seed: u64, number: u32, n: u64) -> Jwk
    requires { signer.now ≡ key seed number }
    ensures { result ≡ jwk seed number n }
{
    Jwk {
        public: signer.public(),
        nonce: Some(sixteen(seed, number, n)),
    }
}

// The first word of the nonce for a round.
fn nonce_at(round: u32) -> u64
    requires { round ≤ 30 }
    ensures { result ≡ nonce_at round }
{
    if round == 0 {
        16
    } else {
        u64::from(15 + 5 * round)
    }
}
