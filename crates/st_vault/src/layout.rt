ghost use Rattle.std.specs.Prelude.{◌≡◌, ◌↔◌, ◌+◌, ◌≤◌, ◌++◌, length, take, drop, IsOk, IfOk};
ghost use Rattle.st_lms.specs.OneTime.{IsOneTimeType, IsTreeType};
ghost use Rattle.st_lms.specs.Strings.{u32str, str_to_u32};
ghost use Rattle.st_vault.specs.Image.{header_of, key_of_header, nonzero_from, one_past};

use st_lms::{BadType, Secret};

/// The gate byte of a vault. Every other value is a shut gate.
pub(crate) const OPEN_GATE: u8 = 0xa5;

/// A shut gate.
pub(crate) const SHUT_GATE: u8 = 0;

/// The start of the header: after the gate.
pub(crate) const HEADER_AT: u64 = 1;

/// The number of meaningful bytes of the header: two types, the identifier and the seed.
pub(crate) const HEADER_LEN: usize = 56;

/// The start of the map, which is the least size of a vault.
pub(crate) const MAP_AT: u64 = 64;

/// The largest number of counters of a key.
pub(crate) const MOST_COUNTERS: usize = 1024;

/// The byte of a spent counter. Every other value except 0 means the same.
pub(crate) const SPENT: u8 = 1;

/// These bytes as an array.
pub(crate) fn copied<const N: usize>(bytes: &[u8]) -> [u8; N]
    requires { length bytes.now ≡ N }
    ensures { result ≡ bytes.now }
{
    let mut copied = [0u8; N];
    copied.copy_from_slice(bytes);
    copied
}

/// Overwrites the bytes from a place on.
fn put_in(row: &mut [u8], at: usize, bytes: &[u8])
    requires { at + length bytes.now ≤ length row.old }
    ensures { take (at + length bytes.now) row.new ≡ take at row.old ++ bytes.now }
{
    row[at..at + bytes.len()].copy_from_slice(bytes);
}

/// A number as 4 bytes, big-endian (RFC 8554, section 3.1.1).
#[tactic(auto, unfolding(st_lms::specs::Strings::u32str))]
pub(crate) fn u32str(n: u32) -> [u8; 4]
    ensures { result ≡ u32str n }
{
    n.to_be_bytes()
}

/// The number in 4 bytes.
#[tactic(auto, unfolding(st_lms::specs::Strings::str_to_u32))]
fn str_to_u32(bytes: &[u8]) -> u32
    requires { length bytes.now ≡ 4 }
    ensures { result ≡ str_to_u32 bytes.now }
{
    u32::from_be_bytes(copied(bytes))
}

fn zeros() -> [u8; HEADER_LEN]
    ensures { length result ≡ 56 }
{
    [0; HEADER_LEN]
}

/// The header of a key, without the zeros after it.
pub(crate) fn write_header(secret: &Secret) -> [u8; HEADER_LEN]
    ensures { result ≡ header_of secret.now }
{
    let mut header = zeros();
    put_in(&mut header, 0, &u32str(secret.ots()));
    put_in(&mut header, 4, &u32str(secret.tree()));
    put_in(&mut header, 8, &secret.id());
    put_in(&mut header, 24, &secret.seed());
    header
}

/// The key in a header. The result is `BadType` if and only if one of its types is not known.
#[tactic(auto, unfolding(crate::specs::Image::key_of_header))]
pub(crate) fn read_header(header: &[u8]) -> Result<Secret, BadType>
    requires { 56 ≤ length header.now }
    ensures known { IsOk result ↔ (IsOneTimeType (key_of_header header.now).ots × IsTreeType (key_of_header header.now).tree) }
    ensures value { IfOk result (λ secret. secret ≡ key_of_header header.now) }
{
    let ots = str_to_u32(&header[..4]);
    let tree = str_to_u32(&header[4..8]);
    Secret::new(ots, tree, copied(&header[8..24]), copied(&header[24..56]))
}

/// The next counter from a map: one past its last byte that is not 0, or 0.
pub(crate) fn next_in(map: &[u8]) -> u32
    requires { length map.now ≤ 1024 }
    ensures value { result ≡ one_past (nonzero_from 0 map.now) }
    ensures small { result ≤ length map.now }
{
    let mut next = 0;
    'bytes: for (place, byte) in map.iter().enumerate() {
        if *byte != 0 {
            next = place as u32 + 1;
        }
    }
    next
}
