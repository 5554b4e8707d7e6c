use super::judged;
use super::vectors::{MESSAGE_1, MESSAGE_2, PUBLIC_1, PUBLIC_2, SIGNATURE_1, SIGNATURE_2};
use st_base::Bytes;
use st_hss::{HssPublic, verify_hss};
use std::alloc::Global;
use std::test::Fail;

/// All but the last byte.
fn shorter(bytes: &[u8]) -> &[u8] {
    match bytes.split_last() {
        Some((_, shorter)) => shorter,
        None => bytes,
    }
}

/// Whether the signature holds, and no longer does if it is truncated, extended, or damaged at any
/// of these places.
fn holds(
    alloc: Global,
    public: &[u8],
    message: &[u8],
    signature: &[u8],
    places: &[usize],
) -> Result<bool, Fail> {
    let public = HssPublic::read(public)?;
    let mut longer = Bytes::from_slice(alloc, signature)?;
    longer.push_all(alloc, b"0")?;
    let mut bytes = Bytes::from_slice(alloc, signature)?.into_vec();
    let mut right = verify_hss(&public, message, signature)
        && !verify_hss(&public, shorter(message), signature)
        && !verify_hss(&public, message, shorter(signature))
        && !verify_hss(&public, message, longer.as_slice());
    for at in places {
        if *at < bytes.len() {
            bytes[*at] ^= 1;
            right = right && !verify_hss(&public, message, bytes.as_slice());
            bytes[*at] ^= 1;
        }
    }
    Ok(right)
}

#[test]
fn the_first_case_of_the_standard_holds(rt: HostRuntime) -> Result<(), Fail> {
    let places = [
        3, 7, 11, 12, 1295, 1296, 1299, 1303, 1304, 1351, 1352, 1355, 2643,
    ];
    judged(holds(rt.alloc(), PUBLIC_1, MESSAGE_1, SIGNATURE_1, &places)?)
}

#[test]
fn the_second_case_of_the_standard_holds(rt: HostRuntime) -> Result<(), Fail> {
    let places = [3, 7, 2507, 2508, 2511, 2515, 2563, 2564];
    judged(holds(rt.alloc(), PUBLIC_2, MESSAGE_2, SIGNATURE_2, &places)?)
}
