use st_lms::{Public, PublicRefused, Secret};
use std::test::Fail;

fn makes_no_key(ots: u32, tree: u32) -> bool {
    Secret::new(ots, tree, [7; 16], [9; 32]).is_err()
}

/// The answer to 56 bytes as a public key that are 0 except for the types.
fn read(tree: u8, ots: u8) -> Result<Public, PublicRefused> {
    let mut text = [0u8; 56];
    text[3] = tree;
    text[7] = ots;
    Public::read(&text)
}

fn reads_known_types() -> bool {
    Public::read(&[0u8; 55]) == Err(PublicRefused::BadLength)
        && read(0, 0) == Err(PublicRefused::BadType)
        && read(4, 5) == Err(PublicRefused::BadType)
        && read(5, 4).is_ok()
}

#[test]
fn only_known_types_make_a_key(rt: HostRuntime) {
    assert!(rt;
        makes_no_key(0, 5)
            && makes_no_key(5, 5)
            && makes_no_key(4, 4)
            && makes_no_key(4, 7)
            && makes_no_key(5, 4)
    );
    assert!(rt; reads_known_types());
}

fn is_long(tree: u8, ots: u8, len: usize) -> bool {
    match read(tree, ots) {
        Ok(public) => public.signature_len() == len,
        Err(_) => false,
    }
}

#[test]
fn a_signature_is_as_long_as_its_types_say(rt: HostRuntime) -> Result<(), Fail> {
    assert!(rt;
        is_long(5, 1, 8684)
            && is_long(5, 2, 4460)
            && is_long(5, 3, 2348)
            && is_long(5, 4, 1292)
            && is_long(6, 1, 8844)
            && is_long(6, 2, 4620)
            && is_long(6, 3, 2508)
            && is_long(6, 4, 1452)
    );
    Ok(())
}
