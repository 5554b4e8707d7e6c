use super::judged;
use super::vectors::PUBLIC_1;
use st_hss::{HssPublic, HssRefused};
use std::test::Fail;

/// The answer to 60 bytes that differ from a key in one.
fn read_changed(at: usize, byte: u8) -> Result<(), HssRefused> {
    let mut bytes = [0; 60];
    if PUBLIC_1.len() != 60 || at >= 60 {
        return Ok(());
    }
    bytes.copy_from_slice(PUBLIC_1);
    bytes[at] = byte;
    match HssPublic::read(&bytes) {
        Ok(_) => Ok(()),
        Err(refused) => Err(refused),
    }
}

fn is_right() -> bool {
    HssPublic::read(&PUBLIC_1[..59]) == Err(HssRefused::BadLength)
        && read_changed(3, 1) == Err(HssRefused::BadLevels)
        && read_changed(0, 1) == Err(HssRefused::BadLevels)
        && read_changed(7, 7) == Err(HssRefused::BadType)
        && read_changed(11, 0) == Err(HssRefused::BadType)
        && read_changed(59, 0) == Ok(())
}

#[test]
fn keys_are_read() -> Result<(), Fail> {
    judged(is_right())
}
