mod standard;
mod types;
mod vaults;
mod vectors;

use std::test::Fail;

/// A test with this result.
fn judged(right: bool) -> Result<(), Fail> {
    match right {
        true => Ok(()),
        false => Err(Fail::from("otherwise")),
    }
}
