//! The public keys of RFC 8554, appendix F, test case 2, from the seeds there: the types, the
//! identifier, the seed and the public key of each.

use super::keys_of;
use std::test::Fail;

fn has_its_public_key(line: &str) -> bool {
    let Some(keys) = keys_of(line) else {
        return false;
    };
    let (secret, public) = keys;
    secret.public().write() == public
}

#[test]
fn the_keys_of_the_standard_come_from_their_seeds(rt: HostRuntime) -> Result<(), Fail> {
    for line in "3 6 d08fabd4a2091ff0a8cb4ed834e74534 558b8966c48ae9cb898b423c83443aae014a72f1b1ab5cc85cf1d892903b5439 0000000600000003d08fabd4a2091ff0a8cb4ed834e7453432a58885cd9ba0431235466bff9651c6c92124404d45fa53cf161c28f1ad5a8e
4 5 215f83b7ccb9acbcd08db97b0d04dc2b a1c4696e2608035a886100d05cd99945eb3370731884a8235e2fb3d4d71f2547 0000000500000004215f83b7ccb9acbcd08db97b0d04dc2ba1cd035833e0e90059603f26e07ad2aad152338e7a5e5984bcd5f7bb4eba40b7"
        .lines()
    {
        assert!(rt; has_its_public_key(line), "{line}");
    }
    Ok(())
}
