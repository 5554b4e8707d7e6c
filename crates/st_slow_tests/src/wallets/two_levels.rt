use super::{first_other, judged};
use st_base::{Bytes, WantOfMemory};
use st_io::PlainDisk;
use st_wallet::WalletRefused;
use std::alloc::Global;
use std::test::Fail;

// Lines on a vault of types 2 and 6 with 30 spent counters, each before its reply or the reply's
// hash text. Another program in Python computed everything.
const SESSION: &str = "\
sign-hss
refused line words
sign-hss e31
refused line base64
sign-hss YWJj
hash EiAHBcV2wGgJvkEd9nLOLdCOsmFLOvufFRzcTOabiQbfFQ
sign-hss 
hash EiA3WIo-UDfbJlaxWzQzuHSeiQjVHPqJ434DiAWkBQZSYQ
left
left 992
sign-hss YWJj
hash EiBsxqM9FzOorKXh_tRKEIpNJOWjOXWZT8oH89PwTjC_Yg
update EiDjsMRCmPwcFJr79MiZb7kkJ65B5GSbk0yklZkbeFK4VQ - {\"patches\":[],\"updateCommitment\":\"EiDjsMRCmPwcFJr79MiZb7kkJ65B5GSbk0yklZkbeFK4VQ\"}
hash EiA9VSF1ndMbD8wUrZMF0iOcU9h8Hp0pwZq4k1jVccrzvQ
sign-hss YWJj
hash EiALfRyz-OJWggbs547teEyF3RKImrGjM7cyTikPbzqPhw
left
left 989
";

// Lines on that vault with one counter left.
const LAST: &str = "\
sign-hss YWJj
hash EiDQergqXhc2M1jebvmqQvdJkfesH4rQnUKQJRp7xGohQA
sign-hss YWJj
refused exhausted
left
left 0
";

/// The image of a vault of types 2 and 6 whose first `spent` counters are spent.
pub(super) fn image_with(alloc: Global, spent: u32) -> Result<Bytes, WantOfMemory> {
    let mut image = Bytes::from_slice(alloc, &[0xa5, 0, 0, 0, 2, 0, 0, 0, 6])?;
    image.push_all(alloc, &[7; 16])?;
    image.push_all(alloc, &[9; 32])?;
    image.push_all(alloc, &[0; 7])?;
    'map: for n in 0..1024 {
        let byte = if n < spent { 1 } else { 0 };
        image.push_all(alloc, &[byte])?;
    }
    Ok(image)
}

fn on_vault(
    alloc: Global,
    spent: u32,
    session: &'static str,
) -> Result<Option<&'static str>, WalletRefused> {
    let mut disk = PlainDisk::new(alloc, image_with(alloc, spent)?);
    first_other(alloc, &mut disk, session)
}

#[test]
fn messages_are_signed_with_two_levels(rt: HostRuntime) -> Result<(), Fail> {
    judged(on_vault(rt.alloc(), 30, SESSION))
}

#[test]
fn the_last_counter_signs_one_message(rt: HostRuntime) -> Result<(), Fail> {
    judged(on_vault(rt.alloc(), 1023, LAST))
}
