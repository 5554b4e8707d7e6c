use super::{first_other, judged};
use st_base::Bytes;
use st_io::PlainDisk;
use st_wallet::{WalletRefused, counters_law};
use std::alloc::Global;
use std::test::Fail;

// Lines on a disk that is blank at first, each before its reply or, if that is long, its hash text.
// All was computed with Python's hashlib, base64 and json.
const SESSION: &str = "\
Left
refused line command

refused line command
left 
refused line words
key
refused line words
key -
refused blank
left
refused blank
sign-hss e31
refused line base64
sign-hss YWJj
refused blank
create - {\"patches\":[],\"updateCommitment\":\"EiDjsMRCmPwcFJr79MiZb7kkJ65B5GSbk0yklZkbeFK4VQ\"}
refused blank
format 9 5 07070707070707070707070707070707 0A0A0A0A0A0A0A0A0A0A0A0A0A0A0A0A0b0b0b0b0b0b0b0b0b0b0b0b0b0b0b0b
refused line number
format 2 5 07070707070707070707070707070707
refused line words
format 2 4 07070707070707070707070707070707 0A0A0A0A0A0A0A0A0A0A0A0A0A0A0A0A0b0b0b0b0b0b0b0b0b0b0b0b0b0b0b0b
refused line number
format 02 5 x y
refused line number
format 2 5 07070707070707070707070707070707 0A0A0A0A0A0A0A0A0A0A0A0A0A0A0A0A0b0b0b0b0b0b0b0b0b0b0b0b0b0b0b0b0
refused line hex
format 2 5 0707070707070707070707070707070x 0A0A0A0A0A0A0A0A0A0A0A0A0A0A0A0A0b0b0b0b0b0b0b0b0b0b0b0b0b0b0b0b
refused line hex
format 9 5 x y
refused line number
format 2 5  07070707070707070707070707070707 0A0A0A0A0A0A0A0A0A0A0A0A0A0A0A0A0b0b0b0b0b0b0b0b0b0b0b0b0b0b0b0b
refused line hex
format 2 5 07070707070707070707070707070707 0A0A0A0A0A0A0A0A0A0A0A0A0A0A0A0A0b0b0b0b0b0b0b0b0b0b0b0b0b0b0b0b
formatted AAAABQAAAAIHBwcHBwcHBwcHBwcHBwcHyy1CD7GCWR4ipPw2V0cBzGHI9tNgyMuRNP78boNkOZA
format 2 5 07070707070707070707070707070707 0A0A0A0A0A0A0A0A0A0A0A0A0A0A0A0A0b0b0b0b0b0b0b0b0b0b0b0b0b0b0b0b
refused formatted
left
left 32
key -
key EiCh07a0KDdWKMaks-ejlo5DcqnPNdJEujdECr6E865pDA EiCJQL3ab6YEXAoiLbHliu9RLS77jTQE9THd9ATi86KHCA {\"alg\":\"LMS\",\"kty\":\"LMS\",\"pub\":\"AAAABQAAAAIHBwcHBwcHBwcHBwcHBwcHyy1CD7GCWR4ipPw2V0cBzGHI9tNgyMuRNP78boNkOZA\"}
key 0123456789abcdefABCDEF9876543210
key EiAKn8q0VzeKWbG_v5cv3Q3Hn7YSrAwjqGiA7x2iSEE1gA EiAMlxStyClcEm3Hie0h2IH0LjwaFbljDGR3HeZfv1yjCQ {\"alg\":\"LMS\",\"kty\":\"LMS\",\"nonce\":\"ASNFZ4mrze-rze-YdlQyEA\",\"pub\":\"AAAABQAAAAIHBwcHBwcHBwcHBwcHBwcHyy1CD7GCWR4ipPw2V0cBzGHI9tNgyMuRNP78boNkOZA\"}
key x
refused line hex
key -x
refused line hex
key - 
refused line hex
key 0123456789abcdefABCDEF9876543210 
refused line hex
create - {\"patches\":[],\"updateCommitment\":\"EiDjsMRCmPwcFJr79MiZb7kkJ65B5GSbk0yklZkbeFK4VQ\"}
request EiDS4zu2-KNsY20SIsISCUwnKwwGKavPyGiC-5RNyB_SZg {\"delta\":{\"patches\":[],\"updateCommitment\":\"EiDjsMRCmPwcFJr79MiZb7kkJ65B5GSbk0yklZkbeFK4VQ\"},\"suffixData\":{\"deltaHash\":\"EiBNHNlO-0eRfvDE-fNCBUxpL9nvDZmBJZLNcubQR4qsnQ\",\"recoveryCommitment\":\"EiCJQL3ab6YEXAoiLbHliu9RLS77jTQE9THd9ATi86KHCA\"},\"type\":\"create\"}
create 0123456789abcdefABCDEF9876543210 {\"updateCommitment\": \"EiDjsMRCmPwcFJr79MiZb7kkJ65B5GSbk0yklZkbeFK4VQ\", \"patches\": [{\"action\":\"remove-services\",\"ids\":[\"a\"]}]}
request EiDY6mcZJWv3eUZ71ABeyO_RVnsgBxESvPmTAla3BHB6aw {\"delta\":{\"patches\":[{\"action\":\"remove-services\",\"ids\":[\"a\"]}],\"updateCommitment\":\"EiDjsMRCmPwcFJr79MiZb7kkJ65B5GSbk0yklZkbeFK4VQ\"},\"suffixData\":{\"deltaHash\":\"EiACdUJ4dkeEH9bnAJGGO4WlIdDfWKDeCAF45nRJPYg3bQ\",\"recoveryCommitment\":\"EiAMlxStyClcEm3Hie0h2IH0LjwaFbljDGR3HeZfv1yjCQ\"},\"type\":\"create\"}
create x {\"patches\":[],\"updateCommitment\":\"EiDjsMRCmPwcFJr79MiZb7kkJ65B5GSbk0yklZkbeFK4VQ\"}
refused line hex
create -
refused line words
create - 
refused notJson
create - {
refused notJson
create - {\"a\":1.5}
refused notWhole
create - {}
refused badDelta
create - {\"patches\":[],\"updateCommitment\":\"x\"}
refused badDelta
update x - {
refused badHash
update EiDjsMRCmPwcFJr79MiZb7kkJ65B5GSbk0yklZkbeFK4VQ - {
refused notJson
update EiDjsMRCmPwcFJr79MiZb7kkJ65B5GSbk0yklZkbeFK4VQ - {\"a\":1.5}
refused notWhole
update EiDjsMRCmPwcFJr79MiZb7kkJ65B5GSbk0yklZkbeFK4VQ - []
refused badDelta
update EiDjsMRCmPwcFJr79MiZb7kkJ65B5GSbk0yklZkbeFK4VQ -
refused line words
update EiDjsMRCmPwcFJr79MiZb7kkJ65B5GSbk0yklZkbeFK4VQ x {\"patches\":[],\"updateCommitment\":\"EiDjsMRCmPwcFJr79MiZb7kkJ65B5GSbk0yklZkbeFK4VQ\"}
refused line hex
update
refused line words
update EiDjsMRCmPwcFJr79MiZb7kkJ65B5GSbk0yklZkbeFK4VQ - {\"patches\":[],\"updateCommitment\":\"EiDjsMRCmPwcFJr79MiZb7kkJ65B5GSbk0yklZkbeFK4VQ\"}
hash EiDJJpIvR-pVSwFhX-VzfYZKX5hSpcUZWbN3GuvWhtsfbw
left
left 31
update EiDjsMRCmPwcFJr79MiZb7kkJ65B5GSbk0yklZkbeFK4VQ 0123456789abcdefABCDEF9876543210 {\"updateCommitment\": \"EiDjsMRCmPwcFJr79MiZb7kkJ65B5GSbk0yklZkbeFK4VQ\", \"patches\": [{\"action\":\"remove-services\",\"ids\":[\"a\"]}]}
hash EiAxDio4GhT8KbOIQR2bfeFSshJq3ijikcWa7URNOPyk1g
recover EiDjsMRCmPwcFJr79MiZb7kkJ65B5GSbk0yklZkbeFK4VQ 0123456789abcdefABCDEF9876543210 ffffffffffffffffffffffffffffffff {\"patches\":[],\"updateCommitment\":\"EiDjsMRCmPwcFJr79MiZb7kkJ65B5GSbk0yklZkbeFK4VQ\"}
hash EiApPe8VeI8w3D_h4S334VLJxXdhttvHn6YBYyi8mTWf_Q
recover EiDjsMRCmPwcFJr79MiZb7kkJ65B5GSbk0yklZkbeFK4VQ - - {\"updateCommitment\": \"EiDjsMRCmPwcFJr79MiZb7kkJ65B5GSbk0yklZkbeFK4VQ\", \"patches\": [{\"action\":\"remove-services\",\"ids\":[\"a\"]}]}
hash EiAmcVek1CKhVEmnPN-eyWjmSWM5YIWCVIan2Lxyc38f1Q
recover EiDjsMRCmPwcFJr79MiZb7kkJ65B5GSbk0yklZkbeFK4VQ - x {\"updateCommitment\": \"EiDjsMRCmPwcFJr79MiZb7kkJ65B5GSbk0yklZkbeFK4VQ\", \"patches\": [{\"action\":\"remove-services\",\"ids\":[\"a\"]}]}
refused line hex
recover EiDjsMRCmPwcFJr79MiZb7kkJ65B5GSbk0yklZkbeFK4VQ - -
refused line words
recover y - - {}
refused badHash
recover EiDjsMRCmPwcFJr79MiZb7kkJ65B5GSbk0yklZkbeFK4VQ - - {}
refused badDelta
deactivate EiDjsMRCmPwcFJr79MiZb7kkJ65B5GSbk0yklZkbeFK4VQ -
hash EiCFcmMxVBXdPqFEddkaOGRNGDti3saSGPVm4dERQvmO_w
deactivate EiDjsMRCmPwcFJr79MiZb7kkJ65B5GSbk0yklZkbeFK4VQ ffffffffffffffffffffffffffffffff
hash EiDRBKC9w8IvW2vByccGzJrkdTH_t3Mj9U_G0EGb2KKuaA
deactivate EiDjsMRCmPwcFJr79MiZb7kkJ65B5GSbk0yklZkbeFK4VQ
refused line words
deactivate z -
refused badHash
deactivate EiDjsMRCmPwcFJr79MiZb7kkJ65B5GSbk0yklZkbeFK4VQ ffffffffffffffffffffffffffffffff 
refused line hex
left
left 26
";

// Lines on a vault with one counter left.
const LAST: &str = "\
left
left 1
update EiDjsMRCmPwcFJr79MiZb7kkJ65B5GSbk0yklZkbeFK4VQ - {\"patches\":[],\"updateCommitment\":\"EiDjsMRCmPwcFJr79MiZb7kkJ65B5GSbk0yklZkbeFK4VQ\"}
hash EiB9ThXaWSOj1JefHn7yzeaUUTvji3nTTHU5W9P6eKEy9Q
left
left 0
update EiDjsMRCmPwcFJr79MiZb7kkJ65B5GSbk0yklZkbeFK4VQ - {\"patches\":[],\"updateCommitment\":\"EiDjsMRCmPwcFJr79MiZb7kkJ65B5GSbk0yklZkbeFK4VQ\"}
refused exhausted
update x - {}
refused badHash
deactivate EiDjsMRCmPwcFJr79MiZb7kkJ65B5GSbk0yklZkbeFK4VQ -
refused exhausted
";

// Lines on a disk with an open gate and no vault.
const DAMAGED: &str = "\
left
refused damaged
format 1 5 07070707070707070707070707070707 0A0A0A0A0A0A0A0A0A0A0A0A0A0A0A0A0b0b0b0b0b0b0b0b0b0b0b0b0b0b0b0b
refused damaged
update x - {}
refused damaged
lef
refused line command
sign-hss YWJj
refused damaged
";

fn on_image(
    alloc: Global,
    image: &[u8],
    session: &'static str,
) -> Result<Option<&'static str>, WalletRefused> {
    let mut disk = PlainDisk::new(alloc, Bytes::from_slice(alloc, image)?);
    first_other(alloc, &mut disk, session)
}

#[test]
fn each_line_has_its_reply(rt: HostRuntime) -> Result<(), Fail> {
    counters_law();
    judged(on_image(rt.alloc(), &[], SESSION))
}

#[test]
fn a_damaged_disk_refuses_each_line(rt: HostRuntime) -> Result<(), Fail> {
    let mut image = [0u8; 64];
    image[0] = 0xa5;
    judged(on_image(rt.alloc(), &image, DAMAGED))
}

#[test]
fn the_last_counter_is_given_once(rt: HostRuntime) -> Result<(), Fail> {
    judged(on_image(rt.alloc(), &spent_image(), LAST))
}

// A vault of types 2 and 5, with all counters except the last spent.
fn spent_image() -> [u8; 96] {
    let mut image = [0u8; 96];
    image[0] = 0xa5;
    image[4] = 2;
    image[8] = 5;
    for i in 9..25 {
        image[i] = 7;
    }
    for i in 25..57 {
        image[i] = 9;
    }
    for i in 64..95 {
        image[i] = 1;
    }
    image
}
