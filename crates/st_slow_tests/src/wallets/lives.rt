use super::{first_other, judged};
use st_base::Bytes;
use st_io::PlainDisk;
use std::test::Fail;

// The key in docs/FORMATS.md, and the life of an identifier under it. Another program in Python
// computed everything.
const LIFE: &str = "\
format 4 5 000102030405060708090a0b0c0d0e0f 202122232425262728292a2b2c2d2e2f303132333435363738393a3b3c3d3e3f
formatted AAAABQAAAAQAAQIDBAUGBwgJCgsMDQ4P99GZhaxRFDHM-2Y073OyPKnZ1Mf6yB1qQoylqzRU-Ds
key -
key EiD4WU1DzIRr7sRi3ioP0jkOU_wJOjtimmJaBlhmWsktPg EiDK-vU4QMf7kD0L0ZfapZ4Ekg7vJBN5E1P6BlFKe51Kmg {\"alg\":\"LMS\",\"kty\":\"LMS\",\"pub\":\"AAAABQAAAAQAAQIDBAUGBwgJCgsMDQ4P99GZhaxRFDHM-2Y073OyPKnZ1Mf6yB1qQoylqzRU-Ds\"}
key 0123456789abcdef0123456789abcdef
key EiDD1AyOVxzp-Lm0jo1pVsbGIrIqNCVMSoShfVvRriVfbw EiCDQrmAJZIFx_5qb3YCSutQLYl93nHcOnzx220Pbtkxyg {\"alg\":\"LMS\",\"kty\":\"LMS\",\"nonce\":\"ASNFZ4mrze8BI0VniavN7w\",\"pub\":\"AAAABQAAAAQAAQIDBAUGBwgJCgsMDQ4P99GZhaxRFDHM-2Y073OyPKnZ1Mf6yB1qQoylqzRU-Ds\"}
key fedcba9876543210fedcba9876543210
key EiDlBp92o5NUaqsPl84ZgvfH7KhS3KYMIjwQU5ValRxObQ EiAv0S48ehMX9NMLrm-p6T2sPBvvvKRyal5ed-ruitOiGQ {\"alg\":\"LMS\",\"kty\":\"LMS\",\"nonce\":\"_ty6mHZUMhD-3LqYdlQyEA\",\"pub\":\"AAAABQAAAAQAAQIDBAUGBwgJCgsMDQ4P99GZhaxRFDHM-2Y073OyPKnZ1Mf6yB1qQoylqzRU-Ds\"}
create - {\"patches\":[{\"action\":\"add-services\",\"services\":[{\"id\":\"home\",\"serviceEndpoint\":\"https://example.com/\",\"type\":\"Home\"}]}],\"updateCommitment\":\"EiCDQrmAJZIFx_5qb3YCSutQLYl93nHcOnzx220Pbtkxyg\"}
request EiDRLiRtCcHZplSvbRYklh6PNjh030q5zwRMZQPzhSLvzg {\"delta\":{\"patches\":[{\"action\":\"add-services\",\"services\":[{\"id\":\"home\",\"serviceEndpoint\":\"https://example.com/\",\"type\":\"Home\"}]}],\"updateCommitment\":\"EiCDQrmAJZIFx_5qb3YCSutQLYl93nHcOnzx220Pbtkxyg\"},\"suffixData\":{\"deltaHash\":\"EiAoE2IIv9E3hMX-MqfiPkFuzER8cEmagsP4VfQI1tkQRg\",\"recoveryCommitment\":\"EiDK-vU4QMf7kD0L0ZfapZ4Ekg7vJBN5E1P6BlFKe51Kmg\"},\"type\":\"create\"}
update EiDRLiRtCcHZplSvbRYklh6PNjh030q5zwRMZQPzhSLvzg 0123456789abcdef0123456789abcdef {\"patches\":[{\"action\":\"remove-services\",\"ids\":[\"home\"]}],\"updateCommitment\":\"EiAv0S48ehMX9NMLrm-p6T2sPBvvvKRyal5ed-ruitOiGQ\"}
hash EiCSZWTWViW6TGXfBJwkMIt-tTQHs-wzjZ4mvb16CaCdwQ
recover EiDRLiRtCcHZplSvbRYklh6PNjh030q5zwRMZQPzhSLvzg - 00000000000000000000000000000000 {\"patches\":[{\"action\":\"add-services\",\"services\":[{\"id\":\"home\",\"serviceEndpoint\":\"https://example.com/\",\"type\":\"Home\"}]}],\"updateCommitment\":\"EiCDQrmAJZIFx_5qb3YCSutQLYl93nHcOnzx220Pbtkxyg\"}
hash EiBLMh3dkdiMKjs9Xwc8a_CFfF9s1D8UltlksYCHNdXg0Q
deactivate EiDRLiRtCcHZplSvbRYklh6PNjh030q5zwRMZQPzhSLvzg 00000000000000000000000000000000
hash EiCPI0UOn4pQBrF6lxfLX-C_ZuXyFd9egpAD2p-Znocktg
left
left 29
sign-hss YWJj
refused tree
sign-hss
refused line words
left
left 29
";

#[test]
fn a_life_of_an_identifier_is_signed(rt: HostRuntime) -> Result<(), Fail> {
    let mut disk = PlainDisk::new(rt.alloc(), Bytes::new(rt.alloc()));
    judged(first_other(rt.alloc(), &mut disk, LIFE))
}
