use crate::words::three;
use st_resolve::{DidRefused, read_did};
use std::test::Fail;

// The version, the result of reading, the text. Suffixes and second parts were computed with
// Python's hashlib, json and base64.
const CASES: &str = "\
1 BadDid did:other:x
1 BadDid did:sidetree:
1 BadDid did:sidetree:x:e31
1 short did:sidetree:EiATdX8Q5MV_plJJmuNAF_0nOfwoAX70r-tP5eSOPf86vA
1 BadLongForm did:sidetree:EiATdX8Q5MV_plJJmuNAF_0nOfwoAX70r-tP5eSOPf86vA:
1 BadLongForm did:sidetree:EiATdX8Q5MV_plJJmuNAF_0nOfwoAX70r-tP5eSOPf86vA:e31
1 BadLongForm did:sidetree:EiATdX8Q5MV_plJJmuNAF_0nOfwoAX70r-tP5eSOPf86vA:e30
1 long did:sidetree:EiATdX8Q5MV_plJJmuNAF_0nOfwoAX70r-tP5eSOPf86vA:eyJkZWx0YSI6e30sInN1ZmZpeERhdGEiOnsiZGVsdGFIYXNoIjoiRWlDNmVCYV9qd0hQNmtGQlFONWRyaUlqc0FOaG81WVhlcHkwRVA5aDhnQVZyUSIsInJlY292ZXJ5Q29tbWl0bWVudCI6IkVpRGpzTVJDbVB3Y0ZKcjc5TWlaYjdra0o2NUI1R1NiazB5a2xaa2JlRks0VlEifX0
1 BadLongForm did:sidetree:EiATdX8Q5MV_plJJmuNAF_0nOfwoAX70r-tP5eSOPf86vA:eyJkZWx0YSI6e30sInN1ZmZpeERhdGEiOnsiZGVsdGFIYXNoIjoiRWlDNmVCYV9qd0hQNmtGQlFONWRyaUlqc0FOaG81WVhlcHkwRVA5aDhnQVZyUSIsInJlY292ZXJ5Q29tbWl0bWVudCI6IkVpRGpzTVJDbVB3Y0ZKcjc5TWlaYjdra0o2NUI1R1NiazB5a2xaa2JlRks0VlEifX0:
1 BadLongForm did:sidetree:EiATdX8Q5MV_plJJmuNAF_0nOfwoAX70r-tP5eSOPf86vA:eyJkZWx0YSI6W10sInN1ZmZpeERhdGEiOnsiZGVsdGFIYXNoIjoiRWlDNmVCYV9qd0hQNmtGQlFONWRyaUlqc0FOaG81WVhlcHkwRVA5aDhnQVZyUSIsInJlY292ZXJ5Q29tbWl0bWVudCI6IkVpRGpzTVJDbVB3Y0ZKcjc5TWlaYjdra0o2NUI1R1NiazB5a2xaa2JlRks0VlEifX0
1 BadLongForm did:sidetree:EiATdX8Q5MV_plJJmuNAF_0nOfwoAX70r-tP5eSOPf86vA:eyJkZWx0YSI6eyJhIjoxLjV9LCJzdWZmaXhEYXRhIjp7ImRlbHRhSGFzaCI6IkVpQzZlQmFfandIUDZrRkJRTjVkcmlJanNBTmhvNVlYZXB5MEVQOWg4Z0FWclEiLCJyZWNvdmVyeUNvbW1pdG1lbnQiOiJFaURqc01SQ21Qd2NGSnI3OU1pWmI3a2tKNjVCNUdTYmsweWtsWmtiZUZLNFZRIn19
1 NotCanonical did:sidetree:EiATdX8Q5MV_plJJmuNAF_0nOfwoAX70r-tP5eSOPf86vA:eyJkZWx0YSI6eyB9LCJzdWZmaXhEYXRhIjp7ImRlbHRhSGFzaCI6IkVpQzZlQmFfandIUDZrRkJRTjVkcmlJanNBTmhvNVlYZXB5MEVQOWg4Z0FWclEiLCJyZWNvdmVyeUNvbW1pdG1lbnQiOiJFaURqc01SQ21Qd2NGSnI3OU1pWmI3a2tKNjVCNUdTYmsweWtsWmtiZUZLNFZRIn19
1 NotCanonical did:sidetree:EiDjsMRCmPwcFJr79MiZb7kkJ65B5GSbk0yklZkbeFK4VQ:eyJkZWx0YSI6eyB9LCJzdWZmaXhEYXRhIjp7ImRlbHRhSGFzaCI6IkVpQzZlQmFfandIUDZrRkJRTjVkcmlJanNBTmhvNVlYZXB5MEVQOWg4Z0FWclEiLCJyZWNvdmVyeUNvbW1pdG1lbnQiOiJFaURqc01SQ21Qd2NGSnI3OU1pWmI3a2tKNjVCNUdTYmsweWtsWmtiZUZLNFZRIn19
1 SuffixDiffers did:sidetree:EiDjsMRCmPwcFJr79MiZb7kkJ65B5GSbk0yklZkbeFK4VQ:eyJkZWx0YSI6e30sInN1ZmZpeERhdGEiOnsiZGVsdGFIYXNoIjoiRWlDNmVCYV9qd0hQNmtGQlFONWRyaUlqc0FOaG81WVhlcHkwRVA5aDhnQVZyUSIsInJlY292ZXJ5Q29tbWl0bWVudCI6IkVpRGpzTVJDbVB3Y0ZKcjc5TWlaYjdra0o2NUI1R1NiazB5a2xaa2JlRks0VlEifX0
1 BadDid did:sidetree:E0AmwPrThr-UCJj8CIlEm1c8x3AZhnnWXtvJT3obZtMdfcZGLTWm3PTqh86gOMSQteVqJZjZtG4ps1qCFbmpiDm_
2 short did:sidetree:E0AmwPrThr-UCJj8CIlEm1c8x3AZhnnWXtvJT3obZtMdfcZGLTWm3PTqh86gOMSQteVqJZjZtG4ps1qCFbmpiDm_
2 long did:sidetree:E0AmwPrThr-UCJj8CIlEm1c8x3AZhnnWXtvJT3obZtMdfcZGLTWm3PTqh86gOMSQteVqJZjZtG4ps1qCFbmpiDm_:eyJkZWx0YSI6e30sInN1ZmZpeERhdGEiOnsiZGVsdGFIYXNoIjoiRTBEZHJ6V2hrMkY2dXN4QmMwbXVJRUV4RXViNlRvbXBmcUlLbnU3bVMxWFRtaUdTbVNvblQ4R29Ocm84STZQLTY3MUZUVVFqWkR6b0RpcWF5VS1sVEtTZiIsInJlY292ZXJ5Q29tbWl0bWVudCI6IkVpRGpzTVJDbVB3Y0ZKcjc5TWlaYjdra0o2NUI1R1NiazB5a2xaa2JlRks0VlEifX0
1 BadLongForm did:sidetree:EiD8AHtW631VMnqliGASgXpHd_0J6Onh0DG26VTRFP4WiA:eyJkZWx0YSI6e30sInN1ZmZpeERhdGEiOnsiZGVsdGFIYXNoIjoiRTBEZHJ6V2hrMkY2dXN4QmMwbXVJRUV4RXViNlRvbXBmcUlLbnU3bVMxWFRtaUdTbVNvblQ4R29Ocm84STZQLTY3MUZUVVFqWkR6b0RpcWF5VS1sVEtTZiIsInJlY292ZXJ5Q29tbWl0bWVudCI6IkVpRGpzTVJDbVB3Y0ZKcjc5TWlaYjdra0o2NUI1R1NiazB5a2xaa2JlRks0VlEifX0
2 SuffixDiffers did:sidetree:EiD8AHtW631VMnqliGASgXpHd_0J6Onh0DG26VTRFP4WiA:eyJkZWx0YSI6e30sInN1ZmZpeERhdGEiOnsiZGVsdGFIYXNoIjoiRTBEZHJ6V2hrMkY2dXN4QmMwbXVJRUV4RXViNlRvbXBmcUlLbnU3bVMxWFRtaUdTbVNvblQ4R29Ocm84STZQLTY3MUZUVVFqWkR6b0RpcWF5VS1sVEtTZiIsInJlY292ZXJ5Q29tbWl0bWVudCI6IkVpRGpzTVJDbVB3Y0ZKcjc5TWlaYjdra0o2NUI1R1NiazB5a2xaa2JlRks0VlEifX0";

fn word(refused: DidRefused) -> &'static str {
    match refused {
        DidRefused::BadDid => "BadDid",
        DidRefused::BadLongForm => "BadLongForm",
        DidRefused::NotCanonical => "NotCanonical",
        DidRefused::SuffixDiffers => "SuffixDiffers",
        DidRefused::WantOfMemory => "WantOfMemory",
    }
}

fn read_as(rt: &HostRuntime, text: &str, version: &str) -> &'static str {
    let version = if version == "1" { 1 } else { 2 };
    match read_did(rt.alloc(), text.as_bytes(), version) {
        Ok(did) => if did.text.as_str() != text {
            "another text"
        } else if did.long.is_some() {
            "long"
        } else {
            "short"
        },
        Err(refused) => word(refused),
    }
}

fn is_so(rt: &HostRuntime, line: &str) -> bool {
    match three(line) {
        Some((version, expected, text)) => read_as(rt, text, version) == expected,
        None => false,
    }
}

#[test]
fn each_text_is_read_or_told_its_first_refusal(rt: HostRuntime) -> Result<(), Fail> {
    for line in CASES.lines() {
        assert!(rt; is_so(&rt, line), "{line}");
    }
    Ok(())
}
