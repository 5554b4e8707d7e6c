use super::results::is_so;
use std::test::Fail;

// The long form that DIF Sidetree v1.0.0 publishes as its example. Its own delta gives its
// document: a key on another curve, with two purposes, and a service.
const PUBLISHED: &str =
    r##"absent 1 did:sidetree:EiDyOQbbZAa3aiRzeCkV7LOx3SERjjH93EXoIM3UoN4oWg:eyJkZWx0YSI6eyJwYXRjaGVzIjpbeyJhY3Rpb24iOiJyZXBsYWNlIiwiZG9jdW1lbnQiOnsicHVibGljS2V5cyI6W3siaWQiOiJwdWJsaWNLZXlNb2RlbDFJZCIsInB1YmxpY0tleUp3ayI6eyJjcnYiOiJzZWNwMjU2azEiLCJrdHkiOiJFQyIsIngiOiJ0WFNLQl9ydWJYUzdzQ2pYcXVwVkpFelRjVzNNc2ptRXZxMVlwWG45NlpnIiwieSI6ImRPaWNYcWJqRnhvR0otSzAtR0oxa0hZSnFpY19EX09NdVV3a1E3T2w2bmsifSwicHVycG9zZXMiOlsiYXV0aGVudGljYXRpb24iLCJrZXlBZ3JlZW1lbnQiXSwidHlwZSI6IkVjZHNhU2VjcDI1NmsxVmVyaWZpY2F0aW9uS2V5MjAxOSJ9XSwic2VydmljZXMiOlt7ImlkIjoic2VydmljZTFJZCIsInNlcnZpY2VFbmRwb2ludCI6Imh0dHA6Ly93d3cuc2VydmljZTEuY29tIiwidHlwZSI6InNlcnZpY2UxVHlwZSJ9XX19XSwidXBkYXRlQ29tbWl0bWVudCI6IkVpREtJa3dxTzY5SVBHM3BPbEhrZGI4Nm5ZdDBhTnhTSFp1MnItYmhFem5qZEEifSwic3VmZml4RGF0YSI6eyJkZWx0YUhhc2giOiJFaUNmRFdSbllsY0Q5RUdBM2RfNVoxQUh1LWlZcU1iSjluZmlxZHo1UzhWRGJnIiwicmVjb3ZlcnlDb21taXRtZW50IjoiRWlCZk9aZE10VTZPQnc4UGs4NzlRdFotMkotOUZiYmpTWnlvYUFfYnFENHpoQSJ9fQ {"didDocument":{"authentication":["#publicKeyModel1Id"],"id":"$","keyAgreement":["#publicKeyModel1Id"],"service":[{"id":"#service1Id","serviceEndpoint":"http://www.service1.com","type":"service1Type"}],"verificationMethod":[{"controller":"$","id":"#publicKeyModel1Id","publicKeyJwk":{"crv":"secp256k1","kty":"EC","x":"tXSKB_rubXS7sCjXqupVJEzTcW3MsjmEvq1YpXn96Zg","y":"dOicXqbjFxoGJ-K0-GJ1kHYJqic_D_OMuUwkQ7Ol6nk"},"type":"EcdsaSecp256k1VerificationKey2019"}]},"didDocumentMetadata":{"method":{"published":false,"recoveryCommitment":"EiBfOZdMtU6OBw8Pk879QtZ-2J-9FbbjSZyoaA_bqD4zhA","updateCommitment":"EiDKIkwqO69IPG3pOlHkdb86nYt0aNxSHZu2r-bhEznjdA"}}}"##;

#[test]
fn the_standards_example_is_resolved(rt: HostRuntime) -> Result<(), Fail> {
    assert!(rt; is_so(&rt, PUBLISHED));
    Ok(())
}
