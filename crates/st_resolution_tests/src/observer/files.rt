//! Files of entries, and the anchor strings that name them. Their URIs, and the suffixes, were
//! computed by another program.

// Suffixes by their names: those of the create, the recover, the deactivate and the update of one
// entry are a to d, and a is that of every other create here except one, whose suffix is e. The
// last is that of the signed operations.
pub(super) const SUFFIXES: &str = "a EiATdX8Q5MV_plJJmuNAF_0nOfwoAX70r-tP5eSOPf86vA
b EiDsORX1QuD4y2wYMvuwOJoBH-SLaoLjf3lA4nS_IwIHdg
c EiBbB6xA9TNJPIAK9uA8bOPqQ1mchWW_qMlXczcQgnkndg
d EiApNwE_IYGBBgayp5mwW9ooSfPjaaIJgqQTjw4KVZhM5A
e EiAcvzOjFJNIa14uvuDzVXte0dmxTiHvGRrsD4yOVzCjag
signed EiD-zxDVK2hIFNpYmFI4XfycZg9p9lTgzP_7KzgnFe7F_Q";

// Entries, each with its height and its anchor string: of a create; of an update of the suffix by a
// core index file alone, and by one that also has the create; of the create with a chunk file,
// whose delta does not count; of an update whose signed text can't be opened; of the core index
// file `{}`, with several counts, and of no file; of one operation of each kind; of three files
// that are not JSON; of two creates, early and late, one of which is that of the signed operations;
// of a recover and an update whose proof files are one file; and of a proof file as a core index
// file.
pub(super) const ENTRIES: &str = "created 5 1.EiA10dvb-_d3kAW7ki4Rzo6ZaD84v2bZZ4O2fJ21bh1ChA
alone 5 1.EiCsir62ZDH0aqKUHQ01Ma8lTAFhXsAV0ua-pqMudFd96Q
beside 5 2.EiDKeYorqm9yliypMRptbi4Fm-jQPsUx43Y34Oh3zkJE4A
begun 5 1.EiCVeqHqnr7f7zXPF1C9ceh-9vyVhY0q8iekTrXnXstd6w
next 5 1.EiBd6rNvUO3CJbOAvAsFtgoQ2kmdgrDfK4hCuaBkPQeMrA
none 5 0.EiBEE2-jVbNnihFGrRb36GSelPtPwh_nfoMQwGD2HKr_ig
padded 5 01.EiBEE2-jVbNnihFGrRb36GSelPtPwh_nfoMQwGD2HKr_ig
thousand 5 1000.EiBEE2-jVbNnihFGrRb36GSelPtPwh_nfoMQwGD2HKr_ig
above 5 1001.EiBEE2-jVbNnihFGrRb36GSelPtPwh_nfoMQwGD2HKr_ig
short 5 1.x
each 5 4.EiCb6kwOArFSToi3aWJeYzbWl3niUdUXxIaRUwt1qKD7yw
a 5 1.EiAAUzqJcUH1oAX88YG3M_a-4_OUzVijvEYeR6DUQngubQ
b 5 1.EiAbaxD8caPNHUZ7vvhcTFW8spj_oQRUGz3FsTgMJTK96Q
c 5 1.EiA0DEN7KpqCqnY7X31XwDQsWE1NIaGXlizxR6Cv7rq0BQ
early 5 2.EiAaI9NKn-e3iRcCU4_4PAZQmsVxM4cwLlsnI5fKWXIGSA
late 5 2.EiDvl5WdAZL02A_Ss24iJrn0SF4JAIf3gFW9vzSDDZHAbg
twice 5 2.EiD37ZO07WgeXHs4_d83B6kXwaebD94WJhCDT6JZRqRxew
proof 5 1.EiAN8iC05PUviE6TJNMw4PYOgYFW5HhTmRsaFkRzXV95LQ";

// Files by their names. Those of an entry with one operation of each kind are A to E.
pub(super) const FILES: &str = r#"none {}
created {"operations":{"create":[{"suffixData":{"deltaHash":"EiC6eBa_jwHP6kFBQN5driIjsANho5YXepy0EP9h8gAVrQ","recoveryCommitment":"EiDjsMRCmPwcFJr79MiZb7kkJ65B5GSbk0yklZkbeFK4VQ"}}]}}
updated {"chunks":[{"chunkFileUri":"EiDjsMRCmPwcFJr79MiZb7kkJ65B5GSbk0yklZkbeFK4VQ"}],"operations":{"update":[{"didSuffix":"EiATdX8Q5MV_plJJmuNAF_0nOfwoAX70r-tP5eSOPf86vA","revealValue":"EiC6eBa_jwHP6kFBQN5driIjsANho5YXepy0EP9h8gAVrQ"}]},"provisionalProofFileUri":"EiBEE2-jVbNnihFGrRb36GSelPtPwh_nfoMQwGD2HKr_ig"}
alone {"provisionalIndexFileUri":"EiCLPulT-bWt1t7guVMV_E6lc1gW1nUmo0UqxwfJudTP5A"}
beside {"operations":{"create":[{"suffixData":{"deltaHash":"EiC6eBa_jwHP6kFBQN5driIjsANho5YXepy0EP9h8gAVrQ","recoveryCommitment":"EiDjsMRCmPwcFJr79MiZb7kkJ65B5GSbk0yklZkbeFK4VQ"}}]},"provisionalIndexFileUri":"EiCLPulT-bWt1t7guVMV_E6lc1gW1nUmo0UqxwfJudTP5A"}
begun {"operations":{"create":[{"suffixData":{"deltaHash":"EiC6eBa_jwHP6kFBQN5driIjsANho5YXepy0EP9h8gAVrQ","recoveryCommitment":"EiDjsMRCmPwcFJr79MiZb7kkJ65B5GSbk0yklZkbeFK4VQ"}}]},"provisionalIndexFileUri":"EiAPjRqo0P5vEYVgo_k5fZ5pNqwwULaPUYK07d5Vq3BDCA"}
begun.index {"chunks":[{"chunkFileUri":"EiCDF_TW2tmFJVV3PxGfWrfZGWbsrgt64M_8Fhoc6C1Fqg"}]}
begun.chunk {"deltas":[null]}
next {"provisionalIndexFileUri":"EiDCUJQ8CspAmt8nO4bP3Em2AYtQA2IFmf4KvMv24o-LyQ"}
next.index {"chunks":[{"chunkFileUri":"EiAJI_rzQGfuyAGS6wk-h0XyqcD6awAxXlA15T7pLn-vKQ"}],"operations":{"update":[{"didSuffix":"EiATdX8Q5MV_plJJmuNAF_0nOfwoAX70r-tP5eSOPf86vA","revealValue":"EiC6eBa_jwHP6kFBQN5driIjsANho5YXepy0EP9h8gAVrQ"}]},"provisionalProofFileUri":"EiAN8iC05PUviE6TJNMw4PYOgYFW5HhTmRsaFkRzXV95LQ"}
next.proof {"operations":{"update":[{"signedData":"x"}]}}
next.chunk {"deltas":[1]}
A {"coreProofFileUri":"EiBZq6hqGd_l3g56gvman46yC5_n2e2Ere_jEx9DkRLD4Q","operations":{"create":[{"suffixData":{"deltaHash":"EiC6eBa_jwHP6kFBQN5driIjsANho5YXepy0EP9h8gAVrQ","recoveryCommitment":"EiDjsMRCmPwcFJr79MiZb7kkJ65B5GSbk0yklZkbeFK4VQ"}}],"deactivate":[{"didSuffix":"EiBbB6xA9TNJPIAK9uA8bOPqQ1mchWW_qMlXczcQgnkndg","revealValue":"EiC6eBa_jwHP6kFBQN5driIjsANho5YXepy0EP9h8gAVrQ"}],"recover":[{"didSuffix":"EiDsORX1QuD4y2wYMvuwOJoBH-SLaoLjf3lA4nS_IwIHdg","revealValue":"EiC6eBa_jwHP6kFBQN5driIjsANho5YXepy0EP9h8gAVrQ"}]},"provisionalIndexFileUri":"EiC-1r3MBg_m09ggTCSpAMRWgHqttVDseB6RI0OpXB6aDg"}
B {"operations":{"deactivate":[{"signedData":"y"}],"recover":[{"signedData":"x"}]}}
C {"chunks":[{"chunkFileUri":"EiDF16zp_FbmanodV2G2qCreogrbYT8HlI1qrMK0lLpVoA"}],"operations":{"update":[{"didSuffix":"EiApNwE_IYGBBgayp5mwW9ooSfPjaaIJgqQTjw4KVZhM5A","revealValue":"EiC6eBa_jwHP6kFBQN5driIjsANho5YXepy0EP9h8gAVrQ"}]},"provisionalProofFileUri":"EiDuVY_SnH29ELeP6OxRbXleh9uunscGEYqbpjLipgcXag"}
D {"operations":{"update":[{"signedData":"z"}]}}
E {"deltas":[1,2,3]}
a file 238
b file 661
c file 804
early {"operations":{"create":[{"suffixData":{"deltaHash":"EiDjsMRCmPwcFJr79MiZb7kkJ65B5GSbk0yklZkbeFK4VQ","recoveryCommitment":"EiC6eBa_jwHP6kFBQN5driIjsANho5YXepy0EP9h8gAVrQ"}},{"suffixData":{"deltaHash":"EiDmxKPxkAA8J-9RxIQwrhymyNgFpQvA6JosdMDFkOtb9A","recoveryCommitment":"EiB4ZsMWuyxJIuYPSPUXFusaeBBPt-j6farwcVJ7Js8CVg"}}]},"provisionalIndexFileUri":"EiDWHvJWxfwAQ90u-DXlcE563Ot-b1kxbOX58NGK_r6Y3A"}
early.index {"chunks":[{"chunkFileUri":"EiDYcpTmus9CC1JZ8mx7x1Dy9pArF8kbaXYsXZzcx0Ek-w"}]}
early.chunk {"deltas":[null,{"patches":[{"action":"add-services","services":[{"id":"s0","serviceEndpoint":"https://example.com/0","type":"LinkedDomains"}]}],"updateCommitment":"EiBsmG2fu-4EHOk6-hPBduBYwChpdgBd348LCZ43Q8azIA"}]}
late {"operations":{"create":[{"suffixData":{"deltaHash":"EiDmxKPxkAA8J-9RxIQwrhymyNgFpQvA6JosdMDFkOtb9A","recoveryCommitment":"EiB4ZsMWuyxJIuYPSPUXFusaeBBPt-j6farwcVJ7Js8CVg"}},{"suffixData":{"deltaHash":"EiC6eBa_jwHP6kFBQN5driIjsANho5YXepy0EP9h8gAVrQ","recoveryCommitment":"EiDjsMRCmPwcFJr79MiZb7kkJ65B5GSbk0yklZkbeFK4VQ"}}]},"provisionalIndexFileUri":"EiBJEXHqSy4jCO22G5-MU6JegETG2uQqUXb_q2-AOSjzGw"}
late.index {"chunks":[{"chunkFileUri":"EiCYw3BlPS-ABr8mPBzj1UxOCDwkQPy4IXScdvh7Ho376A"}]}
late.chunk {"deltas":[{"patches":[{"action":"add-services","services":[{"id":"s0","serviceEndpoint":"https://example.com/0","type":"LinkedDomains"}]}],"updateCommitment":"EiBsmG2fu-4EHOk6-hPBduBYwChpdgBd348LCZ43Q8azIA"},null]}
twice {"coreProofFileUri":"EiAN8iC05PUviE6TJNMw4PYOgYFW5HhTmRsaFkRzXV95LQ","operations":{"recover":[{"didSuffix":"EiDsORX1QuD4y2wYMvuwOJoBH-SLaoLjf3lA4nS_IwIHdg","revealValue":"EiC6eBa_jwHP6kFBQN5driIjsANho5YXepy0EP9h8gAVrQ"}]},"provisionalIndexFileUri":"EiC-XCfnyYY0fnG20g1_EJeDTpzMGFvow4zZc-NhHeGOpQ"}
twice.index {"chunks":[{"chunkFileUri":"EiCDF_TW2tmFJVV3PxGfWrfZGWbsrgt64M_8Fhoc6C1Fqg"}],"operations":{"update":[{"didSuffix":"EiApNwE_IYGBBgayp5mwW9ooSfPjaaIJgqQTjw4KVZhM5A","revealValue":"EiC6eBa_jwHP6kFBQN5driIjsANho5YXepy0EP9h8gAVrQ"}]},"provisionalProofFileUri":"EiAN8iC05PUviE6TJNMw4PYOgYFW5HhTmRsaFkRzXV95LQ"}"#;
