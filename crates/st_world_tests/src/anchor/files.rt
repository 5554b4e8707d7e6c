//! Files of entries, and the anchor strings that name them. Their URIs were computed by another
//! program.

// A core index file that names only a provisional index file, and one that also has a create.
pub(crate) const LONE_TEXT: &str = r#"1.EiDwxnIdk7VHdTIYKQNSBXb8s0WirNQJ9cPQJr1l69TTUA"#;

pub(crate) const LONE: &str =
    r#"{"provisionalIndexFileUri":"EiCxpM5pEg-nTkvL0l0-gcP8LK4pm4dAf5jAY4-DTgL03w"}"#;

pub(crate) const FULL_TEXT: &str = r#"2.EiD-gG27dZaKNtMOR3obKRE-qri9O-Uyy8IMJGBkRj2xgA"#;

pub(crate) const FULL: &str =
    r#"{"operations":{"create":[{"suffixData":{"deltaHash":"EiC6eBa_jwHP6kFBQN5driIjsANho5YXepy0EP9h8gAVrQ","recoveryCommitment":"EiDjsMRCmPwcFJr79MiZb7kkJ65B5GSbk0yklZkbeFK4VQ"}}]},"provisionalIndexFileUri":"EiCxpM5pEg-nTkvL0l0-gcP8LK4pm4dAf5jAY4-DTgL03w"}"#;

// A provisional index file with one update, of the suffix of that create.
pub(crate) const SHARED: &str =
    r#"{"chunks":[{"chunkFileUri":"EiDjsMRCmPwcFJr79MiZb7kkJ65B5GSbk0yklZkbeFK4VQ"}],"operations":{"update":[{"didSuffix":"EiATdX8Q5MV_plJJmuNAF_0nOfwoAX70r-tP5eSOPf86vA","revealValue":"EiC6eBa_jwHP6kFBQN5driIjsANho5YXepy0EP9h8gAVrQ"}]},"provisionalProofFileUri":"EiC6eBa_jwHP6kFBQN5driIjsANho5YXepy0EP9h8gAVrQ"}"#;

// A recover and an update, whose proof files are one file, and a chunk file with too few deltas.
pub(crate) const TEXT: &str = r#"2.EiD37ZO07WgeXHs4_d83B6kXwaebD94WJhCDT6JZRqRxew"#;

pub(crate) const CORE: &str =
    r#"{"coreProofFileUri":"EiAN8iC05PUviE6TJNMw4PYOgYFW5HhTmRsaFkRzXV95LQ","operations":{"recover":[{"didSuffix":"EiDsORX1QuD4y2wYMvuwOJoBH-SLaoLjf3lA4nS_IwIHdg","revealValue":"EiC6eBa_jwHP6kFBQN5driIjsANho5YXepy0EP9h8gAVrQ"}]},"provisionalIndexFileUri":"EiC-XCfnyYY0fnG20g1_EJeDTpzMGFvow4zZc-NhHeGOpQ"}"#;

pub(crate) const BELOW: &str =
    r#"{"chunks":[{"chunkFileUri":"EiCDF_TW2tmFJVV3PxGfWrfZGWbsrgt64M_8Fhoc6C1Fqg"}],"operations":{"update":[{"didSuffix":"EiApNwE_IYGBBgayp5mwW9ooSfPjaaIJgqQTjw4KVZhM5A","revealValue":"EiC6eBa_jwHP6kFBQN5driIjsANho5YXepy0EP9h8gAVrQ"}]},"provisionalProofFileUri":"EiAN8iC05PUviE6TJNMw4PYOgYFW5HhTmRsaFkRzXV95LQ"}"#;

pub(crate) const PROOF: &str = r#"{"operations":{"update":[{"signedData":"x"}]}}"#;

pub(crate) const SHORT_CHUNK: &str = r#"{"deltas":[null]}"#;

// One operation of each kind, with all five files.
pub(crate) const ALL_TEXT: &str = r#"4.EiCb6kwOArFSToi3aWJeYzbWl3niUdUXxIaRUwt1qKD7yw"#;

pub(crate) const ALL: &str =
    r#"{"coreProofFileUri":"EiBZq6hqGd_l3g56gvman46yC5_n2e2Ere_jEx9DkRLD4Q","operations":{"create":[{"suffixData":{"deltaHash":"EiC6eBa_jwHP6kFBQN5driIjsANho5YXepy0EP9h8gAVrQ","recoveryCommitment":"EiDjsMRCmPwcFJr79MiZb7kkJ65B5GSbk0yklZkbeFK4VQ"}}],"deactivate":[{"didSuffix":"EiBbB6xA9TNJPIAK9uA8bOPqQ1mchWW_qMlXczcQgnkndg","revealValue":"EiC6eBa_jwHP6kFBQN5driIjsANho5YXepy0EP9h8gAVrQ"}],"recover":[{"didSuffix":"EiDsORX1QuD4y2wYMvuwOJoBH-SLaoLjf3lA4nS_IwIHdg","revealValue":"EiC6eBa_jwHP6kFBQN5driIjsANho5YXepy0EP9h8gAVrQ"}]},"provisionalIndexFileUri":"EiC-1r3MBg_m09ggTCSpAMRWgHqttVDseB6RI0OpXB6aDg"}"#;

pub(crate) const PROOFS: &str =
    r#"{"operations":{"deactivate":[{"signedData":"y"}],"recover":[{"signedData":"x"}]}}"#;

pub(crate) const PROVISIONAL: &str =
    r#"{"chunks":[{"chunkFileUri":"EiDF16zp_FbmanodV2G2qCreogrbYT8HlI1qrMK0lLpVoA"}],"operations":{"update":[{"didSuffix":"EiApNwE_IYGBBgayp5mwW9ooSfPjaaIJgqQTjw4KVZhM5A","revealValue":"EiC6eBa_jwHP6kFBQN5driIjsANho5YXepy0EP9h8gAVrQ"}]},"provisionalProofFileUri":"EiDuVY_SnH29ELeP6OxRbXleh9uunscGEYqbpjLipgcXag"}"#;

pub(crate) const UPDATES: &str = r#"{"operations":{"update":[{"signedData":"z"}]}}"#;

pub(crate) const DELTAS: &str = r#"{"deltas":[1,2,3]}"#;
