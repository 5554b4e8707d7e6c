//! Signed texts, made by a signer in Python whose signatures are those of Bouncy Castle.

/// For the payload of `PAYLOAD`, with the key number 3.
pub(crate) const SIGNED: &str =
    "eyJhbGciOiJMTVMifQ.eyJkZWx0YUhhc2giOiJFaUJQU3BRUV84MzRsY1N0dUlCbG5wdGNEZEh5T2pCNUJvUTBDejZ\
    xeXdSVG1BIiwidXBkYXRlS2V5Ijp7ImFsZyI6IkxNUyIsImt0eSI6IkxNUyIsIm5vbmNlIjoiWkdWbVoyaHBhbXRzY\
    lc1dmNIRnljdyIsInB1YiI6IkFBQUFCUUFBQUFRQUFRSURCQVVHQndnSkNnc01EUTRQOTlHWmhheFJGREhNLTJZMDc\
    zT3lQS25aMU1mNnlCMXFRb3lscXpSVS1EcyJ9fQ.AAAAAwAAAARGvhvXiKofPNI_hEBhtjbhFZ2PuAoMGKIJNZ-GyJ\
    FIy7_EdyLaw2ZeQrnXPBm6iZGYMIU-xms3DeNLvdGqmTp0W-wBorVzi09_Fozuu15HcBZMzqMcwCHI1qxDGqBHWZjN\
    BkFPNNtMo0WAk37kr_OQZ3Gji1kv8ICDKFr1iINgP_p_H6APZdFOI3yeZzj32qBXrxcdz254XxDgIqYDMPDwsoDsVZ\
    5FxJ4ZRMe_g3FR_VG07RqDUAp4tdtAEKXVMG0EENPVJLeyOiDe3sbTnSeFzj6Ll1TkbpoCH6dr1J0yP5YHrNg-xEG3\
    ovhoPzn7aK_GzeQHLI2Wbj3ZgT7hdoaQc1LhFxavk7xGW6s6KM2gqi7u9uCTMqokurAyjPbmBQ-Mt6bgPecCB1pIHi\
    Vhn1GJreAUEo0tuIEXlmhkOA4WbMWhjxIM5_4pPjpkODakCOKAqc3GtHret7vqEbPBiBrL1Uhzjtk8pMxKqfMwWnYl\
    7xkTCCW0C-B0Lnrf7sqDTwVCZsaLGbgYovkzwqF4oOxG1PJxwoQNrmurqk5-Sl1mrAg8gV_YySj0BLU9KVKeOmZ7Hs\
    Hf2dhLIoPvnbWwFqnwzyHSF3OP1rbzIO8iZFL_MlWp8Wu1I2wCaP85Udln2F10jT1HJ2LHmL2tdE5EG0vymWWPpy-k\
    2kT6FunKXMNtX5xDP814DMlH1TK1Q0xWSUOkLe4mEO2Vh62MRmScJV2Qf6LyG0887_w990JcT7OQ9xMD8toUboYLPJ\
    zI7KWekiYOXR-nZoWXKwJOhJ8_ep-uJC5S_gJJ0RfVgzhDwwClFsRylh3QnpwsyFnUXsVSTiFjUD75FdKg-a707bsy\
    nq3w6g-VP8RwFMLpWZLQbzHaCs-4v_fzM9d5Yl2YvZQLCvz0p1L6Hr_ohWCXRns0LtrxPt3rgtdmMUoQrKy2tzvwin\
    fAVW99-1yIKgkHUmcmPa9WD2m8IT__iIrq6f-FpHgOmyi9lii7EIZiRdPItqH-Bbk_GNrLfHixyzZN7qgZFfh8Bm2n\
    t9GXeLNz7GQ3uypoOLA4hF40Ll9pRc6ymayV4QfjJJaFLuACKDRJwCDU523f4977x1JOwte55v9UuTVicIF_HqSrze\
    -0GtzjYc7zWMVVSy5g_HwiHZ34TkT5UFOjK3X6YOr6CfpYZodqllupdZQnLFS6NLL9CI57hhkm-p3lwjCFyvF1EDcl\
    b5Nu14TQrDQukSxJbh-DxkK9PaXJGxqHpsbiaQqguJs1YGjezGe0Zag9_h1KY-rOG9kplSGmHs0SijxNBr4mxkobg1\
    gEkRfCLQ3VCgpSoAnWJdeqPvRf-nuyXH8KcRllid46QdFQy83z6fwDpmVM2PBReqCAylB8ItMNOt0hp6wUad_yPbNC\
    amG7jy6B2U1ziSWFL_lEUhI0sWsP65j2InqIDTa6mTgseYFYThPcARb01A-uwySGa4f_02u5-9kY4_IGlNYE-Mm0wW\
    sy7Q26DZaJE0v6AAAABdTko1pFV7CQgpNGhxm0LqjKJFKSuxrxRxow_bYOlJmNCNzI3nTB1COQ3oA71YQlvOCCyqB3\
    CCgUMkYRPhZcX6KNw_rkhFNfSkYcGdE8RNqJuJtVv6JbRy8xnQ4Fkbbq8BCkaAg_FxnGaDwoT96YXmatbmhPZC5CQv\
    x1NfohhdwUCMq_WOnUyPSb8wwxXGlCaoAZx80Pph5dGqkn1JVFnzs";

/// The signed payload.
pub(crate) const PAYLOAD: &str =
    "{\"deltaHash\":\"EiBPSpQQ_834lcStuIBlnptcDdHyOjB5BoQ0Cz6qywRTmA\",\"updateKey\":{\"alg\":\"LMS\",\"kt\
    y\":\"LMS\",\"nonce\":\"ZGVmZ2hpamtsbW5vcHFycw\",\"pub\":\"AAAABQAAAAQAAQIDBAUGBwgJCgsMDQ4P99GZhaxRF\
    DHM-2Y073OyPKnZ1Mf6yB1qQoylqzRU-Ds\"}}";

/// With a `kid` in the header, a `recoveryKey` in the payload, and non-canonical spellings of both,
/// with the key number 31.
pub(crate) const SPACED: &str =
    "eyAia2lkIjogImsxIiwgImFsZyI6ICJMTVMiIH0.eyAicmVjb3ZlcnlLZXkiOiB7Imt0eSI6ICJMTVMiLCAiYWxnIj\
    ogIkxNUyIsICJwdWIiOiAiQUFBQUJRQUFBQVFBQVFJREJBVUdCd2dKQ2dzTURRNFA5OUdaaGF4UkZESE0tMlkwNzNP\
    eVBLbloxTWY2eUIxcVFveWxxelJVLURzIn0sICJhbnl0aGluZyI6IFsxLCBudWxsXSB9.AAAAHwAAAATr0xjmXqQhF\
    32aksVNkrEg8sjqzHQ-2o-nDO6rOWn-RgIED5TuDuJzBadGvnxmsf-_cltZgYhUCa0AqEBtDuNIUbi7szjJnWFtrcG\
    5htH5CGBrnbvMMOJJ_FcoJdPR66YZDUkBZUxcc-4iO3jS9ZOJRl2bvBVHWf6ZvsmAiOJGfnnLX8Ti25MDIq7f54soD\
    MlYZGyRMU8cDsWIKIgi6q64OBOiU1QchvJ0I9Pjc8cP2X1OAiNOu_tut61ajXywX2vfyjh216NYRtr7sUJw2YknHKY\
    HwLivXpaD45Yxj8UQ2wlqKOT49wkyO6x_sieR7dp3jLQuHv-kGTKNMmR7TjhWhT5fnkJx389zuhlgUiuDIb0iN1nrj\
    Ox17O2I5kKoY0A8QDZ4NETGCLiDe2lslKXZErUxdouMJX2x8dOo7sunTCxYlULEduUG6UGDS0YdOCCpSLCRV7eo5ps\
    1tGMCP8X0Vpl4P-LP9YX2LKT77YHCFGZuom-sGeKo2VpYS7pM1ArCUdi7vLZPe5fJvFrSjreJ7WY5UZE3qzZnhHYk5\
    E_pBLjBQWynV6qwi5uQKVeJYBDOIX7qoHM46gPhG-yYjZaliSnJOKgZdzuTiPqbNyoF5UmA04d_GZ3ojiMH6s-PHt4\
    mIyND6V89cVDpgLYgGZk32Fyj2SBfr4fpAR8q1zyD6h3GChBAcWQ7Uc3nL3EPm3PR9UnmFaIYkWNK4FvcrZBBHCPB3\
    9nd70dcGYeNefxymLMEKg8LyYnwqC5FploCClEnTtQGRnJfrlb18ULoWcFYCuwEl57nRPPcXW55WvXMvX4X6lV-OCp\
    poxS5vuWKdL00Qcs_2QvxI96aSiUVtfZD_Olau5MTH5ezz-O6Ma_iRtJOPg9L56kido-55UqplrZW7CaWiL_bzQsFn\
    kX2NJhsQ6n2Ep4LAdLhXWPfGbosKsh4vlk2-WtoxEQ9VO0L-Zfw-iMoaZMROMRQZuIDvw61g2wDcGXRP8dsNFyBy7W\
    qxwIfDFP_LtImYXtHcFCXmQlJNBdEmsJmIN_IvAt5WN0DMFdJ5j-VmLkCYyGsPys14AVK9wf72klWhCgpX1wKFx6MF\
    LqyPDgJgfv5ue-Bz84Q-MNXxXJtjBu6IZ3zv30BDuN4UAYx9XT_hkiIEzuo9fVl3MgAo0UDLQJBsqJJxp_cS8dKzZC\
    6hn6-EPekVIOQ5vCk1fGVd9locoAg5NApTmuC6VJWxq--zhsrBymmA64-6u4Xv47XXL4DLhTcUBINx-TPOOnML21lK\
    2dxO0ulL0oYNfSBcz7JpaRd4n7wEDaSMzFuR7bLyfZ80XFp3zBpJ2HbuF1AU3sBsMg8866Mp_Mro_lFQXH1zEfPiiz\
    WQmW3jQr24eXaiA4x1-hDCI35cjhG7QxHfn_7abK2BIujcSFuwb1dUx2NpgQ5wzaxN22kdE4ea5r3daszKKkAesrav\
    dJc05jz2kodOoPs0dr1sRty0VPuz3SekDzK4rZWDVIVAAAABa3kzkUHYc0YkaKRFk_Pkbomiz4wBcXqe5u7-iVuZuC\
    etk_iPAxz9k1dLFPJyHhzBomg9bwXR3v7YaanXk35VYUn1EGkTH45hytNWpHVH0WQ-npCB8YgYcEMZ1IMN_oGtkTgP\
    Okjy_bX-uECgWmjBdhP6Rr9DFCQXjnlQ-6p2QnrLaUU710-0siWiqVi4881nwAQoqKZvI4ygVyvJnbhR14";

/// The canonical text of its payload.
pub(crate) const SPACED_PAYLOAD: &str =
    "{\"anything\":[1,null],\"recoveryKey\":{\"alg\":\"LMS\",\"kty\":\"LMS\",\"pub\":\"AAAABQAAAAQAAQIDBAUGBwg\
    JCgsMDQ4P99GZhaxRFDHM-2Y073OyPKnZ1Mf6yB1qQoylqzRU-Ds\"}}";

/// More or fewer than three texts, or another than base64url.
pub(crate) const BAD_FORMS: &str = r#"
a.b.c
e30.e30
e30.e30..
e30.e30.=
eyJhbGciOiJMTVMifQ.eyJ1cGRhdGVLZXkiOnsiYWxnIjoiTE1TIiwia3R5IjoiTE1TIiwicHViIjoiQUFBQUJRQUFBQVFBQVFJREJBVUdCd2dKQ2dzTURRNFA5OUdaaGF4UkZESE0tMlkwNzNPeVBLbloxTWY2eUIxcVFveWxxelJVLURzIn19"#;

/// The headers `{}`, and others without `alg` = `LMS`, with another `kid` than a text, or with
/// another member.
pub(crate) const BAD_HEADERS: &str = r#"..
e30.e30.
eyJhbGciOiJsbXMifQ.e30.
eyJhbGciOiJMTVMiLCJraWQiOjF9.e30.
eyJhbGciOiJMTVMiLCJraWQiOjEuNX0.e30.
WyJMTVMiXQ.e30.
eyJhbGciOiJMTVMiLCJ0eXAiOiJKV1QifQ.e30."#;

/// The payloads `{}`, `[]`, an `updateKey` that is not a key, a number that is not whole or is too
/// large next to a key, and two keys.
pub(crate) const BAD_PAYLOADS: &str = r#"eyJhbGciOiJMTVMifQ.e30.
eyJhbGciOiJMTVMifQ.W10.
eyJhbGciOiJMTVMifQ.eyJ1cGRhdGVLZXkiOjF9.
eyJhbGciOiJMTVMifQ.eyJuIjoxLjUsInVwZGF0ZUtleSI6eyJhbGciOiJMTVMiLCJrdHkiOiJMTVMiLCJwdWIiOiJBQUFBQlFBQUFBUUFBUUlEQkFVR0J3Z0pDZ3NNRFE0UDk5R1poYXhSRkRITS0yWTA3M095UEtuWjFNZjZ5QjFxUW95bHF6UlUtRHMifX0.
eyJhbGciOiJMTVMifQ.eyJuIjo5MDA3MTk5MjU0NzQwOTkyLCJ1cGRhdGVLZXkiOnsiYWxnIjoiTE1TIiwia3R5IjoiTE1TIiwicHViIjoiQUFBQUJRQUFBQVFBQVFJREJBVUdCd2dKQ2dzTURRNFA5OUdaaGF4UkZESE0tMlkwNzNPeVBLbloxTWY2eUIxcVFveWxxelJVLURzIn19.
eyJhbGciOiJMTVMifQ.eyJyZWNvdmVyeUtleSI6eyJhbGciOiJMTVMiLCJrdHkiOiJMTVMiLCJwdWIiOiJBQUFBQlFBQUFBUUFBUUlEQkFVR0J3Z0pDZ3NNRFE0UDk5R1poYXhSRkRITS0yWTA3M095UEtuWjFNZjZ5QjFxUW95bHF6UlUtRHMifSwidXBkYXRlS2V5Ijp7ImFsZyI6IkxNUyIsImt0eSI6IkxNUyIsInB1YiI6IkFBQUFCUUFBQUFRQUFRSURCQVVHQndnSkNnc01EUTRQOTlHWmhheFJGREhNLTJZMDczT3lQS25aMU1mNnlCMXFRb3lscXpSVS1EcyJ9fQ."#;

/// A whole number next to the key, a `kid` and a `recoveryKey`, with no signature.
pub(crate) const BAD_SIGNATURES: &str =
    r#"eyJhbGciOiJMTVMifQ.eyJuIjoxLCJ1cGRhdGVLZXkiOnsiYWxnIjoiTE1TIiwia3R5IjoiTE1TIiwicHViIjoiQUFBQUJRQUFBQVFBQVFJREJBVUdCd2dKQ2dzTURRNFA5OUdaaGF4UkZESE0tMlkwNzNPeVBLbloxTWY2eUIxcVFveWxxelJVLURzIn19.
eyJhbGciOiJMTVMiLCJraWQiOiJrMSJ9.eyJyZWNvdmVyeUtleSI6eyJhbGciOiJMTVMiLCJrdHkiOiJMTVMiLCJwdWIiOiJBQUFBQlFBQUFBUUFBUUlEQkFVR0J3Z0pDZ3NNRFE0UDk5R1poYXhSRkRITS0yWTA3M095UEtuWjFNZjZ5QjFxUW95bHF6UlUtRHMifX0."#;
