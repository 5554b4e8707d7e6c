//! The wallet, driven by lines over its disk: each counter is spent there before its reply is
//! returned.
#![tactic(auto)]

mod lines;

pub use lines::{WalletLines, run_wallet};
