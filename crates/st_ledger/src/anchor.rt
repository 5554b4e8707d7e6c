ghost use Rattle.std.specs.Prelude.{◌≡◌};
ghost use Rattle.st_ledger.specs.Ledger.{AnswersByRule, anchor_of, anchor_rule_name, anchor_rules, count_in};

use st_base::{cut_at, read_number};
use st_hash::{Hash, read_hash};
use st_params::Params;
use thiserror::Error;

/// The content of an anchor string: the number of operations that the batch declares, and the URI
/// of its core index file.
#[derive(Clone, Copy, Debug, PartialEq, Eq)]
pub struct Anchor {
    pub count: u32,
    pub core: Hash,
}

/// The rules of an anchor string, in their order.
#[derive(Clone, Copy, Debug, PartialEq, Eq, Error)]
pub enum AnchorRule {
    /// There is no `.`.
    #[error("an anchor string without a dot")]
    A1,
    /// The text before the first `.` is not a decimal number from 1 to `max_operations` without
    /// leading zero.
    #[error("an anchor string without a count")]
    A2,
    /// The text after the first `.` is not a hash text.
    #[error("an anchor string without a hash text")]
    A3,
}

impl AnchorRule {
    /// The name of the rule: a letter for the kind of text, and its number, as `A3`.
    pub fn name(&self) -> &'static str
        ensures { result.now ≡ anchor_rule_name self.now }
    {
        match self {
            AnchorRule::A1 => "A1",
            AnchorRule::A2 => "A2",
            AnchorRule::A3 => "A3",
        }
    }
}

/// Reads an anchor string: a decimal count, a dot, and the URI of the core index file. It allocates
/// nothing.
///
/// A rule is returned if and only if it is the first that the text fails.
pub fn read_anchor(text: &[u8], params: &Params) -> Result<Anchor, AnchorRule>
    ensures { AnswersByRule (anchor_rules params.now text.now) (anchor_of params.now text.now) result }
{
    let Some((count, core)) = cut_at(text, b'.') else {
        return Err(AnchorRule::A1);
    };
    let Some(count) = read_count(count, params.max_operations()) else {
        return Err(AnchorRule::A2);
    };
    match read_hash(core) {
        Ok(core) => Ok(Anchor { count, core }),
        Err(_) => Err(AnchorRule::A3),
    }
}

fn read_count(text: &[u8], most: u32) -> Option<u32>
    ensures { result ≡ count_in most text.now }
{
    match read_number(text, most) {
        Some(count) if count >= 1 => Some(count),
        _ => None,
    }
}
