ghost use Rattle.std.specs.Prelude.{◌≡◌};
ghost use Rattle.st_anchor.specs.BoundValue.{named};
ghost use Rattle.st_anchor.specs.States.{state};

use st_base::{Copied, WantOfMemory};
use st_datafiles::{ChunkRule, ProofRule};
use st_hash::Hash;
use st_indexfiles::{CoreRule, ProvisionalRule};
use st_ledger::AnchorRule;
use std::alloc::Global;

/// What is known about one role of an entry. `Is` has the content of the file, and what is known
/// below it.
#[derive(Drop)]
pub enum Part<T> {
    /// No file is needed.
    Unneeded,
    /// The file of this URI hasn't been received.
    Missing(Hash),
    /// The first rule that the file fails; for the core role also one that the entry's text fails.
    Rejected(Rule),
    /// The file was read.
    Is(T),
}

impl<T> Part<T> {
    /// The part of a file that may be named, before it is looked up.
    pub fn named(uri: Option<Hash>) -> Part<T>
        ensures { result ≡ named uri }
    {
        match uri {
            Some(uri) => Part::Missing(uri),
            None => Part::Unneeded,
        }
    }

    /// The state of the role.
    pub fn state(&self) -> RoleState
        ensures { result ≡ state self.now }
    {
        match self {
            Part::Unneeded => RoleState::Unneeded,
            Part::Missing(uri) => RoleState::Missing(*uri),
            Part::Rejected(rule) => RoleState::Rejected(*rule),
            Part::Is(_) => RoleState::Read,
        }
    }
}

/// The state of one role of an entry.
#[derive(Clone, Copy, Debug, PartialEq, Eq)]
pub enum RoleState {
    /// No file is needed.
    Unneeded,
    /// The file of this URI hasn't been received.
    Missing(Hash),
    /// The first rule that the file fails; for the core role also one that the entry's text fails.
    Rejected(Rule),
    /// The file was read.
    Read,
}

impl Copied for RoleState {
    fn copy(&self, _alloc: Global) -> Result<RoleState, WantOfMemory> {
        Ok(*self)
    }
}

/// The rule that an anchor string or a file fails.
#[derive(Clone, Copy, Debug, PartialEq, Eq)]
pub enum Rule {
    /// A rule of anchor strings.
    Anchor(AnchorRule),
    /// A rule of core index files.
    Core(CoreRule),
    /// A rule of provisional index files.
    Provisional(ProvisionalRule),
    /// A rule of the two proof files.
    Proofs(ProofRule),
    /// A rule of chunk files.
    Chunk(ChunkRule),
}

impl Copied for Rule {
    fn copy(&self, _alloc: Global) -> Result<Rule, WantOfMemory> {
        Ok(*self)
    }
}

impl Rule {
    ghost use Rattle.st_anchor.specs.RuleNames.{rule_name};

    /// The name of the rule: a letter for the kind of file, and its number, as `C3`.
    #[tactic(auto, unfolding(crate::specs::RuleNames::rule_name))]
    pub fn name(&self) -> &'static str
        ensures { result.now ≡ rule_name self.now }
    {
        match self {
            Rule::Anchor(rule) => rule.name(),
            Rule::Core(rule) => rule.name(),
            Rule::Provisional(rule) => rule.name(),
            Rule::Proofs(rule) => rule.name(),
            Rule::Chunk(rule) => rule.name(),
        }
    }
}
