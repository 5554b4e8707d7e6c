ghost use Rattle.std.specs.Prelude.{◌≡◌, IfOk, OnOk, false, map, IfNone, IfSome};
ghost use Rattle.st_base.specs.Lists.{has_twice};
ghost use Rattle.st_hash.specs.Hash.{same_hash, uri_of};
ghost use Rattle.st_anchor.specs.BoundValue.{bound_with, known_of_text, known_from};
ghost use Rattle.st_anchor.specs.Gives.{opened_by, HasCome, MissesNone, NoneHasCome, newly_decided, newly_opened, AllIsKnown, DecidesOne, GivesOnce, LeavesKnown, MayBeRead, OpensFew, given, plain_given, suffixes_given};
ghost use Rattle.st_anchor.specs.States.{role_state, WorkedAtMost, one_file_with, worked};

use crate::branches::{Context, CoreBranch};
use crate::files::core_part;
use crate::given::{Given, give_below};
use crate::part::{Part, RoleState, Rule};
use st_base::{Bytes, List, Shared, WantOfMemory, Work};
use st_content::Content;
use st_datafiles::Role;
use st_ledger::read_anchor;
use st_params::Params;
use std::alloc::Global;
use std::marker::Model;

/// What is known about one entry: the content of its text and of its files, without their bytes.
/// Contracts see it as a tree.
#[derive(Drop)]
pub struct Bound {
    context: Context,
    core: Part<CoreBranch>,
}

impl Model for Bound {
    ghost use Rattle.st_anchor.specs.BoundValue.{BoundValue, coded_known};
    ghost use Rattle.st_anchor.specs.States.{IsSound};

    ghost Value = { BoundValue };

    ghost coded = { coded_known };

    ghost view = { λ bound. record { context = bound.context; core = bound.core } };

    // Its files have passed their rules.
    ghost invariant = { λ bound. IsSound (record { context = bound.context; core = bound.core }) };
}

impl Bound {
    /// The content of an entry's text at these limits, which are those at its height, before any
    /// file is looked up.
    #[tactic(auto, unfolding(crate::specs::BoundValue::known_of_text))]
    pub fn new(_alloc: Global, text: &[u8], params: &Params) -> Result<Bound, WantOfMemory>
        ensures { IfOk result (λ bound. bound ≡ known_of_text params.now text.now) }
    {
        match read_anchor(text, params) {
            Ok(anchor) => Ok(Bound {
                context: Context {
                    count: anchor.count,
                    params: *params,
                },
                core: Part::Missing(anchor.core),
            }),
            Err(rule) => Ok(Bound {
                context: Context {
                    count: 0,
                    params: *params,
                },
                core: Part::Rejected(Rule::Anchor(rule)),
            }),
        }
    }

    /// The state of a role.
    #[tactic(auto, unfolding(crate::specs::States::role_state))]
    pub fn state(&self, role: Role) -> RoleState
        ensures { result ≡ role_state role self.now }
    {
        match role {
            Role::Core => self.core.state(),
            _ => match &self.core {
                Part::Is(branch) => branch.state(role),
                _ => RoleState::Unneeded,
            },
        }
    }

    /// Reads the missing file of a role. It counts as one file; if it passes as a proof file, each
    /// of its signed texts counts as one proof.
    #[tactic(auto, unfolding(crate::specs::States::role_state, crate::specs::BoundValue::bound_with, crate::specs::States::opened_proofs))]
    pub fn bind(
        self,
        alloc: Global,
        role: Role,
        file: &Shared<Bytes>,
        work: &mut Work,
    ) -> Result<Bound, WantOfMemory>
        requires { role_state role self ≡ RoleState.Missing (uri_of file.now) }
        ensures value { IfOk result (λ bound. bound ≡ bound_with role file.now self) }
        ensures work { OnOk result (work.new ≡ one_file_with (opened_by role file.now self) work.old) }
        ensures few { WorkedAtMost 1 (opened_by role file.now self) work.old work.new }
    {
        let Bound { context, core } = self;
        match core {
            Part::Missing(_) => {
                let core = core_part(alloc, file.get().as_slice(), &context, work)?;
                Ok(Bound { context, core })
            }
            Part::Is(branch) => {
                let branch = branch.bind(alloc, &context, role, file, work)?;
                Ok(Bound {
                    context,
                    core: Part::Is(branch),
                })
            }
            core => Ok(Bound { context, core }),
        }
    }

    /// The operations of the entry: creates, recovers, deactivates, updates, each kind in the order
    /// of its file. A create needs only the core index file, a recover and a deactivate the core
    /// proof file too, an update the provisional index file and its proof file. An operation has a
    /// delta if the chunk file was read, and a proof if its signed text could be opened; both are
    /// shared with this value.
    #[tactic(auto, unfolding(crate::specs::Gives::given))]
    pub fn give(&self, alloc: Global) -> Result<List<Given>, WantOfMemory>
        ensures value { IfOk result (λ list. map plain_given list ≡ given self.now) }
        // No two operations of an entry have the same suffix.
        ensures once { has_twice same_hash (suffixes_given (given self.now)) ≡ false }
    {
        match &self.core {
            Part::Is(branch) => Ok(give_below(alloc, branch)?),
            _ => Ok(List::new(alloc)),
        }
    }
}

// All roles, in their order.
const ROLES: [Role; 5] = [
    Role::Core,
    Role::CoreProof,
    Role::Provisional,
    Role::ProvisionalProof,
    Role::Chunk,
];

impl Bound {
    /// Reads the missing files that the content has, role after role, until it has none of them.
    /// Each newly decided role counts as one file, and each signed text of a newly read proof file
    /// as one proof.
    pub fn settle(
        self,
        alloc: Global,
        content: &Content,
        work: &mut Work,
    ) -> Result<Bound, WantOfMemory>
        ensures value { IfOk result (λ bound. bound ≡ known_from content.now self) }
        ensures work { OnOk result (work.new ≡ worked (newly_decided content.now self)
            (newly_opened content.now self) work.old) }
        ensures few { WorkedAtMost (newly_decided content.now self) (newly_opened content.now self) work.old work.new }
    {
        let mut bound = self;
        'binding: while let Some((role, file)) = next_there(&bound, content) {
            bound = bound.bind(alloc, role, file, work)?;
        }
        Ok(bound)
    }
}

// The first role whose missing file is in the content, and the file.
fn next_there<'a>(bound: &Bound, content: &'a Content) -> Option<(Role, &'a Shared<Bytes>)>
    ensures found { IfSome result (λ next. HasCome content.now bound.now next.0 next.1.now) }
    ensures not_found { IfNone result (NoneHasCome content.now bound.now) }
{
    for role in ROLES {
        if let Some(file) = file_for(bound, content, role) {
            return Some((role, file));
        }
    }
    None
}

fn file_for<'a>(bound: &Bound, content: &'a Content, role: Role) -> Option<&'a Shared<Bytes>>
    ensures found { IfSome result (λ file. HasCome content.now bound.now role file.now) }
    ensures not_found { IfNone result (MissesNone content.now bound.now role) }
{
    match bound.state(role) {
        RoleState::Missing(uri) => content.get(&uri),
        _ => None,
    }
}

/// Laws of entries, for any files received in any order: a `Bound` made from an entry's text, with
/// no missing file in the content, has the role states and the operations that the content gives the
/// entry.
pub fn entry_laws()
    ensures may_be_read { MayBeRead }
    ensures all_is_known { AllIsKnown }
    ensures leaves_known { LeavesKnown }
    ensures decides_one { DecidesOne }
    ensures opens_few { OpensFew }
    ensures gives_once { GivesOnce }
{}
