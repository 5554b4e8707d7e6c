ghost use Rattle.std.specs.Prelude.{◌≡◌, ◌-◌, IfOk, OnOk};
ghost use Rattle.st_anchor.specs.inside.Coming.{IsMissing};
ghost use Rattle.st_anchor.specs.States.{WorkedAtMost, one_file_with, Holds, IsSoundCore, IsSoundProvisional, core_state, count_read, opened_in_core, opened_in_provisional, provisional_part_state, provisional_state};
ghost use Rattle.st_anchor.specs.BoundValue.{core_with, provisional_part_with, provisional_with};

use crate::branches::{Context, CoreBranch, ProvisionalBranch};
use crate::files::{chunk_part, core_proof_part, provisional_part, provisional_proof_part};
use crate::part::{Part, RoleState};
use st_base::{Bytes, Shared, WantOfMemory, Work};
use st_datafiles::Role;
use st_indexfiles::CoreIndex;
use std::alloc::Global;

impl CoreBranch {
    /// The state of a role below the core index file.
    pub fn state(&self, role: Role) -> RoleState
        ensures { result ≡ core_state role self.now }
    {
        match role {
            Role::Core => RoleState::Unneeded,
            Role::CoreProof => self.proofs.state(),
            Role::Provisional => self.provisional.state(),
            _ => match &self.provisional {
                Part::Is(branch) => branch.state(role),
                _ => RoleState::Unneeded,
            },
        }
    }

    /// Reads the missing file of a role below the core index file.
    pub fn bind(
        self,
        alloc: Global,
        context: &Context,
        role: Role,
        file: &Shared<Bytes>,
        work: &mut Work,
    ) -> Result<CoreBranch, WantOfMemory>
        requires missing { IsMissing (core_state role self) }
        requires sound { IsSoundCore context.now self }
        ensures value { IfOk result (λ branch. branch ≡ core_with role context.now file.now self) }
        ensures work { OnOk result (work.new ≡
            one_file_with (opened_in_core (core_with role context.now file.now self) - opened_in_core self) work.old) }
        ensures few { WorkedAtMost 1 (opened_in_core (core_with role context.now file.now self) - opened_in_core self)
            work.old work.new }
    {
        let CoreBranch {
            says,
            proofs,
            provisional,
        } = self;
        match role {
            Role::CoreProof => {
                let proofs = core_proof_part(alloc, file, &says, context, work)?;
                Ok(CoreBranch {
                    says,
                    proofs,
                    provisional,
                })
            }
            _ => {
                let provisional = bind_provisional(
                    alloc,
                    provisional,
                    context,
                    &says,
                    role,
                    file,
                    work,
                )?;
                Ok(CoreBranch {
                    says,
                    proofs,
                    provisional,
                })
            }
        }
    }
}

// Reads the provisional index file, or one that it names.
fn bind_provisional(
    alloc: Global,
    provisional: Part<ProvisionalBranch>,
    context: &Context,
    core: &CoreIndex,
    role: Role,
    file: &Shared<Bytes>,
    work: &mut Work,
) -> Result<Part<ProvisionalBranch>, WantOfMemory>
    requires missing { IsMissing (provisional_part_state role provisional) }
    requires sound { Holds (IsSoundProvisional context.now core.now) provisional }
    ensures value { IfOk result (λ part. part ≡ provisional_part_with role context.now core.now file.now provisional) }
    ensures work { OnOk result (work.new ≡
        one_file_with (count_read opened_in_provisional (provisional_part_with role context.now core.now file.now provisional)
        - count_read opened_in_provisional provisional) work.old) }
    ensures few { WorkedAtMost 1 (count_read opened_in_provisional (provisional_part_with role context.now core.now file.now provisional)
        - count_read opened_in_provisional provisional) work.old work.new }
{
    match provisional {
        Part::Missing(_) => {
            let part = provisional_part(alloc, file.get().as_slice(), core, context, work)?;
            Ok(part)
        }
        Part::Is(branch) => {
            let branch = branch.bind(alloc, context, core, role, file, work)?;
            Ok(Part::Is(branch))
        }
        other => Ok(other),
    }
}

impl ProvisionalBranch {
    /// The state of a role below the provisional index file.
    pub fn state(&self, role: Role) -> RoleState
        ensures { result ≡ provisional_state role self.now }
    {
        match role {
            Role::ProvisionalProof => self.proofs.state(),
            Role::Chunk => self.chunk.state(),
            _ => RoleState::Unneeded,
        }
    }

    /// Reads the missing file of a role below the provisional index file.
    pub fn bind(
        self,
        alloc: Global,
        context: &Context,
        core: &CoreIndex,
        role: Role,
        file: &Shared<Bytes>,
        work: &mut Work,
    ) -> Result<ProvisionalBranch, WantOfMemory>
        requires missing { IsMissing (provisional_state role self) }
        requires sound { IsSoundProvisional context.now core.now self }
        ensures value { IfOk result (λ branch. branch ≡ provisional_with role context.now core.now file.now self) }
        ensures work { OnOk result (work.new ≡ one_file_with
            (opened_in_provisional (provisional_with role context.now core.now file.now self) - opened_in_provisional self) work.old) }
        ensures few { WorkedAtMost 1
            (opened_in_provisional (provisional_with role context.now core.now file.now self) - opened_in_provisional self)
            work.old work.new }
    {
        let ProvisionalBranch {
            says,
            proofs,
            chunk,
        } = self;
        match role {
            Role::Chunk => {
                let chunk = chunk_part(alloc, file, core, &says, context, work)?;
                Ok(ProvisionalBranch {
                    says,
                    proofs,
                    chunk,
                })
            }
            _ => {
                let proofs = provisional_proof_part(alloc, file, &says, context, work)?;
                Ok(ProvisionalBranch {
                    says,
                    proofs,
                    chunk,
                })
            }
        }
    }
}
