ghost use Rattle.std.specs.Prelude.{◌≡◌, ◌+◌, IfOk, OnOk, length, map, option_and_then, option_map, slice_get};
ghost use Rattle.st_base.specs.Work.{one_proof};
ghost use Rattle.st_ops.specs.Operation.{plain_proof};
ghost use Rattle.st_anchor.specs.BoundValue.{core_branch, provisional_branch};
ghost use Rattle.st_anchor.specs.SignedTexts.{proof_of};
ghost use Rattle.st_anchor.specs.States.{WorkedAtMost};
ghost use Rattle.st_anchor.specs.inside.Coming.{more_proofs};

use crate::given::Deltas;
use crate::part::Part;
use st_base::{Copied, KeptText, List, Shared, WantOfMemory, Work};
use st_indexfiles::{CoreIndex, ProvisionalIndex};
use st_jws::{Signed, SignedRefused, open_signed};
use st_params::Params;
use std::alloc::Global;
use std::marker::Model;

/// The signed texts of one kind in a proof file, each opened if possible. They are stored once, and
/// shared with the operations that are given. Contracts see the list of proofs.
#[derive(Drop)]
pub struct Proofs {
    items: List<Option<Shared<Signed>>>,
}

impl Model for Proofs {
    ghost use Rattle.std.specs.Prelude.{List, Option, map, option_map};
    ghost use Rattle.st_ops.specs.inside.Codes.{coded_proofs};
    ghost use Rattle.st_ops.specs.Operation.{Proof, plain_proof};

    ghost Value = { List (Option Proof) };

    ghost coded = { coded_proofs };

    ghost view = { λ proofs. map (option_map plain_proof) proofs.items };
}

impl Proofs {
    /// The proofs of signed texts of at most `limit` bytes. Each text counts as one proof.
    pub fn open(
        alloc: Global,
        texts: &[KeptText],
        limit: usize,
        work: &mut Work,
    ) -> Result<Proofs, WantOfMemory>
        ensures value { IfOk result (λ proofs. proofs ≡ map (proof_of limit) texts.now) }
        ensures work { OnOk result (work.new ≡ more_proofs (length texts.now) work.old) }
        ensures few { WorkedAtMost 0 (length texts.now) work.old work.new }
    {
        let items = open_all(alloc, texts, limit, work)?;
        Ok(Proofs { items })
    }

    /// The proof at this place, if there is one and its text could be opened.
    pub fn at(&self, alloc: Global, at: usize) -> Result<Option<Shared<Signed>>, WantOfMemory>
        ensures { IfOk result (λ proof. option_map plain_proof proof
            ≡ option_and_then (λ proof. proof) (slice_get self.now at)) }
    {
        match self.items.get(at) {
            Some(Some(proof)) => Ok(Some(proof.copy(alloc)?)),
            _ => Ok(None),
        }
    }
}

fn open_all(
    alloc: Global,
    texts: &[KeptText],
    limit: usize,
    work: &mut Work,
) -> Result<List<Option<Shared<Signed>>>, WantOfMemory>
    ensures value { IfOk result (λ items. map (option_map plain_proof) items ≡ map (proof_of limit) texts.now) }
    ensures work { OnOk result (work.new ≡ more_proofs (length texts.now) work.old) }
    ensures few { WorkedAtMost 0 (length texts.now) work.old work.new }
{
    let mut items = List::new(alloc);
    'texts: for text in texts {
        let proof = open_one(alloc, text, limit, work)?;
        items.push(alloc, proof)?;
    }
    Ok(items)
}

#[tactic(auto, unfolding(st_ops::specs::Claim::proof_of))]
fn open_one(
    alloc: Global,
    text: &KeptText,
    limit: usize,
    work: &mut Work,
) -> Result<Option<Shared<Signed>>, WantOfMemory>
    ensures value { IfOk result (λ proof. option_map plain_proof proof ≡ proof_of limit text.now) }
    ensures counted { work.new ≡ one_proof work.old }
{
    match open_signed(alloc, text, limit, work) {
        Ok(signed) => Ok(Some(Shared::new(alloc, signed)?)),
        Err(SignedRefused::WantOfMemory) => Err(WantOfMemory),
        Err(_) => Ok(None),
    }
}

/// The context of an entry's files: the count of operations that the entry declares, and the limits
/// at its height.
#[derive(Clone, Copy, Debug)]
pub struct Context {
    pub count: u32,
    pub params: Params,
}

/// The opened signed texts of a core proof file.
#[derive(Drop)]
pub struct OpenedCore {
    pub recovers: Proofs,
    pub deactivates: Proofs,
}

/// A core index file, and what is known about the files that it names.
#[derive(Drop)]
pub struct CoreBranch {
    pub says: CoreIndex,
    pub proofs: Part<OpenedCore>,
    pub provisional: Part<ProvisionalBranch>,
}

/// A provisional index file, and what is known about the files that it names.
#[derive(Drop)]
pub struct ProvisionalBranch {
    pub says: ProvisionalIndex,
    pub proofs: Part<Proofs>,
    pub chunk: Part<Deltas>,
}

impl CoreBranch {
    /// A core index, before the files that it names are looked up.
    pub fn new(says: CoreIndex) -> CoreBranch
        ensures { result ≡ core_branch says }
    {
        let proofs = Part::named(says.core_proof);
        let provisional = Part::named(says.provisional);
        CoreBranch {
            says,
            proofs,
            provisional,
        }
    }
}

impl ProvisionalBranch {
    /// A provisional index, before the files that it names are looked up.
    pub fn new(says: ProvisionalIndex) -> ProvisionalBranch
        ensures { result ≡ provisional_branch says }
    {
        let proofs = Part::named(says.proof);
        let chunk = Part::Missing(says.chunk);
        ProvisionalBranch {
            says,
            proofs,
            chunk,
        }
    }
}
