ghost use Rattle.std.specs.Prelude.{◌≡◌, IfOk};
ghost use Rattle.st_ops.specs.Operation.{plain_operation, plain_proof};
ghost use Rattle.st_ops.specs.Request.{IsComplete};
ghost use Rattle.st_wallet.specs.Drafts.{operation_of, signed_by};
ghost use Rattle.st_wallet.specs.inside.Drafts.{HasInput};
ghost use Rattle.st_wallet.specs.Machine.{request_reply};

use crate::draft::{Change, Draft};
use crate::replies::tell_request;
use st_base::{Bytes, KeptText, Shared, WantOfMemory};
use st_indexfiles::Target;
use st_jws::{Signed, join_signed};
use st_ops::Operation;
use st_vault::{Counter, VaultSigner};
use std::alloc::Global;

/// The reply with the request for an operation, signed with this counter. The signer has its key.
pub(crate) fn request_by(
    alloc: Global,
    counter: Counter,
    signer: &VaultSigner,
    draft: Draft,
) -> Result<Bytes, WantOfMemory>
    requires key { signer.now ≡ counter.key }
    requires input { HasInput draft }
    ensures { IfOk result (λ text.
        text ≡ request_reply (signed_by counter.key counter.number draft)) }
{
    let operation = sign(alloc, counter, signer, draft)?;
    tell_request(alloc, &operation)
}

fn sign(
    alloc: Global,
    counter: Counter,
    signer: &VaultSigner,
    draft: Draft,
) -> Result<Operation, WantOfMemory>
    requires key { signer.now ≡ counter.key }
    requires input { HasInput draft }
    ensures value { IfOk result (λ operation.
        plain_operation operation ≡ signed_by counter.key counter.number draft) }
    ensures complete { IfOk result (λ operation. IsComplete (plain_operation operation)) }
{
    let Draft {
        target,
        key,
        payload,
        input,
        change,
    } = draft;
    let signature = counter.sign_with(alloc, signer, input.as_slice())?;
    let text = KeptText::new(join_signed(alloc, &input, &signature)?);
    let proof = Shared::new(alloc, Signed { text, payload, key })?;
    Ok(with_proof(target, change, proof))
}

fn with_proof(target: Target, change: Change, proof: Shared<Signed>) -> Operation
    ensures value { plain_operation result ≡ operation_of target change (plain_proof proof) }
    ensures complete { IsComplete (plain_operation result) }
{
    let Target { suffix, reveal } = target;
    match change {
        Change::Update(delta) => Operation::Update {
            suffix,
            reveal,
            proof: Some(proof),
            delta: Some(delta),
        },
        Change::Recover(delta) => Operation::Recover {
            suffix,
            reveal,
            proof: Some(proof),
            delta: Some(delta),
        },
        Change::Deactivate => Operation::Deactivate {
            suffix,
            reveal,
            proof: Some(proof),
        },
    }
}
