ghost use Rattle.std.specs.Prelude.{◌≡◌, Err, IfOk, IsSome, OnOk};
ghost use Rattle.st_lms.specs.Signature.{public_of};
ghost use Rattle.st_wallet.specs.Drafts.{deactivate_asked, recover_asked, update_asked, key_with};
ghost use Rattle.st_wallet.specs.inside.Drafts.{refusal_of};
ghost use Rattle.st_vault.specs.Image.{VaultValue};
ghost use Rattle.st_wallet.specs.Machine.{create_reply, key_reply, left_reply, plan_of, planned, planned_hss};
ghost use Rattle.st_wallet.specs.inside.Machine.{IsReady};

use crate::command::{Command, Nonce};
use crate::draft::{Draft, DraftRefused, create, draft_deactivate, draft_recover, draft_update};
use crate::replies::{tell_key, tell_request};
use crate::signing_vault::SigningVault;
use itoa::Buffer;
use st_base::{Bytes, WantOfMemory, reply};
use st_jws::Jwk;
use std::alloc::Global;

/// The LMS type of a vault that signs with two levels.
const HSS_TREE: u32 = 6;

/// The plan of a command over a vault, before the disk is called.
#[derive(Drop)]
pub(crate) enum Plan {
    /// This reply, and nothing changes.
    Tell(Bytes),
    /// A request for this operation, after it is signed.
    Sign(Draft),
    /// The signature of this message with two levels.
    SignMessage(Bytes),
}

/// The plan of the command. It computes only what the command needs of the vault.
pub(crate) fn plan_of(
    alloc: Global,
    vault: &mut SigningVault,
    command: Command,
) -> Result<Plan, WantOfMemory>
    ensures value { IfOk result (λ plan. plan ≡ plan_of vault.old command) }
    ensures ready { IfOk result (IsReady vault.old) }
    ensures same { vault.new ≡ vault.old }
{
    match command {
        Command::Format(_) => Ok(Plan::Tell(reply(alloc, "refused ", b"formatted")?)),
        Command::Key(nonce) => Ok(Plan::Tell(tell_nonce(alloc, vault, nonce)?)),
        Command::Left => Ok(Plan::Tell(tell_left(alloc, vault)?)),
        Command::Create { nonce, delta } => {
            Ok(Plan::Tell(tell_create(alloc, vault, nonce, &delta)?))
        }
        Command::Update {
            suffix,
            nonce,
            delta,
        } => plan_update(alloc, vault, &suffix, nonce, &delta),
        Command::Recover {
            suffix,
            nonce,
            next,
            delta,
        } => plan_recover(alloc, vault, &suffix, nonce, next, &delta),
        Command::Deactivate { suffix, nonce } => plan_deactivate(alloc, vault, &suffix, nonce),
        Command::SignHss(message) => plan_hss(alloc, vault, message),
    }
}

fn tell_nonce(alloc: Global, vault: &mut SigningVault, nonce: Nonce) -> Result<Bytes, WantOfMemory>
    ensures value { IfOk result (λ text. text ≡ key_reply (key_with (public_of vault.old.key) nonce)) }
    ensures same { vault.new ≡ vault.old }
{
    let public = vault.public(alloc)?;
    tell_key(alloc, &Jwk { public, nonce })
}

fn tell_left(alloc: Global, vault: &SigningVault) -> Result<Bytes, WantOfMemory>
    ensures { IfOk result (λ text. text ≡ left_reply vault.now) }
{
    let left = vault.left();
    reply(alloc, "left ", Buffer::new().format(left).as_bytes())
}

fn tell_create(
    alloc: Global,
    vault: &mut SigningVault,
    nonce: Nonce,
    delta: &Bytes,
) -> Result<Bytes, WantOfMemory>
    ensures value { IfOk result (λ text.
        text ≡ create_reply (public_of vault.old.key) nonce delta.now) }
    ensures same { vault.new ≡ vault.old }
{
    match create(alloc, vault, nonce, delta.as_slice()) {
        Ok(operation) => tell_request(alloc, &operation),
        Err(DraftRefused::BadHash) => reply(alloc, "refused ", b"badHash"),
        Err(DraftRefused::NotJson) => reply(alloc, "refused ", b"notJson"),
        Err(DraftRefused::NotWhole) => reply(alloc, "refused ", b"notWhole"),
        Err(DraftRefused::BadDelta) => reply(alloc, "refused ", b"badDelta"),
        Err(DraftRefused::WantOfMemory) => Err(WantOfMemory),
    }
}

fn plan_update(
    alloc: Global,
    vault: &mut SigningVault,
    suffix: &Bytes,
    nonce: Nonce,
    delta: &Bytes,
) -> Result<Plan, WantOfMemory>
    ensures value { IfOk result (λ plan.
        plan ≡ planned (update_asked (public_of vault.old.key) suffix.now nonce delta.now)) }
    ensures ready { IfOk result (IsReady vault.old) }
    ensures same { vault.new ≡ vault.old }
{
    match draft_update(alloc, vault, suffix.as_slice(), nonce, delta.as_slice()) {
        Ok(draft) => Ok(Plan::Sign(draft)),
        Err(refused) => refuse(alloc, refused),
    }
}

fn plan_recover(
    alloc: Global,
    vault: &mut SigningVault,
    suffix: &Bytes,
    nonce: Nonce,
    next: Nonce,
    delta: &Bytes,
) -> Result<Plan, WantOfMemory>
    ensures value { IfOk result (λ plan.
        plan ≡ planned (recover_asked (public_of vault.old.key) suffix.now nonce next delta.now)) }
    ensures ready { IfOk result (IsReady vault.old) }
    ensures same { vault.new ≡ vault.old }
{
    match draft_recover(
        alloc,
        vault,
        suffix.as_slice(),
        nonce,
        next,
        delta.as_slice(),
    ) {
        Ok(draft) => Ok(Plan::Sign(draft)),
        Err(refused) => refuse(alloc, refused),
    }
}

fn plan_deactivate(
    alloc: Global,
    vault: &mut SigningVault,
    suffix: &Bytes,
    nonce: Nonce,
) -> Result<Plan, WantOfMemory>
    ensures value { IfOk result (λ plan.
        plan ≡ planned (deactivate_asked (public_of vault.old.key) suffix.now nonce)) }
    ensures ready { IfOk result (IsReady vault.old) }
    ensures same { vault.new ≡ vault.old }
{
    match draft_deactivate(alloc, vault, suffix.as_slice(), nonce) {
        Ok(draft) => Ok(Plan::Sign(draft)),
        Err(refused) => refuse(alloc, refused),
    }
}

fn plan_hss(alloc: Global, vault: &SigningVault, message: Bytes) -> Result<Plan, WantOfMemory>
    ensures value { IfOk result (λ plan. plan ≡ planned_hss vault.now message) }
    ensures ready { IfOk result (IsReady vault.now) }
{
    if vault.tree() != HSS_TREE {
        return Ok(Plan::Tell(reply(alloc, "refused ", b"tree")?));
    }
    Ok(Plan::SignMessage(message))
}

// The reply with the cause of a refusal, unless it is running out of memory.
fn refuse(alloc: Global, refused: DraftRefused) -> Result<Plan, WantOfMemory>
    ensures value { IfOk result (λ plan. plan ≡ planned (Err refused)) }
    ensures known { OnOk result (IsSome (refusal_of refused)) }
    ensures ready { (vault : VaultValue) → IfOk result (IsReady vault) }
{
    match refused {
        DraftRefused::BadHash => Ok(Plan::Tell(reply(alloc, "refused ", b"badHash")?)),
        DraftRefused::NotJson => Ok(Plan::Tell(reply(alloc, "refused ", b"notJson")?)),
        DraftRefused::NotWhole => Ok(Plan::Tell(reply(alloc, "refused ", b"notWhole")?)),
        DraftRefused::BadDelta => Ok(Plan::Tell(reply(alloc, "refused ", b"badDelta")?)),
        DraftRefused::WantOfMemory => Err(WantOfMemory),
    }
}
