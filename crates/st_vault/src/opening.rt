ghost use Rattle.std.specs.Prelude.{◌≡◌, ◌+◌, ◌≤◌, List, ℕ, length, take, IfOk, IsErrOf};
ghost use Rattle.st_base.specs.Answers.{Gives};
ghost use Rattle.st_io.specs.Past.{FaultHasCause, HasCause, Leaves, LeftSinceSync, Only, StaysAsItWas, KeepsSpent};
ghost use Rattle.st_io.specs.Histories.{IfTold};
ghost use Rattle.st_vault.specs.Image.{IsSpent, map_in, nonzero_from, one_past};
ghost use Rattle.st_vault.specs.Vault.{ReadsAs, key_of, opened, refusal_of};

use crate::layout::{MAP_AT, MOST_COUNTERS, OPEN_GATE, next_in, read_header};
use crate::vault::Vault;
use st_io::{Disk, Failed};
use st_lms::Secret;
use thiserror::Error;

/// The vault in a disk's contents after a sync. It allocates nothing, and computes no key.
///
/// The result is `Blank` if and only if the disk has fewer than 64 bytes or its gate is shut;
/// otherwise `Damaged` if and only if a type of the key is not known or the map is incomplete. It
/// is `DiskFault` only if the disk's count of faults rose. Nothing is written.
pub fn open_vault<D: Disk>(disk: &mut D) -> Result<Vault, OpenRefused>
    ensures gives { IfTold (D.reads disk.old) (λ image. Gives refusal_of (opened image) result) }
    ensures reads_as { IfOk result (ReadsAs (D.reads disk.new)) }
    ensures as_it_was { StaysAsItWas (D.reads disk.old) (D.reads disk.new) (D.past disk.old) (D.past disk.new) }
    ensures durable { (IsErrOf result OpenRefused.DiskFault → ⊥) → IfTold (D.reads disk.new) (Only (D.past disk.new)) }

    // From the first successful sync on, a stop leaves the earlier contents.
    ensures synced { IfTold (D.reads disk.old) (λ old. (image : List ℕ)
        → LeftSinceSync (D.past disk.new) (D.past disk.old).now image → image ≡ old) }
    ensures stays { KeepsSpent IsSpent (D.past disk.old) (D.past disk.new) }
    ensures cause { FaultHasCause OpenRefused.DiskFault (D.faults disk.old) (D.faults disk.new) result }
{
    disk.sync()?;
    open_synced(disk)
}

/// The vault of a disk whose only image is its contents.
fn open_synced<D: Disk>(disk: &mut D) -> Result<Vault, OpenRefused>
    requires { IfTold (D.reads disk.old) (Only (D.past disk.old)) }
    ensures gives { IfTold (D.reads disk.old) (λ image. Gives refusal_of (opened image) result) }
    ensures reads_as { IfOk result (ReadsAs (D.reads disk.new)) }
    ensures as_it_was { StaysAsItWas (D.reads disk.old) (D.reads disk.new) (D.past disk.old) (D.past disk.new) }
    ensures moments { IfTold (D.reads disk.old) (λ old. Leaves (λ image. image ≡ old) (D.past disk.old) (D.past disk.new)) }
    ensures cause { FaultHasCause OpenRefused.DiskFault (D.faults disk.old) (D.faults disk.new) result }
{
    let secret = read_key(disk)?;
    let next = read_next(disk, secret.leaf_count())?;
    Ok(Vault::new(secret, next))
}

fn no_head() -> [u8; 64]
    ensures { length result ≡ 64 }
{
    [0; 64]
}

/// The key of the vault in the disk's contents.
fn read_key<D: Disk>(disk: &mut D) -> Result<Secret, OpenRefused>
    ensures gives { IfTold (D.reads disk.old) (λ image. Gives refusal_of (key_of image) result) }
    ensures as_it_was { StaysAsItWas (D.reads disk.old) (D.reads disk.new) (D.past disk.old) (D.past disk.new) }
    ensures cause { FaultHasCause OpenRefused.DiskFault (D.faults disk.old) (D.faults disk.new) result }
{
    let len = disk.length()?;
    if len < MAP_AT {
        return Err(OpenRefused::Blank);
    }
    let mut head = no_head();
    disk.read_at(0, &mut head)?;
    match key_of_head(&head, len) {
        Ok(secret) => Ok(secret),
        Err(refused) => Err(refused),
    }
}

/// The key of an image of this length that starts with these 64 bytes.
fn key_of_head(head: &[u8], len: u64) -> Result<Secret, OpenRefused>
    requires head { length head.now ≡ 64 }
    requires long { 64 ≤ len }
    ensures gives { (image : List ℕ) → take 64 image ≡ head.now → length image ≡ len → Gives refusal_of (key_of image) result }
    ensures fault { IsErrOf result OpenRefused.DiskFault → ⊥ }
{
    if head[0] != OPEN_GATE {
        return Err(OpenRefused::Blank);
    }
    match read_header(&head[1..]) {
        Ok(secret) => {
            if len < MAP_AT + u64::from(secret.leaf_count()) {
                return Err(OpenRefused::Damaged);
            }
            Ok(secret)
        }
        Err(_) => Err(OpenRefused::Damaged),
    }
}

fn no_map() -> [u8; MOST_COUNTERS]
    ensures { length result ≡ 1024 }
{
    [0; MOST_COUNTERS]
}

/// The next counter, from a map for this many counters.
fn read_next<D: Disk>(disk: &mut D, count: u32) -> Result<u32, Failed>
    requires there { IfTold (D.reads disk.old) (λ image. 64 + count ≤ length image) }
    requires small { count ≤ 1024 }
    ensures next { IfOk result (λ next. IfTold (D.reads disk.old) (λ image. next ≡ one_past (nonzero_from 0 (map_in count image)))) }
    ensures small { IfOk result (λ next. next ≤ count) }
    ensures as_it_was { StaysAsItWas (D.reads disk.old) (D.reads disk.new) (D.past disk.old) (D.past disk.new) }
    ensures cause { HasCause (D.faults disk.old) (D.faults disk.new) result }
{
    let mut map = no_map();
    next_by(disk, &mut map[..count as usize])
}

/// The same, with room for the map.
fn next_by<D: Disk>(disk: &mut D, map: &mut [u8]) -> Result<u32, Failed>
    requires there { IfTold (D.reads disk.old) (λ image. 64 + length map.old ≤ length image) }
    requires small { length map.old ≤ 1024 }
    ensures next { IfOk result (λ next. IfTold (D.reads disk.old) (λ image. next ≡ one_past (nonzero_from 0 (map_in (length map.old) image)))) }
    ensures small { IfOk result (λ next. next ≤ length map.old) }
    ensures as_it_was { StaysAsItWas (D.reads disk.old) (D.reads disk.new) (D.past disk.old) (D.past disk.new) }
    ensures cause { HasCause (D.faults disk.old) (D.faults disk.new) result }
{
    disk.read_at(MAP_AT, map)?;
    Ok(next_in(map))
}

/// Why a disk is not opened as a vault.
#[derive(Clone, Copy, Debug, PartialEq, Eq, Error)]
pub enum OpenRefused {
    /// It has fewer than 64 bytes, or the gate is shut.
    #[error("the disk is blank")]
    Blank,
    /// The gate is open, and a type is not known or the map is incomplete.
    #[error("the vault is damaged")]
    Damaged,
    /// The disk failed.
    #[error("the disk has failed")]
    DiskFault,
}

impl From<Failed> for OpenRefused {
    ghost use Rattle.std.specs.Prelude.{◌≡◌};
    ghost use Rattle.st_vault.specs.declared.opening.OpenRefused.TheVariants.{DiskFault};

    ghost from_gives = { λ _ refused. refused ≡ DiskFault };

    fn from(_failed: Failed) -> OpenRefused {
        OpenRefused::DiskFault
    }
}
