ghost use Rattle.std.specs.Prelude.{◌≡◌, ◌+◌, ◌≤◌, ◌++◌, ◌∷◌, List, ℕ, length, take, drop, IsSome, IfOk, OnOk, IsErrOf, Err};
ghost use Rattle.st_base.specs.Answers.{Gives};
ghost use Rattle.st_io.specs.Past.{FaultHasCause, HasCause, AddsNoImage, Leaves, LeftSinceSync, Only, StaysAsItWas, KeepsSpent};
ghost use Rattle.st_io.specs.Histories.{IfTold, Turns};
ghost use Rattle.st_lms.specs.Tree.{SecretKey, IsSecretKey};
ghost use Rattle.st_vault.specs.Formatting.{formatted, formatted_image, behind_gate, unformatted, refusal_of, zeros, IsBlankOrNew, IsFresh, IsNew, IsOldOrFresh};
ghost use Rattle.st_vault.specs.Image.{IsSpent, header_of, kind_of, open_gate, count_of, new_vault};
ghost use Rattle.st_vault.specs.Image.Kind.{Blank};
ghost use Rattle.st_vault.specs.Vault.{AllOpenAs, ReadsAs};
ghost use Rattle.st_vault.specs.inside.Formatting.{IsFilled, IsOldOrBlank, IsShut, OpensTo, Begins};

use crate::layout::{HEADER_AT, MAP_AT, MOST_COUNTERS, OPEN_GATE, SHUT_GATE, write_header};
use crate::opening::OpenRefused;
use crate::vault::Vault;
use st_io::{Disk, Failed, write_synced};
use st_lms::Secret;
use thiserror::Error;

/// Makes a new vault of a key on a blank disk, and returns it. It allocates nothing, and computes
/// no key.
///
/// The result is `Formatted` if and only if the disk's contents, after a sync, have at least 64
/// bytes and an open gate; then nothing is written. It is `DiskFault` only if the disk's count of
/// faults rose: the disk may then be unchanged, blank, or the new vault; open it to find out.
pub fn format_vault<D: Disk>(disk: &mut D, secret: Secret) -> Result<Vault, FormatRefused>
    ensures gives { IfTold (D.reads disk.old) (λ old. Gives refusal_of (formatted secret old) result) }
    ensures value { IfOk result (λ vault. vault ≡ new_vault secret) }
    ensures untouched { IsErrOf result FormatRefused.Formatted
        → (D.reads disk.new ≡ D.reads disk.old) × AddsNoImage (D.past disk.old) (D.past disk.new) }

    // An open gate, the header, zeros up to the end of the map, and then the earlier bytes: these
    // are the contents afterwards. They are the returned vault, also after a stop.
    ensures written { OnOk result (Turns (D.reads disk.old) (D.reads disk.new) (λ old image. image ≡ formatted_image secret old)) }
    ensures reads { IfOk result (ReadsAs (D.reads disk.new)) }
    ensures told { OnOk result (IfTold (D.reads disk.old) (λ old. IsSome (D.reads disk.new))) }
    ensures durable { OnOk result (IfTold (D.reads disk.new) (Only (D.past disk.new))) }

    // A refusal of this kind follows a successful sync: a stop leaves the contents.
    ensures settled { IsErrOf result FormatRefused.Formatted → IfTold (D.reads disk.new) (Only (D.past disk.new)) }

    // Counters that were spent in every image stay so at each moment of the call.
    ensures stays { IfTold (D.reads disk.old) (λ old. KeepsSpent IsSpent (D.past disk.old) (D.past disk.new)) }

    // If a stop before the call leaves a blank disk, a stop at any moment of it leaves that or the
    // new vault.
    ensures moments { IfTold (D.reads disk.old) (λ old. AllOpenAs (Err OpenRefused.Blank) (D.past disk.old)
        → Leaves (IsBlankOrNew secret) (D.past disk.old) (D.past disk.new)) }

    // On a blank disk every image is blank or the new vault, at each moment from the first
    // successful sync on.
    ensures fresh { IfTold (D.reads disk.old) (λ old. kind_of old ≡ Blank → (image : List ℕ)
        → LeftSinceSync (D.past disk.new) (D.past disk.old).now image → IsFresh secret image) }
    // On any disk every image is the earlier contents or, if these were blank, as in `fresh`, at
    // each moment from the first successful sync on.
    ensures synced { IfTold (D.reads disk.old) (λ old. (image : List ℕ)
        → LeftSinceSync (D.past disk.new) (D.past disk.old).now image → IsOldOrFresh secret old image) }
    ensures cause { FaultHasCause FormatRefused.DiskFault (D.faults disk.old) (D.faults disk.new) result }
{
    disk.sync()?;
    format_synced(disk, &secret)?;
    Ok(Vault::new(secret, 0))
}

/// Formats a disk whose only image is its contents.
fn format_synced<D: Disk>(disk: &mut D, secret: &Secret) -> Result<(), FormatRefused>
    requires { IfTold (D.reads disk.old) (Only (D.past disk.old)) }
    ensures gives { IfTold (D.reads disk.old) (λ old. Gives refusal_of (unformatted old) result) }
    ensures untouched { IsErrOf result FormatRefused.Formatted
        → (D.reads disk.new ≡ D.reads disk.old) × AddsNoImage (D.past disk.old) (D.past disk.new) }
    ensures new { OnOk result (Turns (D.reads disk.old) (D.reads disk.new) (λ old image. IsNew secret.now image)) }
    ensures written { OnOk result (Turns (D.reads disk.old) (D.reads disk.new) (λ old image. image ≡ formatted_image secret.now old)) }
    ensures durable { OnOk result (IfTold (D.reads disk.new) (Only (D.past disk.new))) }
    ensures settled { IsErrOf result FormatRefused.Formatted → IfTold (D.reads disk.new) (Only (D.past disk.new)) }
    ensures moments { IfTold (D.reads disk.old) (λ old. Leaves (IsOldOrFresh secret.now old) (D.past disk.old) (D.past disk.new)) }
    ensures cause { FaultHasCause FormatRefused.DiskFault (D.faults disk.old) (D.faults disk.new) result }
{
    shut_gate(disk)?;
    make(disk, secret)?;
    Ok(())
}

/// The state of a disk before it is formatted.
#[derive(Clone, Copy, Debug, PartialEq, Eq)]
enum Start {
    /// It has at least 64 bytes, and the gate is open.
    Formatted,
    /// It has fewer than 64 bytes.
    Short,
    /// The gate is shut.
    Shut,
}

fn look<D: Disk>(disk: &mut D) -> Result<Start, Failed>
    ensures begins { IfOk result (λ start. IfTold (D.reads disk.old) (Begins start)) }
    ensures as_it_was { StaysAsItWas (D.reads disk.old) (D.reads disk.new) (D.past disk.old) (D.past disk.new) }
    ensures cause { HasCause (D.faults disk.old) (D.faults disk.new) result }
{
    let len = disk.length()?;
    if len == 0 {
        return Ok(Start::Short);
    }
    let mut gate = [0; 1];
    disk.read_at(0, &mut gate)?;
    if gate[0] != OPEN_GATE {
        return Ok(Start::Shut);
    }
    if len < MAP_AT {
        return Ok(Start::Short);
    }
    Ok(Start::Formatted)
}

/// Makes sure that there is a gate and that it is shut: over too few bytes it is written so.
fn shut_gate<D: Disk>(disk: &mut D) -> Result<(), FormatRefused>
    requires { IfTold (D.reads disk.old) (Only (D.past disk.old)) }
    ensures gives { IfTold (D.reads disk.old) (λ old. Gives refusal_of (unformatted old) result) }
    ensures untouched { IsErrOf result FormatRefused.Formatted
        → (D.reads disk.new ≡ D.reads disk.old) × AddsNoImage (D.past disk.old) (D.past disk.new) }
    ensures shut { OnOk result (Turns (D.reads disk.old) (D.reads disk.new) (λ old image. IsShut image)) }
    ensures same { OnOk result (Turns (D.reads disk.old) (D.reads disk.new) (λ old image. drop 1 image ≡ drop 1 old)) }
    ensures durable { OnOk result (IfTold (D.reads disk.new) (Only (D.past disk.new))) }
    ensures settled { IsErrOf result FormatRefused.Formatted → IfTold (D.reads disk.new) (Only (D.past disk.new)) }
    ensures moments { IfTold (D.reads disk.old) (λ old. Leaves (IsOldOrBlank old) (D.past disk.old) (D.past disk.new)) }
    ensures cause { FaultHasCause FormatRefused.DiskFault (D.faults disk.old) (D.faults disk.new) result }
{
    match look(disk)? {
        Start::Formatted => Err(FormatRefused::Formatted),
        Start::Short => {
            write_synced(disk, 0, &[SHUT_GATE])?;
            Ok(())
        }
        Start::Shut => Ok(()),
    }
}

/// Writes a whole vault over a gate that is shut.
fn make<D: Disk>(disk: &mut D, secret: &Secret) -> Result<(), Failed>
    requires { IfTold (D.reads disk.old) (λ old. IsShut old × Only (D.past disk.old) old) }
    ensures new { OnOk result (Turns (D.reads disk.old) (D.reads disk.new) (λ old image. IsNew secret.now image)) }
    ensures written { OnOk result (Turns (D.reads disk.old) (D.reads disk.new) (λ old image. image ≡ formatted_image secret.now old)) }
    ensures durable { OnOk result (IfTold (D.reads disk.new) (Only (D.past disk.new))) }
    ensures moments { IfTold (D.reads disk.old) (λ old. Leaves (IsFresh secret.now) (D.past disk.old) (D.past disk.new)) }
    ensures cause { HasCause (D.faults disk.old) (D.faults disk.new) result }
{
    fill(disk, secret)?;
    open_gate(disk)
}

/// Writes everything after a shut gate. A stop leaves the gate unchanged.
fn fill<D: Disk>(disk: &mut D, secret: &Secret) -> Result<(), Failed>
    requires { IfTold (D.reads disk.old) (λ old. IsShut old × Only (D.past disk.old) old) }
    ensures filled { OnOk result (Turns (D.reads disk.old) (D.reads disk.new) (λ old image. IsFilled secret.now image)) }
    ensures written { OnOk result (Turns (D.reads disk.old) (D.reads disk.new) (λ old image. drop 1 image ≡ behind_gate secret.now old)) }
    ensures durable { OnOk result (IfTold (D.reads disk.new) (Only (D.past disk.new))) }
    ensures moments { IfTold (D.reads disk.old) (λ old. Leaves (λ image. kind_of image ≡ Blank) (D.past disk.old) (D.past disk.new)) }
    ensures cause { HasCause (D.faults disk.old) (D.faults disk.new) result }
{
    let mut row = no_row();
    let len = fill_row(&mut row, secret);
    write_synced(disk, HEADER_AT, &row[..len])
}

/// Room for everything after the gate, with the largest map.
const ROW_LEN: usize = 63 + MOST_COUNTERS;

#[tactic(auto, unfolding(crate::specs::Formatting::zeros))]
fn no_row() -> [u8; ROW_LEN]
    ensures { result ≡ zeros 1087 }
{
    [0; ROW_LEN]
}

/// Overwrites the first bytes of a row.
fn begin_with(row: &mut [u8], bytes: &[u8])
    requires { length bytes.now ≤ length row.old }
    ensures { row.new ≡ bytes.now ++ drop (length bytes.now) row.old }
{
    row[..bytes.len()].copy_from_slice(bytes);
}

/// Writes the header of a key into a row of zeros, and returns how much of the row a vault has
/// after its gate: up to the end of the map.
fn fill_row(row: &mut [u8], secret: &Secret) -> usize
    requires long { length row.old ≡ 1087 }
    requires zeros { row.old ≡ zeros 1087 }
    ensures known { IsSecretKey secret.now }
    ensures len { result ≤ 1087 }
    ensures bytes { take result row.new ≡ header_of secret.now ++ zeros (7 + count_of secret.now) }
{
    begin_with(row, &write_header(secret));
    63 + secret.leaf_count() as usize
}

/// Opens the gate. If everything after it is written, a stop leaves it shut, or open over a new
/// vault.
fn open_gate<D: Disk>(disk: &mut D) -> Result<(), Failed>
    requires { IfTold (D.reads disk.old) (Only (D.past disk.old)) }
    ensures opens { OnOk result (Turns (D.reads disk.old) (D.reads disk.new) OpensTo) }
    ensures written { OnOk result (Turns (D.reads disk.old) (D.reads disk.new) (λ old image. image ≡ open_gate ∷ drop 1 old)) }
    ensures durable { OnOk result (IfTold (D.reads disk.new) (Only (D.past disk.new))) }
    ensures moments { IfTold (D.reads disk.old) (λ old. (key : SecretKey) → IsFilled key old
        → Leaves (IsFresh key) (D.past disk.old) (D.past disk.new)) }
    ensures cause { HasCause (D.faults disk.old) (D.faults disk.new) result }
{
    write_synced(disk, 0, &[OPEN_GATE])
}

/// Why a disk is not formatted.
#[derive(Clone, Copy, Debug, PartialEq, Eq, Error)]
pub enum FormatRefused {
    /// It has at least 64 bytes, and the gate is open.
    #[error("the disk is formatted")]
    Formatted,
    /// The disk failed.
    #[error("the disk has failed")]
    DiskFault,
}

impl From<Failed> for FormatRefused {
    ghost use Rattle.std.specs.Prelude.{◌≡◌};
    ghost use Rattle.st_vault.specs.declared.formatting.FormatRefused.TheVariants.{DiskFault};

    ghost from_gives = { λ _ refused. refused ≡ DiskFault };

    fn from(_failed: Failed) -> FormatRefused {
        FormatRefused::DiskFault
    }
}
