#![tactic(auto, using(crate::proofs::StepLemmas::only_found, crate::proofs::StepLemmas::moments_standing, st_io::proofs::HistoryLemmas::keeps_standing))]

ghost use Rattle.std.specs.Prelude.{◌≡◌, IfErr, IfOk, Some};
ghost use Rattle.st_io.specs.Past.{FaultHasCause, storage};
ghost use Rattle.st_io.specs.Histories.{IfTold};
ghost use Rattle.st_vault.specs.Vault.{ReadsAs};
ghost use Rattle.st_wallet.specs.Command.{command_of, format_in};
ghost use Rattle.st_wallet.specs.Machine.{CountersAscend, SpentLieBelow, AnswersOrRefuses, AnswersWith, answered, answered_blank, answered_command, answered_draft, answered_format, answered_hss, answered_plan, asked_by, plan_of, OpensOn, StepsOn};
ghost use Rattle.st_wallet.specs.Drafts.{IsFoundOn};
ghost use Rattle.st_wallet.specs.Drafts.Found.{Blank, Damaged, Opened};
ghost use Rattle.st_wallet.specs.inside.Drafts.{HasInput};

use crate::command::{Command, LineRefused, read_command, secret_in};
use crate::draft::Draft;
use crate::planning::{Plan, plan_of};
use crate::replies::{cause_word, tell_formatted, tell_hss};
use crate::requests::request_by;
use crate::signing_vault::{SigningVault, WalletRefused};
use st_base::{Bytes, reply};
use st_hss::HssSignRefused;
use st_io::Disk;
use st_lms::Secret;
use st_vault::{FormatRefused, OpenRefused, ReserveRefused, VaultSigner, format_vault, open_vault};
use std::alloc::Global;
use std::marker::Model;

/// A wallet. Contracts see the state of its disk: blank, damaged, or a vault with its key and its
/// next counter.
///
/// It is passed from line to line with its disk, which nobody else may write to in between. After a
/// line has needed them it stores the nodes of its key's tree, 2,016 or 65,504 bytes, and after a
/// signature of two levels the data of `HssVault`, until a request is signed.
#[derive(Drop)]
pub struct Wallet {
    kept: Kept,
}

/// The state of a disk.
#[derive(Drop)]
pub(crate) enum Kept {
    Blank,
    Damaged,
    Vault(SigningVault),
}

impl Model for Wallet {
    ghost use Rattle.st_wallet.specs.Drafts.{coded_found, shown, Found};

    ghost Value = { Found };

    ghost coded = { coded_found };

    ghost view = { λ w. shown w.kept };
}

impl Wallet {
    fn blank() -> Wallet
        ensures { result ≡ Blank }
    {
        Wallet { kept: Kept::Blank }
    }

    fn damaged() -> Wallet
        ensures { result ≡ Damaged }
    {
        Wallet {
            kept: Kept::Damaged,
        }
    }

    fn of(vault: SigningVault) -> Wallet
        ensures { result ≡ Opened vault }
    {
        Wallet {
            kept: Kept::Vault(vault),
        }
    }

    /// The wallet of a disk, by its contents after a sync. It allocates nothing, and nothing is
    /// written.
    ///
    /// The only refusal is `DiskFault`, which is returned only if the disk's count of faults rose.
    pub fn open<D: Disk>(disk: &mut D) -> Result<Wallet, WalletRefused>
        ensures opens { OpensOn (storage D.reads D.past D.faults disk.old disk.new) result }
        ensures refused { IfErr result (λ refused. refused ≡ WalletRefused.DiskFault) }
        ensures cause { FaultHasCause WalletRefused.DiskFault (D.faults disk.old) (D.faults disk.new) result }
    {
        match open_vault(disk) {
            Ok(vault) => Ok(Wallet::of(SigningVault::new(vault))),
            Err(OpenRefused::Blank) => Ok(Wallet::blank()),
            Err(OpenRefused::Damaged) => Ok(Wallet::damaged()),
            Err(OpenRefused::DiskFault) => Err(WalletRefused::DiskFault),
        }
    }

    /// Answers a line, which is given without its line feed. The reply has its line end, and the
    /// returned wallet belongs to the disk as it is then.
    ///
    /// The result is `DiskFault` only if the disk's count of faults rose, and `WantOfMemory` if
    /// memory ran out. In both cases the wallet is lost and the disk must be opened again: its
    /// state is that before the line or after it, and a counter without a reply is lost. Everything
    /// is made before the counter is reserved, except the signature, the trees of a signature of
    /// two levels, and the text of the reply. The first line that needs a key, or a signed request,
    /// computes all leaves of the tree; the first signature of two levels those of two trees of
    /// height 5, and then one of 32 those of one. Otherwise a signature computes only its own
    /// chains.
    pub fn step<D: Disk>(
        self,
        alloc: Global,
        disk: &mut D,
        line: &[u8],
    ) -> Result<(Wallet, Bytes), WalletRefused>
        requires { IsFoundOn (D.reads disk.old) self }

        // The reply of the reference machine, and its next state, which is then that of the disk's
        // contents. On a disk that doesn't reveal them, a `format` may be refused instead.
        ensures answer { IfOk result (AnswersOrRefuses (D.reads disk.old) self
            (asked_by (command_of line.now)) (answered self line.now)) }
        ensures answer_told { IfTold (D.reads disk.old) (λ image.
            IfOk result (AnswersWith (answered self line.now))) }

        // What the line does to the disk: its counter is spent in every image when the reply is
        // given, and a stop at any moment leaves this wallet or the next one.
        ensures steps { StepsOn self (answered self line.now)
            (storage D.reads D.past D.faults disk.old disk.new) result }
        ensures cause { FaultHasCause WalletRefused.DiskFault (D.faults disk.old) (D.faults disk.new) result }
    {
        match read_command(alloc, line) {
            Ok(command) => self.carry_out(alloc, disk, command),
            Err(LineRefused::BadLine(cause)) => {
                let text = reply(alloc, "refused line ", cause_word(cause).as_bytes())?;
                Ok((self, text))
            }
            Err(LineRefused::WantOfMemory) => Err(WalletRefused::WantOfMemory),
        }
    }

    fn carry_out<D: Disk>(
        self,
        alloc: Global,
        disk: &mut D,
        command: Command,
    ) -> Result<(Wallet, Bytes), WalletRefused>
        requires { IsFoundOn (D.reads disk.old) self }
        ensures answer { IfOk result (AnswersOrRefuses (D.reads disk.old) self
            (format_in command) (answered_command self command)) }
        ensures answer_told { IfTold (D.reads disk.old) (λ image.
            IfOk result (AnswersWith (answered_command self command))) }
        ensures steps { StepsOn self (answered_command self command)
            (storage D.reads D.past D.faults disk.old disk.new) result }
        ensures cause { FaultHasCause WalletRefused.DiskFault (D.faults disk.old) (D.faults disk.new) result }
    {
        let Wallet { kept } = self;
        match kept {
            Kept::Blank => carry_out_blank(alloc, disk, command),
            Kept::Damaged => {
                let text = reply(alloc, "refused ", b"damaged")?;
                Ok((Wallet::damaged(), text))
            }
            Kept::Vault(vault) => carry_out_over(alloc, disk, vault, command),
        }
    }
}

fn carry_out_blank<D: Disk>(
    alloc: Global,
    disk: &mut D,
    command: Command,
) -> Result<(Wallet, Bytes), WalletRefused>
    requires { IsFoundOn (D.reads disk.old) Blank }
    ensures answer { IfOk result (AnswersOrRefuses (D.reads disk.old) Blank
        (format_in command) (answered_blank (format_in command))) }
    ensures answer_told { IfTold (D.reads disk.old) (λ image.
        IfOk result (AnswersWith (answered_blank (format_in command)))) }
    ensures steps { StepsOn Blank (answered_blank (format_in command))
        (storage D.reads D.past D.faults disk.old disk.new) result }
    ensures cause { FaultHasCause WalletRefused.DiskFault (D.faults disk.old) (D.faults disk.new) result }
{
    match secret_in(command) {
        Some(secret) => format(alloc, disk, secret),
        None => {
            let text = reply(alloc, "refused ", b"blank")?;
            Ok((Wallet::blank(), text))
        }
    }
}

// A `format` of a blank disk. The reply is made before the vault, so making a vault is always
// answered.
fn format<D: Disk>(
    alloc: Global,
    disk: &mut D,
    secret: Secret,
) -> Result<(Wallet, Bytes), WalletRefused>
    requires { IsFoundOn (D.reads disk.old) Blank }
    ensures answer { IfOk result (AnswersOrRefuses (D.reads disk.old) Blank
        (Some secret) (answered_format secret)) }
    ensures answer_told { IfTold (D.reads disk.old) (λ image.
        IfOk result (AnswersWith (answered_format secret))) }
    ensures steps { StepsOn Blank (answered_format secret)
        (storage D.reads D.past D.faults disk.old disk.new) result }
    ensures cause { FaultHasCause WalletRefused.DiskFault (D.faults disk.old) (D.faults disk.new) result }
{
    let signer = VaultSigner::new(alloc, &secret)?;
    let text = tell_formatted(alloc, &signer.public())?;
    match format_vault(disk, secret) {
        Ok(vault) => Ok((Wallet::of(SigningVault::with_signer(vault, signer)), text)),
        Err(FormatRefused::Formatted) => {
            let text = reply(alloc, "refused ", b"formatted")?;
            Ok((Wallet::blank(), text))
        }
        Err(FormatRefused::DiskFault) => Err(WalletRefused::DiskFault),
    }
}

fn carry_out_over<D: Disk>(
    alloc: Global,
    disk: &mut D,
    vault: SigningVault,
    command: Command,
) -> Result<(Wallet, Bytes), WalletRefused>
    requires { ReadsAs (D.reads disk.old) vault }
    ensures answer { IfOk result (AnswersWith (answered_plan vault (plan_of vault command))) }
    ensures steps { StepsOn (Opened vault) (answered_plan vault (plan_of vault command))
        (storage D.reads D.past D.faults disk.old disk.new) result }
    ensures cause { FaultHasCause WalletRefused.DiskFault (D.faults disk.old) (D.faults disk.new) result }
{
    let mut vault = vault;
    match plan_of(alloc, &mut vault, command)? {
        Plan::Tell(text) => Ok((Wallet::of(vault), text)),
        Plan::Sign(draft) => sign(alloc, disk, vault, draft),
        Plan::SignMessage(message) => sign_message(alloc, disk, vault, message),
    }
}

// The request for an operation, signed with the next counter. The counter is spent first.
fn sign<D: Disk>(
    alloc: Global,
    disk: &mut D,
    vault: SigningVault,
    draft: Draft,
) -> Result<(Wallet, Bytes), WalletRefused>
    requires reads { ReadsAs (D.reads disk.old) vault }
    requires input { HasInput draft }
    ensures answer { IfOk result (AnswersWith (answered_draft vault draft)) }
    ensures steps { StepsOn (Opened vault) (answered_draft vault draft)
        (storage D.reads D.past D.faults disk.old disk.new) result }
    ensures cause { FaultHasCause WalletRefused.DiskFault (D.faults disk.old) (D.faults disk.new) result }
{
    let (vault, signer) = vault.into_parts(alloc)?;
    match vault.reserve(disk) {
        Ok((vault, counter)) => {
            let text = request_by(alloc, counter, &signer, draft)?;
            Ok((Wallet::of(SigningVault::with_signer(vault, signer)), text))
        }
        Err(ReserveRefused::Exhausted(vault)) => {
            let text = reply(alloc, "refused ", b"exhausted")?;
            Ok((Wallet::of(SigningVault::with_signer(vault, signer)), text))
        }
        Err(ReserveRefused::DiskFault) => Err(WalletRefused::DiskFault),
    }
}

// The signature of a message with two levels. Its counter is spent first.
fn sign_message<D: Disk>(
    alloc: Global,
    disk: &mut D,
    vault: SigningVault,
    message: Bytes,
) -> Result<(Wallet, Bytes), WalletRefused>
    requires reads { ReadsAs (D.reads disk.old) vault }
    requires six { vault.key.tree ≡ 6 }
    ensures answer { IfOk result (AnswersWith (answered_hss vault message)) }
    ensures steps { StepsOn (Opened vault) (answered_hss vault message)
        (storage D.reads D.past D.faults disk.old disk.new) result }
    ensures cause { FaultHasCause WalletRefused.DiskFault (D.faults disk.old) (D.faults disk.new) result }
{
    let (hss, signer) = vault.into_hss();
    match hss.sign(alloc, disk, message.as_slice()) {
        Ok((hss, signature)) => {
            let text = tell_hss(alloc, &hss.public(), &signature)?;
            Ok((Wallet::of(SigningVault::with_hss(hss, signer)), text))
        }
        Err(HssSignRefused::Exhausted(hss)) => {
            let text = reply(alloc, "refused ", b"exhausted")?;
            Ok((Wallet::of(SigningVault::with_hss(hss, signer)), text))
        }
        Err(HssSignRefused::DiskFault) => Err(WalletRefused::DiskFault),
        Err(HssSignRefused::WantOfMemory) => Err(WalletRefused::WantOfMemory),
    }
}

/// No counter is used twice: over any lines the counters of the replies ascend, from the next
/// counter of the image on, and all counters spent in the image are below that.
pub fn counters_law()
    ensures ascend { CountersAscend }
    ensures below { SpentLieBelow }
{}
