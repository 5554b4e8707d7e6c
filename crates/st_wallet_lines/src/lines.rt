ghost use Rattle.std.specs.Prelude.{◌≡◌, refl, true, ◌<◌, ◌^◌};
ghost use Rattle.st_io.specs.Past.{storage};
ghost use Rattle.st_wallet.specs.Drafts.{IsFoundOn};
ghost use Rattle.st_drive.specs.OnDisk.{disk_meaning};
ghost use Rattle.st_drive.specs.Spending.{spending};
ghost use Rattle.st_drive.specs.Lines.{streams};
ghost use Rattle.st_wallet_lines.specs.Run.{WalletRun, kept_of_line, wallet_spender, machine_laws};

use st_base::Bytes;
use st_drive::{Machine, StepError, run_machine};
use st_io::{Disk, Sink, Source};
use st_wallet::{LONGEST_LINE, Wallet, WalletRefused};
use std::alloc::Global;
use std::marker::{Model, PhantomData};

/// A wallet that is driven by lines. It reads one byte more of a line than a line may have, to
/// recognize one that is too long. It belongs to the disk on which it was opened, which nobody else
/// may write to.
#[derive(Drop)]
pub struct WalletLines<D> {
    wallet: Wallet,
    disk: PhantomData<D>,
}

impl<D> Model for WalletLines<D> {
    ghost use Rattle.st_wallet.specs.Drafts.{coded_found, Found};

    ghost Value = { Found };

    ghost coded = { coded_found };

    ghost view = { λ l. l.wallet };
}

impl<D> WalletLines<D> {
    /// Lines for this wallet.
    pub fn new(wallet: Wallet) -> WalletLines<D>
        ensures { result ≡ wallet }
    {
        WalletLines {
            wallet,
            disk: PhantomData,
        }
    }
}

impl<D: Disk> Machine for WalletLines<D> {
    type Context = ();

    type Device = D;

    ghost meaning = { disk_meaning (spending wallet_spender) (record { reads = D.reads; past = D.past }) };

    ghost CAP = { kept_of_line };

    const CAP: usize = LONGEST_LINE + 1;

    ghost PROMPT = { true };

    const PROMPT: bool = true;

    ghost fits = { λ m c more. IsFoundOn (D.reads c.1) m };

    ghost faults = { λ c. D.faults c.1 };

    fn step(
        self,
        alloc: Global,
        _context: &mut (),
        device: &mut D,
        line: &[u8],
    ) -> Result<(WalletLines<D>, Bytes), StepError> {
        match self.wallet.step(alloc, device, line) {
            Ok((next, reply)) => Ok((WalletLines::new(next), reply)),
            Err(WalletRefused::DiskFault) => Err(StepError::DeviceFault),
            Err(WalletRefused::WantOfMemory) => Err(StepError::WantOfMemory),
        }
    }

    ghost fewer = { λ m c many few le fits. fits };

    ghost prompt = { λ now. refl };

    ghost laws = { machine_laws (record { reads = D.reads; past = D.past }) };
}

/// Opens the wallet of the disk, and answers the lines of a source of at most `limit` bytes.
///
/// Each reply is written before the next line is executed. The status is 4 only if the disk's count
/// of faults rose, and else that of `run_machine`. Clauses about replies and the disk hold if it
/// reveals its contents.
pub fn run_wallet<S: Source, K: Sink, D: Disk>(
    alloc: Global,
    limit: usize,
    source: &mut S,
    sink: &mut K,
    disk: &mut D,
) -> u8
    requires { limit < 2 ^ 62 }
    ensures { WalletRun limit (streams S.left S.faults source.old source.new K.written K.is_finished K.faults sink.old sink.new)
        (storage D.reads D.past D.faults disk.old disk.new) result }
{
    match Wallet::open(disk) {
        Ok(wallet) => {
            let lines = WalletLines::new(wallet);
            run_machine(alloc, limit, lines, &mut (), disk, source, sink)
        }
        Err(_) => 4,
    }
}
