ghost use Rattle.std.specs.Prelude.{◌≡◌, ◌+◌, ◌≤◌, ℕ, Bool, true, List, [], ◌∷◌, ◌++◌, length, IfOk, OnErr, IsErrOf};
ghost use Rattle.st_io.specs.Past.{Rose};
ghost use Rattle.st_drive.specs.Lines.{Meaning, Laws, Fewer, FitsAfter};

use st_base::{Bytes, WantOfMemory};
use std::alloc::Global;
use thiserror::Error;

/// Why a run ends before all its lines are answered.
#[derive(Clone, Copy, Debug, Drop, PartialEq, Eq, Error)]
pub enum Stop {
    /// The source failed.
    #[error("the input could not be read")]
    ReadFault,
    /// The sink failed.
    #[error("the output could not be written")]
    WriteFault,
    /// The machine's device failed.
    #[error("a device failed")]
    DeviceFault,
    /// The source gave more bytes than the limit.
    #[error("the input is too long")]
    OverLimit,
    /// Out of memory.
    #[error("out of memory")]
    WantOfMemory,
}

impl From<WantOfMemory> for Stop {
    ghost use Rattle.std.specs.Prelude.{◌≡◌};
    ghost use Rattle.st_drive.specs.declared.machine.Stop.TheVariants.{WantOfMemory};

    ghost from_gives = { λ _ stop. stop ≡ WantOfMemory };

    fn from(_want: WantOfMemory) -> Stop {
        Stop::WantOfMemory
    }
}

/// Why a machine gives up at a line.
#[derive(Clone, Copy, Debug, Drop, PartialEq, Eq, Error)]
pub enum StepError {
    /// Out of memory.
    #[error("out of memory")]
    WantOfMemory,
    /// The device failed.
    #[error("a device failed")]
    DeviceFault,
}

impl From<WantOfMemory> for StepError {
    ghost use Rattle.std.specs.Prelude.{◌≡◌};
    ghost use Rattle.st_drive.specs.declared.machine.StepError.TheVariants.{WantOfMemory};

    ghost from_gives = { λ _ error. error ≡ WantOfMemory };

    fn from(_want: WantOfMemory) -> StepError {
        StepError::WantOfMemory
    }
}

/// A machine that answers lines, one after another.
///
/// Its meaning defines its replies and its effects on its context and device over whole lists of
/// lines, and its laws relate the two.
pub trait Machine: Sized + Drop {
    /// What the machine uses but doesn't own, such as a counter of work.
    type Context;

    /// What it works on but doesn't own, such as a disk. A machine without one has `()`.
    type Device;

    /// Its replies to lines, and its effects on its context and its device over them.
    ghost meaning: { Meaning Self (Self.Context × Self.Device) };

    /// How many bytes of a line it reads.
    ghost CAP: { ℕ };

    /// How many bytes of a line it reads: the others are skipped.
    const CAP: usize;

    /// Each reply is written before the next line is executed, so that after a stop at most one
    /// executed line has no reply.
    ghost PROMPT: { Bool };

    /// Each reply is written before the next line is executed. Otherwise replies are buffered, so
    /// that many short ones become one write.
    const PROMPT: bool;

    /// The machine may continue with this context and this device over lines of this many bytes,
    /// counting a byte for the end of each.
    ghost fits: { Self → Self.Context × Self.Device → ℕ → Type 0 };

    /// How often they have failed. It never falls, and stays at `u64::MAX`.
    ghost faults: { Self.Context × Self.Device → ℕ };

    /// Answers one line with a reply, and returns the next machine.
    ///
    /// The result is `DeviceFault` only if the count of faults rose. It may run out of memory. The
    /// reply is that of the meaning if that is revealed, for example if the device reveals its
    /// contents.
    fn step(
        self,
        alloc: Global,
        context: &mut Self::Context,
        device: &mut Self::Device,
        line: &[u8],
    ) -> Result<(Self, Bytes), StepError>
        requires { fits self (context.old, device.old) (length line.now + 1) }
        ensures reply { IfOk result (λ done. meaning.told (context.old, device.old) → (more : List (List ℕ))
            → meaning.answers self (line.now ∷ more) ≡ done.1 ++ meaning.answers done.0 more) }
        ensures ran { IfOk result
            (λ done. meaning.ran self (context.old, device.old) (line.now ∷ []) done.0 (context.new, device.new)) }
        ensures fits { IfOk result (λ done. FitsAfter fits self (context.old, device.old) (length line.now + 1)
            done.0 (context.new, device.new)) }
        ensures gave_up { OnErr result
            (meaning.gave_up self (context.old, device.old) (line.now ∷ []) (context.new, device.new)) }
        ensures later { faults (context.old, device.old) ≤ faults (context.new, device.new) }
        ensures cause { IsErrOf result StepError.DeviceFault
            → Rose (faults (context.old, device.old)) (faults (context.new, device.new)) };

    /// If it may continue over some bytes, it may over fewer.
    ghost fewer: { Fewer fits };

    /// It is prompt if its meaning is.
    ghost prompt: { meaning.prompt → PROMPT ≡ true };

    /// The laws of its meaning.
    ghost laws: { Laws meaning CAP };
}
