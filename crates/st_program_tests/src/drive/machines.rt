// The machine of the tests.
ghost use Rattle.std.specs.Prelude.{◌≡◌, ◌+◌, ◌%◌, ⊤, false, IfOk};
ghost use Rattle.st_drive.specs.inside.Parts.{numbered_reply, numbered_meaning, numbered_laws};

use st_base::{Bytes, WantOfMemory};
use st_drive::{Machine, StepError};
use std::alloc::Global;
use std::marker::Model;

// How many lines may still be answered, before the device fails.
#[derive(Drop)]
pub struct Allowance {
    left: u64,
    faults: u64,
}

impl Model for Allowance {
    ghost use Rattle.st_drive.specs.inside.Parts.{Allowance as Allowed};

    ghost Value = { Allowed };

    ghost view = { λ a. record { left = a.left; faults = a.faults } };
}

impl Allowance {
    pub fn new(left: u64) -> Self {
        Allowance { left, faults: 0 }
    }

    pub fn left(&self) -> u64 {
        self.left
    }
}

// Numbers the lines by one digit, and shows the first four bytes of each.
#[derive(Drop)]
pub struct Numbered {
    digit: u8,
}

impl Model for Numbered {
    ghost use Rattle.std.specs.Prelude.{ℕ, ◌<◌};

    ghost Value = { ℕ };

    ghost view = { λ n. n.digit };

    ghost invariant = { λ n. n.digit < 10 };
}

impl Numbered {
    pub fn new() -> Self
        ensures { result ≡ 0 }
    {
        Numbered { digit: 0 }
    }

    fn next(self) -> Self
        ensures { result ≡ (self + 1) % 10 }
    {
        Numbered {
            digit: (self.digit + 1) % 10,
        }
    }

    fn reply(&self, alloc: Global, line: &[u8]) -> Result<Bytes, WantOfMemory>
        ensures { IfOk result (λ reply. reply ≡ numbered_reply self.now line.now) }
    {
        let mut reply = Bytes::from_slice(alloc, &[b'0' + self.digit])?;
        reply.push_all(alloc, &line[..line.len().min(4)])?;
        reply.push_all(alloc, b"\n")?;
        Ok(reply)
    }
}

impl Machine for Numbered {
    type Context = Allowance;

    type Device = ();

    ghost meaning = { numbered_meaning };

    ghost CAP = { 4 };

    const CAP: usize = 4;

    ghost PROMPT = { false };

    const PROMPT: bool = false;

    ghost fits = { λ _ _ _. ⊤ };

    ghost faults = { λ c. c.0.faults };

    fn step(
        self,
        alloc: Global,
        context: &mut Allowance,
        _device: &mut (),
        line: &[u8],
    ) -> Result<(Self, Bytes), StepError> {
        let reply = match self.reply(alloc, line) {
            Ok(reply) => reply,
            Err(_) => return Err(StepError::WantOfMemory),
        };
        if context.left == 0 {
            context.faults = context.faults.saturating_add(1);
            return Err(StepError::DeviceFault);
        }
        context.left -= 1;
        Ok((self.next(), reply))
    }

    ghost fewer = { λ m c many few le fits. fits };

    ghost prompt = { λ never. absurd never };

    ghost laws = { numbered_laws };
}
