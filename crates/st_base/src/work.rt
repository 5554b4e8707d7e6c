ghost use Rattle.std.specs.Prelude.{◌≡◌};
ghost use Rattle.st_base.specs.Work.{no_work, one_file, one_proof, one_apply};

use std::marker::Model;

/// How much work was done: files read, signed texts opened, operations applied.
///
/// A count stays at `u64::MAX` after it gets there. `new` requires the runtime, which only `main`
/// and tests have, so no library makes its own counter, and a counter can't be copied.
#[derive(Debug, Drop)]
pub struct Work {
    files: u64,
    proofs: u64,
    applies: u64,
}

impl Model for Work {
    ghost use Rattle.st_base.specs.Work.{WorkValue};

    ghost Value = { WorkValue };

    ghost view = { λ w. record { files = w.files; proofs = w.proofs; applies = w.applies } };
}

impl Work {
    /// No work yet.
    pub fn new(_rt: &HostRuntime) -> Work
        ensures { result ≡ no_work }
    {
        Work {
            files: 0,
            proofs: 0,
            applies: 0,
        }
    }

    /// How many files were read.
    pub fn files(&self) -> u64
        ensures { result ≡ self.now.files }
    {
        self.files
    }

    /// How many signed texts were opened.
    pub fn proofs(&self) -> u64
        ensures { result ≡ self.now.proofs }
    {
        self.proofs
    }

    /// How many operations were applied.
    pub fn applies(&self) -> u64
        ensures { result ≡ self.now.applies }
    {
        self.applies
    }

    pub fn tick_files(&mut self)
        ensures { self.new ≡ one_file self.old }
    {
        self.files = self.files.saturating_add(1);
    }

    pub fn tick_proofs(&mut self)
        ensures { self.new ≡ one_proof self.old }
    {
        self.proofs = self.proofs.saturating_add(1);
    }

    pub fn tick_applies(&mut self)
        ensures { self.new ≡ one_apply self.old }
    {
        self.applies = self.applies.saturating_add(1);
    }
}
