ghost use Rattle.std.specs.Option.{option_copied};
ghost use Rattle.std.specs.Prelude.{◌≡◌, ◌≤◌, ◌-◌, [], ◌∷◌, ◌++◌, length, take, slice_get, IsOk, IfOk, OnOk, OnErr};
ghost use Rattle.st_ledger.specs.Ledger.{IsLedger, admitted, last_height};

use st_base::{Bytes, Copied, WantOfMemory};
use std::alloc::Global;
use std::marker::Model;
use thiserror::Error;

/// Why an entry of a height can't be next.
#[derive(Clone, Copy, Debug, PartialEq, Eq, Error)]
pub enum LedgerRefused {
    /// The last entry's height, which is greater.
    #[error("the height falls below {0}")]
    HeightFalls(u32),
    /// The ledger has the largest number of entries.
    #[error("the ledger is full")]
    LedgerFull,
}

/// One entry of the ledger: a height, and an anchor string or any other text.
#[derive(Debug, Drop)]
pub struct Entry {
    pub height: u32,
    pub text: Bytes,
}

impl Copied for Entry {
    fn copy(&self, alloc: Global) -> Result<Entry, WantOfMemory> {
        let text = self.text.copy(alloc)?;
        Ok(Entry {
            height: self.height,
            text,
        })
    }
}

// The largest number of entries of a ledger.
const MOST_ENTRIES: usize = 1_048_576;

/// The ledger: its entries in order, numbered from 0, whose heights never fall. Contracts see the
/// list.
#[derive(Debug, Drop)]
pub struct Ledger {
    entries: Vec<Entry>,
}

impl Model for Ledger {
    ghost use Rattle.std.specs.Prelude.{List};
    ghost use Rattle.st_ledger.specs.declared.ledger.Entry.{Entry};
    ghost use Rattle.st_ledger.specs.Ledger.{IsLedger};

    ghost Value = { List Entry };

    ghost view = { λ l. l.entries.items };

    ghost invariant = { λ l. IsLedger l.entries.items };
}

impl Ledger {
    /// No entries. It allocates nothing.
    pub fn new(alloc: Global) -> Ledger
        ensures { result ≡ [] }
    {
        Ledger {
            entries: Vec::new(alloc),
        }
    }

    /// The number of entries.
    pub fn len(&self) -> u32
        ensures value { result ≡ length self.now }
        ensures is { IsLedger self.now }
    {
        self.entries.len() as u32
    }

    /// The entry with this number; `None` if and only if the number is not below the length.
    pub fn entry(&self, n: u32) -> Option<&Entry>
        ensures { option_copied result ≡ slice_get self.now n }
    {
        self.entries.get(n as usize)
    }

    pub fn entries(&self) -> &[Entry]
        ensures value { result.now ≡ self.now }
        ensures is { IsLedger self.now }
    {
        self.entries.as_slice()
    }

    /// The height of the last entry, or 0 if there is none.
    pub fn last_height(&self) -> u32
        ensures { result ≡ last_height self.now }
    {
        match self.entries().last() {
            Some(entry) => entry.height,
            None => 0,
        }
    }

    /// Whether an entry of this height may come next.
    ///
    /// The refusal is `HeightFalls`, with the last entry's height, if and only if that is greater;
    /// else `LedgerFull` if and only if there are 1,048,576 entries.
    pub fn admits(&self, height: u32) -> Result<(), LedgerRefused>
        ensures { result ≡ admitted self.now height }
    {
        let last = self.last_height();
        if last > height {
            return Err(LedgerRefused::HeightFalls(last));
        }
        if self.entries.len() == MOST_ENTRIES {
            return Err(LedgerRefused::LedgerFull);
        }
        Ok(())
    }

    /// Appends the entry, and returns its number.
    pub fn append(&mut self, _alloc: Global, height: u32, text: Bytes) -> Result<u32, WantOfMemory>
        requires { IsOk (admitted self.old height) }
        ensures number { IfOk result (λ number. number ≡ length self.old) }
        ensures ok { OnOk result (self.new ≡ self.old ++ record { height = height; text = text } ∷ []) }
        ensures err { OnErr result (self.new ≡ self.old) }
    {
        let number = self.len();
        self.entries.push(Entry { height, text })?;
        Ok(number)
    }

    /// Keeps the first `n` entries, and returns how many were removed.
    pub fn cut(&mut self, n: u32) -> u32
        requires { n ≤ length self.old }
        ensures kept { self.new ≡ take n self.old }
        ensures removed { result ≡ length self.old - n }
    {
        let removed = self.len() - n;
        self.entries.truncate(n as usize);
        removed
    }
}
