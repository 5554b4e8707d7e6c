ghost use Rattle.std.specs.Prelude.{◌↔◌, IsTrue, ◌≡◌, IfOk, length};
ghost use Rattle.st_base.specs.Work.{AppliesAtMost};
ghost use Rattle.st_apply.specs.Laws.{place_of, all_applied, PlacesAscend};
ghost use Rattle.st_apply.specs.Codes.{absent};
ghost use Rattle.st_cert.specs.Certificate.{anchored_items, IsCertificate, acting_count, verdicts};
ghost use Rattle.st_cert.specs.inside.Following.{verdicts_from};

use crate::standing::Standing;
use crate::verdict::Verdict;
use st_apply::DidState;
use st_base::{Copied, List, WantOfMemory, Work};
use st_ops::Operation;
use st_params::Schedule;
use std::alloc::Global;

/// The result of a resolution. It is not trusted: `check_certificate` decides whether it is right.
#[derive(Drop)]
pub struct Certificate {
    /// The verdict of each operation, in the order of their places.
    pub verdicts: List<Verdict>,
    /// The state after all of them.
    pub finish: DidState,
}

impl Copied for Certificate {
    fn copy(&self, alloc: Global) -> Result<Certificate, WantOfMemory> {
        Ok(Certificate {
            verdicts: self.verdicts.copy(alloc)?,
            finish: self.finish.copy(alloc)?,
        })
    }
}

/// An anchored operation.
#[derive(Drop)]
pub struct CertItem {
    /// The number of its entry in the ledger, which is its place among the operations of its
    /// identifier.
    pub place: u32,
    /// The height of that entry, which determines the limits for the operation.
    pub height: u32,
    pub operation: Operation,
}

impl Copied for CertItem {
    fn copy(&self, alloc: Global) -> Result<CertItem, WantOfMemory> {
        Ok(CertItem {
            place: self.place,
            height: self.height,
            operation: self.operation.copy(alloc)?,
        })
    }
}

/// Whether the places of the items ascend, as `certify` requires.
pub fn places_ascend(items: &[CertItem]) -> bool
    ensures { IsTrue result ↔ PlacesAscend place_of (anchored_items items.now) }
{
    let mut least: u64 = 0;
    for item in items {
        let place = u64::from(item.place);
        if place < least {
            return false;
        }
        least = place + 1;
    }
    true
}

/// The certificate of the operations of an identifier, in ascending places: the verdict of each in
/// the state before it, and the state they resolve to. `check_certificate` accepts this one and no
/// other. Each operation whose verdict acts is applied once, and nothing else is counted.
pub fn certify(
    alloc: Global,
    schedule: &Schedule,
    items: &[CertItem],
    work: &mut Work,
) -> Result<Certificate, WantOfMemory>
    requires { PlacesAscend place_of (anchored_items items.now) }
    ensures certificate { IfOk result (IsCertificate schedule.now (anchored_items items.now)) }
    ensures acting { AppliesAtMost (acting_count (verdicts schedule.now (anchored_items items.now))) work.old work.new }
    ensures few { AppliesAtMost (length items.now) work.old work.new }
{
    follow(alloc, schedule, items, work)
}

// The verdicts of the items, step by step, and the state after them.
fn follow(
    alloc: Global,
    schedule: &Schedule,
    items: &[CertItem],
    work: &mut Work,
) -> Result<Certificate, WantOfMemory>
    ensures verdicts { IfOk result (λ certificate. certificate.verdicts
        ≡ verdicts_from schedule.now absent (anchored_items items.now)) }
    ensures finish { IfOk result (λ certificate. certificate.finish
        ≡ all_applied schedule.now absent (anchored_items items.now)) }
    ensures acting { AppliesAtMost (acting_count (verdicts_from schedule.now absent (anchored_items items.now)))
        work.old work.new }
{
    let mut standing = Standing::absent();
    let mut verdicts = List::new(alloc);
    for item in items {
        let verdict = standing.judge(alloc, schedule, item)?;
        standing = standing.behind(alloc, schedule, item, verdict, work)?;
        verdicts.push(alloc, verdict)?;
    }
    Ok(Certificate {
        verdicts,
        finish: standing.into_state(),
    })
}
