ghost use Rattle.std.specs.Prelude.{◌≡◌, ◌↔◌, IfOk, IsTrue};
ghost use Rattle.st_base.specs.Work.{AppliesAtMost};
ghost use Rattle.st_apply.specs.Codes.{Rules};
ghost use Rattle.st_cert.specs.Certificate.{IsCertificate, acting_count, anchored_items, ActingSuffice, OneCertificate, OneEach, VerdictActs, VerdictsStay};
ghost use Rattle.st_cert.specs.inside.Following.{Follows};

use crate::certificate::{CertItem, Certificate, places_ascend};
use crate::standing::Standing;
use crate::verdict::Verdict;
use st_base::{WantOfMemory, Work};
use st_params::Schedule;
use std::alloc::Global;

/// Whether the certificate is that of the operations: their places ascend strictly, each has its
/// verdict, and the state is the one they resolve to from nothing. Its maker need not be trusted.
/// An operation is applied only if its verdict in the certificate acts and is right, and nothing
/// else is counted.
pub fn check_certificate(
    alloc: Global,
    schedule: &Schedule,
    items: &[CertItem],
    certificate: &Certificate,
    work: &mut Work,
) -> Result<bool, WantOfMemory>
    ensures accepts { IfOk result (λ yes. IsTrue yes
        ↔ IsCertificate schedule.now (anchored_items items.now) certificate.now) }
    ensures acting { AppliesAtMost (acting_count certificate.now.verdicts) work.old work.new }
{
    if !places_ascend(items) {
        return Ok(false);
    }
    let verdicts = certificate.verdicts.as_slice();
    match follow(alloc, schedule, items, verdicts, work)? {
        Some(standing) => standing.is(alloc, &certificate.finish),
        None => Ok(false),
    }
}

// The state after the items, if these are their verdicts.
fn follow(
    alloc: Global,
    schedule: &Schedule,
    items: &[CertItem],
    verdicts: &[Verdict],
    work: &mut Work,
) -> Result<Option<Standing>, WantOfMemory>
    ensures found { IfOk result (Follows schedule.now (anchored_items items.now) verdicts.now) }
    ensures acting { AppliesAtMost (acting_count verdicts.now) work.old work.new }
{
    if items.len() != verdicts.len() {
        return Ok(None);
    }
    let mut standing = Standing::absent();
    for (at, item) in items.iter().enumerate() {
        let verdict = standing.judge(alloc, schedule, item)?;
        if !same_verdict(verdict, verdicts[at]) {
            return Ok(None);
        }
        standing = standing.behind(alloc, schedule, item, verdict, work)?;
    }
    Ok(Some(standing))
}

fn same_verdict(first: Verdict, second: Verdict) -> bool
    ensures { IsTrue result ↔ (first ≡ second) }
{
    first == second
}

/// A verdict acts if and only if the operation does, for all hashes and documents.
pub fn verdict_law<H, D>()
    ensures { (rules : Rules H D) → VerdictActs rules }
{}

/// Laws of certificates: each operation has one verdict, which no later operation changes;
/// operations have at most one certificate; and the state follows from only the operations that
/// act.
pub fn certificate_laws()
    ensures each { OneEach }
    ensures stay { VerdictsStay }
    ensures unique { OneCertificate }
    ensures suffice { ActingSuffice }
{}
