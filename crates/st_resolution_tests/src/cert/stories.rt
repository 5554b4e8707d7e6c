use crate::made::operation;
use st_apply::DidState;
use st_base::{Copied, List, WantOfMemory, Work};
use st_cert::{
    CertItem, Certificate, Verdict, certificate_laws, certify, check_certificate, places_ascend,
    verdict_law,
};
use st_params::Schedule;
use std::alloc::Global;
use std::test::Fail;

// The number of operations that act. After the bar: the operations in the order of their places,
// each with its verdict.
const STORIES: &str =
    "2|before update u - v a;created create - r u b;again create - r u c;updated update u - v d
2|created create - r u a;recovered recover r q v b;wrongReveal recover r p w c
3|created create - r u a;wrongReveal update v - w b;updated update u - v c;updated update v - w x;wrongReveal deactivate q - - -
2|created create - r u x;recovered recover r q v -;noUpdates update u - w b
2|created create - r u a;badDelta update u - v -;unclaimed unproved u - v b;updated update u - w c
2|created create - r u a;wrongReveal recover u q v b;deactivated deactivate r - - -;ended recover r q v b;again create - r u a;ended update u - v b
0|before deactivate r - - -;before recover r q v b";

fn word(verdict: &Verdict) -> &str {
    match verdict {
        Verdict::Before => "before",
        Verdict::Again => "again",
        Verdict::Ended => "ended",
        Verdict::Unclaimed => "unclaimed",
        Verdict::NoUpdates => "noUpdates",
        Verdict::WrongReveal => "wrongReveal",
        Verdict::BadDelta => "badDelta",
        Verdict::Created => "created",
        Verdict::Updated => "updated",
        Verdict::Recovered => "recovered",
        Verdict::Deactivated => "deactivated",
    }
}

// The operation of a line, without the verdict before it, at this place.
fn item(alloc: Global, place: u32, line: &str) -> Option<CertItem> {
    let (_verdict, line) = line.split_once(' ')?;
    Some(CertItem {
        place,
        height: 0,
        operation: operation(alloc, line)?,
    })
}

// The operations of these lines, each two places after the previous one.
fn items(alloc: Global, lines: &str) -> Option<List<CertItem>> {
    let mut items = List::new(alloc);
    let mut place = 0;
    for line in lines.split(';') {
        items.push(alloc, item(alloc, place, line)?).ok()?;
        place = place.saturating_add(2);
    }
    Some(items)
}

// The certificate with this as its last verdict, or without its last verdict.
fn with_last(
    alloc: Global,
    certificate: &Certificate,
    last: Option<Verdict>,
) -> Result<Certificate, WantOfMemory> {
    let mut verdicts = List::new(alloc);
    for (at, verdict) in certificate.verdicts.as_slice().iter().enumerate() {
        if at + 1 < certificate.verdicts.len() {
            verdicts.push(alloc, *verdict)?;
        }
    }
    if let Some(last) = last {
        verdicts.push(alloc, last)?;
    }
    let finish = certificate.finish.copy(alloc)?;
    Ok(Certificate { verdicts, finish })
}

fn with_finish(
    alloc: Global,
    certificate: &Certificate,
    finish: DidState,
) -> Result<Certificate, WantOfMemory> {
    let verdicts = certificate.verdicts.copy(alloc)?;
    Ok(Certificate { verdicts, finish })
}

// Whether it is accepted, with this many operations applied for that.
fn is_accepted(
    rt: &HostRuntime,
    items: &[CertItem],
    certificate: &Certificate,
    acting: u64,
) -> bool {
    let mut work = Work::new(rt);
    let answer = check_certificate(rt.alloc(), &Schedule::new(), items, certificate, &mut work);
    answer == Ok(true) && work.applies() == acting
}

fn is_refused(rt: &HostRuntime, items: &[CertItem], certificate: &Certificate) -> bool {
    let mut work = Work::new(rt);
    check_certificate(rt.alloc(), &Schedule::new(), items, certificate, &mut work) == Ok(false)
}

// The certificate of the items.
fn certified(rt: &HostRuntime, items: &[CertItem], work: &mut Work) -> Option<Certificate> {
    if !places_ascend(items) {
        return None;
    }
    certify(rt.alloc(), &Schedule::new(), items, work).ok()
}

// It is accepted, also with its state packed. As many operations are applied as act.
fn right_is_accepted(
    rt: &HostRuntime,
    items: &[CertItem],
    right: &Certificate,
    acting: u64,
) -> Result<bool, WantOfMemory> {
    let packed = with_finish(rt.alloc(), right, right.finish.pack(rt.alloc())?)?;
    Ok(is_accepted(rt, items, right, acting) && is_accepted(rt, items, &packed, acting))
}

// With an absent state it is accepted only if no operation acts.
fn other_state_is_refused(
    rt: &HostRuntime,
    items: &[CertItem],
    right: &Certificate,
    acting: u64,
) -> Result<bool, WantOfMemory> {
    let absent = with_finish(rt.alloc(), right, DidState::absent())?;
    if acting == 0 {
        return Ok(is_accepted(rt, items, &absent, 0));
    }
    Ok(is_refused(rt, items, &absent))
}

// With this as its last verdict, or without its last verdict, it is refused.
fn other_last_is_refused(
    rt: &HostRuntime,
    items: &[CertItem],
    right: &Certificate,
    last: Option<Verdict>,
) -> Result<bool, WantOfMemory> {
    let other = with_last(rt.alloc(), right, last)?;
    Ok(is_refused(rt, items, &other))
}

fn verdict_of(line: &str) -> &str {
    match line.split_once(' ') {
        Some((verdict, _)) => verdict,
        None => line,
    }
}

// Whether each item has the verdict of its line.
fn are_judged(certificate: &Certificate, lines: &str) -> bool {
    let verdicts = certificate.verdicts.as_slice();
    verdicts
        .iter()
        .map(word)
        .eq(lines.split(';').map(verdict_of))
}

// No story ends with `again`.
fn is_told(
    rt: &HostRuntime,
    items: &[CertItem],
    lines: &str,
    acting: u64,
) -> Result<bool, WantOfMemory> {
    let mut work = Work::new(rt);
    match certified(rt, items, &mut work) {
        Some(right) => Ok(
            work.applies() == acting
                && are_judged(&right, lines)
                && right_is_accepted(rt, items, &right, acting)?
                && other_state_is_refused(rt, items, &right, acting)?
                && other_last_is_refused(rt, items, &right, Some(Verdict::Again))?
                && other_last_is_refused(rt, items, &right, None)?,
        ),
        None => Ok(false),
    }
}

fn is_so(rt: &HostRuntime, story: &str) -> Result<bool, WantOfMemory> {
    let Some((acting, lines)) = story.split_once('|') else {
        return Ok(false);
    };
    let Ok(acting) = acting.parse() else {
        return Ok(false);
    };
    match items(rt.alloc(), lines) {
        Some(items) => is_told(rt, items.as_slice(), lines, acting),
        None => Ok(false),
    }
}

#[test]
fn operations_have_their_verdicts(rt: HostRuntime) -> Result<(), Fail> {
    verdict_law::<u8, u64>();
    certificate_laws();
    for story in STORIES.lines() {
        assert!(rt; is_so(&rt, story)?, "{story}");
    }
    Ok(())
}

// The certificate of these items with the verdict `again` after the others.
fn with_again(rt: &HostRuntime, items: &[CertItem]) -> Option<Certificate> {
    let Certificate {
        mut verdicts,
        finish,
    } = certified(rt, items, &mut Work::new(rt))?;
    verdicts.push(rt.alloc(), Verdict::Again).ok()?;
    Some(Certificate { verdicts, finish })
}

// Two items at one place have no certificate.
fn twice_is_refused(rt: &HostRuntime) -> Option<bool> {
    let mut items = List::new(rt.alloc());
    items
        .push(rt.alloc(), item(rt.alloc(), 7, "created create - r u a")?)
        .ok()?;
    let longer = with_again(rt, items.as_slice())?;
    items
        .push(rt.alloc(), item(rt.alloc(), 7, "again create - r u b")?)
        .ok()?;
    Some(is_refused(rt, items.as_slice(), &longer))
}

#[test]
fn no_two_items_stand_at_one_place(rt: HostRuntime) -> Result<(), Fail> {
    assert!(rt; twice_is_refused(&rt) == Some(true));
    Ok(())
}
