ghost use Rattle.std.specs.Prelude.{◌≡◌, ◌+◌, bytes_eq, codes, IfOk};
ghost use Rattle.st_generate.specs.Summary.{all_asked, asked, resolve_line};
ghost use Rattle.st_generate.specs.Talk.{begins_with, one_if};
ghost use Rattle.st_workload.specs.Identifier.{each, identity_of};

use crate::plan::Plan;
use crate::talk::{Talk, begins_with, plus_one_if};
use st_base::{Bytes, WantOfMemory, Work};
use st_exchange::Peer;
use st_hash::{Hash, hash_text};
use st_workload::Identity;
use std::alloc::Global;

/// The two nodes, how many identifiers the second resolved, and for how many both gave the same
/// answer.
#[derive(Drop)]
pub struct Ends<N: Peer> {
    pub first: Talk<N>,
    pub second: Talk<N>,
    pub resolved: u64,
    pub agreed: u64,
}

/// Asks both nodes for all identifiers.
pub fn ask_all<N: Peer>(
    alloc: Global,
    plan: Plan,
    identities: &[Identity],
    ends: Ends<N>,
    work: &mut Work,
) -> Result<Ends<N>, WantOfMemory>
    requires { identities.now ≡ each plan.dids (identity_of plan.seed plan.rounds) }
    ensures { IfOk result (λ all. all ≡ all_asked N.peer plan.seed plan.dids ends) }
{
    let mut ends = ends;
    'identities: for identity in identities {
        let next = ask(alloc, &identity.suffix, ends, work)?;
        ends = next;
    }
    Ok(ends)
}

// Asks both nodes for the identifier of this suffix.
fn ask<N: Peer>(
    alloc: Global,
    suffix: &Hash,
    ends: Ends<N>,
    work: &mut Work,
) -> Result<Ends<N>, WantOfMemory>
    ensures { IfOk result (λ more. more ≡ asked N.peer (resolve_line suffix.now) ends) }
{
    let line = resolve_line(alloc, suffix)?;
    Ok(ask_line(alloc, line.as_slice(), ends, work)?)
}

#[tactic(auto, unfolding(crate::specs::Summary::asked))]
fn ask_line<N: Peer>(
    alloc: Global,
    line: &[u8],
    ends: Ends<N>,
    work: &mut Work,
) -> Result<Ends<N>, WantOfMemory>
    ensures { IfOk result (λ more. more ≡ asked N.peer line.now ends) }
{
    let Ends {
        first,
        second,
        resolved,
        agreed,
    } = ends;
    let (first, one) = first.tell(alloc, line, work)?;
    let (second, other) = second.tell(alloc, line, work)?;
    let (resolved, agreed) = count(resolved, agreed, one.as_slice(), other.as_slice())?;
    Ok(Ends {
        first,
        second,
        resolved,
        agreed,
    })
}

// How many were resolved and answered alike, after one more line with the replies of both nodes.
fn count(resolved: u64, agreed: u64, one: &[u8], other: &[u8]) -> Result<(u64, u64), WantOfMemory>
    ensures { IfOk result (λ more.
        (more.0 ≡ resolved + one_if (begins_with (codes "resolved") other.now))
        × (more.1 ≡ agreed + one_if (bytes_eq one.now other.now))) }
{
    let resolved = plus_one_if(resolved, begins_with(b"resolved", other))?;
    let agreed = plus_one_if(agreed, is_same(one, other))?;
    Ok((resolved, agreed))
}

fn is_same(one: &[u8], other: &[u8]) -> bool
    ensures { result ≡ bytes_eq one.now other.now }
{
    one == other
}

// The line that resolves the short form of an identifier.
#[tactic(auto, unfolding(crate::specs::Summary::resolve_line))]
fn resolve_line(alloc: Global, suffix: &Hash) -> Result<Bytes, WantOfMemory>
    ensures { IfOk result (λ line. line ≡ resolve_line suffix.now) }
{
    let suffix = hash_text(alloc, suffix)?;
    let mut line = Bytes::from_slice(alloc, b"resolve did:sidetree:")?;
    line.push_all(alloc, suffix.as_str().as_bytes())?;
    Ok(line)
}
