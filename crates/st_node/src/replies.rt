ghost use Rattle.std.specs.Prelude.{◌≡◌, List, IfOk, codes, map, ◌≤◌};
ghost use Rattle.st_base.specs.Texts.{reply, spaced};
ghost use Rattle.st_base.specs.Work.{AppliesAtMost};
ghost use Rattle.st_hash.specs.Hash.{hash_text};
ghost use Rattle.st_resolve.specs.Identifier.{plain_did};
ghost use Rattle.st_node.specs.Machine.{cause_word, ledger_word, state_word, wanted_reply, resolution, resolve_reply, result_for};

use crate::command::LineCause;
use itoa::Buffer;
use st_anchor::RoleState;
use st_base::{Bytes, WantOfMemory, Work, push_word, reply};
use st_hash::{Hash, hash_text};
use st_ledger::LedgerRefused;
use st_observer::Observer;
use st_resolve::{Did, DidRefused, RenderRefused, read_did, render};
use std::alloc::Global;

// The words for causes in replies.

pub fn cause_word(cause: LineCause) -> &'static str
    ensures { result.now ≡ cause_word cause }
{
    match cause {
        LineCause::Long => "long",
        LineCause::Command => "command",
        LineCause::Words => "words",
        LineCause::Number => "number",
        LineCause::Base64 => "base64",
    }
}

pub fn ledger_word(refused: LedgerRefused) -> &'static str
    ensures { result.now ≡ ledger_word refused }
{
    match refused {
        LedgerRefused::HeightFalls(_) => "height",
        LedgerRefused::LedgerFull => "full",
    }
}

// The reply to `wanted`: the number of URIs, and each.
pub fn tell_wanted(alloc: Global, uris: &[Hash]) -> Result<Bytes, WantOfMemory>
    ensures { IfOk result (λ text. text ≡ wanted_reply uris.now) }
{
    let mut rest = Vec::new(alloc);
    rest.extend_from_slice(Buffer::new().format(uris.len()).as_bytes())?;
    for uri in uris {
        let text = hash_text(alloc, uri)?;
        push_word(&mut rest, text.as_str().as_bytes())?;
    }
    reply(alloc, "wanted ", rest.as_slice())
}

// The reply to `report` for an entry: the states of its five roles.
pub fn tell_states(alloc: Global, states: &[RoleState; 5]) -> Result<Bytes, WantOfMemory>
    ensures { IfOk result (λ text. text ≡ reply (codes "report") (spaced (map state_word states.now))) }
{
    let mut rest = Vec::new(alloc);
    for state in states {
        push_word(&mut rest, state_word(state).as_bytes())?;
    }
    reply(alloc, "report", rest.as_slice())
}

fn state_word(state: &RoleState) -> &'static str
    ensures { result.now ≡ state_word state.now }
{
    match state {
        RoleState::Unneeded => "unneeded",
        RoleState::Missing(_) => "missing",
        RoleState::Rejected(rule) => rule.name(),
        RoleState::Read => "read",
    }
}

// The reply to `resolve`. No file and no signed text is counted, and at most one operation: the
// create of a long form that no entry gave, or a delta that is read when the state is opened.
pub fn resolve(
    alloc: Global,
    observer: &Observer,
    text: &[u8],
    work: &mut Work,
) -> Result<Bytes, WantOfMemory>
    ensures reply { IfOk result (λ reply. reply ≡ resolve_reply (resolution observer.now text.now)) }
    ensures work { AppliesAtMost 1 work.old work.new }
{
    let version = observer.schedule().newest().version();
    match read_did(alloc, text, version) {
        Ok(did) => show_result(alloc, observer, &did, work),
        Err(DidRefused::BadDid) => reply(alloc, "unresolved ", b"badDid"),
        Err(DidRefused::BadLongForm) => reply(alloc, "unresolved ", b"badLongForm"),
        Err(DidRefused::NotCanonical) => reply(alloc, "unresolved ", b"notCanonical"),
        Err(DidRefused::SuffixDiffers) => reply(alloc, "unresolved ", b"suffixDiffers"),
        Err(DidRefused::WantOfMemory) => Err(WantOfMemory),
    }
}

// The reply for an identifier.
#[tactic(auto, using(crate::proofs::ReplyLemmas::resolved_by, crate::proofs::ReplyLemmas::unresolved_by))]
fn show_result(
    alloc: Global,
    observer: &Observer,
    did: &Did,
    work: &mut Work,
) -> Result<Bytes, WantOfMemory>
    ensures reply { IfOk result (λ reply. reply ≡ resolve_reply (result_for observer.now (plain_did did.now))) }
    ensures work { AppliesAtMost 1 work.old work.new }
{
    let params = observer.schedule().newest();
    match render(alloc, did, observer.state(&did.suffix), &params, work) {
        Ok(text) => reply(alloc, "resolved ", text.as_slice()),
        Err(RenderRefused::NotFound) => reply(alloc, "unresolved ", b"notFound"),
        Err(RenderRefused::WantOfMemory) => Err(WantOfMemory),
    }
}
