ghost use Rattle.std.specs.Prelude.{◌≡◌, true, IfSome, Some, codes, is_some, ◌≤◌, option_map, IfOk, IsSome};
ghost use Rattle.st_base.specs.Work.{one_proof};
ghost use Rattle.st_plain.specs.Shapes.{member_in, object_at, text_at};
ghost use Rattle.st_ops.specs.Operation.{plain_proof};
ghost use Rattle.st_ops.specs.Request.{has_signed_texts, is_change_form, is_create_form, is_deactivate_form, is_suffix_data_form};
ghost use Rattle.st_ops.specs.Claim.{proof_in, proof_of, target_in};

use st_base::{KeptText, Shared, WantOfMemory, Work};
use st_indexfiles::{Target, hash_in};
use st_jws::{Signed, SignedRefused, open_signed};
use st_scan::Scanned;
use std::alloc::Global;

/// The parts of a create.
#[derive(Drop)]
pub(crate) struct CreateParts<'a> {
    pub(crate) suffix_data: Scanned<'a>,
    pub(crate) delta: Scanned<'a>,
}

/// The parts of a create, if these are its members: its `type`, suffix data of two texts, and a
/// delta, which is an object.
#[tactic(auto, unfolding(crate::specs::Request::is_create_form, crate::specs::Request::is_suffix_data_form))]
pub(crate) fn create_parts<'a>(request: &Scanned<'a>) -> Option<CreateParts<'a>>
    ensures form { is_some result ≡ is_create_form (Some request.now) }
    ensures suffix_data { IfSome result (λ parts. member_in (codes "suffixData") (Some request.now)
        ≡ Some parts.suffix_data) }
    ensures delta { IfSome result (λ parts. member_in (codes "delta") (Some request.now) ≡ Some parts.delta) }
{
    if !request.is_object_of(&["type", "suffixData", "delta"]) {
        return None;
    }
    let suffix_data = request.member("suffixData")?;
    if !is_suffix_data_form(&suffix_data) {
        return None;
    }
    let delta = request.member("delta")?;
    if !delta.is_object() {
        return None;
    }
    Some(CreateParts { suffix_data, delta })
}

/// The parts of a create whose members are in the order of canonical texts, in one walk. For `None`
/// the caller checks the request member by member.
#[tactic(auto, unfolding(crate::specs::Request::is_create_form))]
pub(crate) fn parts_in_turn<'a>(request: &Scanned<'a>) -> Option<CreateParts<'a>>
    ensures kind { IfSome result (λ _. text_at (codes "type") (Some request.now) ≡ Some (codes "create")) }
    ensures form { IfSome result (λ _. is_create_form (Some request.now) ≡ true) }
    ensures suffix_data { IfSome result (λ parts. member_in (codes "suffixData") (Some request.now)
        ≡ Some parts.suffix_data) }
    ensures delta { IfSome result (λ parts. member_in (codes "delta") (Some request.now) ≡ Some parts.delta) }
{
    let mut members = request.members()?;
    let delta = members.next_named("delta")?;
    let suffix_data = members.next_named("suffixData")?;
    let kind = members.next_named("type")?;
    if !members.is_empty() || !kind.is_text_of("create") {
        return None;
    }
    if !is_suffix_data_form(&suffix_data) || !delta.is_object() {
        return None;
    }
    Some(CreateParts { suffix_data, delta })
}

#[tactic(auto, unfolding(crate::specs::Request::is_suffix_data_form))]
fn is_suffix_data_form(value: &Scanned<'_>) -> bool
    ensures { result ≡ is_suffix_data_form (Some value.now) }
{
    match value.both_members("deltaHash", "recoveryCommitment") {
        Some((delta_hash, commitment)) => delta_hash.is_text() && commitment.is_text(),
        None => false,
    }
}

/// Whether these are the members of an update or of a recover: its `type`, the texts of a signed
/// operation, and a delta, which is an object.
#[tactic(auto, unfolding(crate::specs::Request::is_change_form))]
pub(crate) fn is_change_form(request: &Scanned<'_>) -> bool
    ensures { result ≡ is_change_form (Some request.now) }
{
    request.is_object_of(&["type", "didSuffix", "revealValue", "signedData", "delta"])
        && has_signed_texts(request)
        && has_object(request, "delta")
}

/// Whether these are the members of a deactivate: its `type`, and the texts of a signed operation.
#[tactic(auto, unfolding(crate::specs::Request::is_deactivate_form))]
pub(crate) fn is_deactivate_form(request: &Scanned<'_>) -> bool
    ensures { result ≡ is_deactivate_form (Some request.now) }
{
    request.is_object_of(&["type", "didSuffix", "revealValue", "signedData"])
        && has_signed_texts(request)
}

#[tactic(auto, unfolding(crate::specs::Request::has_signed_texts))]
fn has_signed_texts(request: &Scanned<'_>) -> bool
    ensures { result ≡ has_signed_texts (Some request.now) }
{
    has_text(request, "didSuffix")
        && has_text(request, "revealValue")
        && has_text(request, "signedData")
}

fn has_text(value: &Scanned<'_>, name: &str) -> bool
    ensures { result ≡ is_some (text_at name.now (Some value.now)) }
{
    match value.member(name) {
        Some(member) => member.is_text(),
        None => false,
    }
}

fn has_object(value: &Scanned<'_>, name: &str) -> bool
    ensures { result ≡ is_some (object_at name.now (Some value.now)) }
{
    match value.member(name) {
        Some(member) => member.is_object(),
        None => false,
    }
}

/// The target of a request: the suffix and the reveal value in its hash texts of the version.
#[tactic(auto, unfolding(crate::specs::Claim::target_in))]
pub(crate) fn target_in(request: &Scanned<'_>, version: u8) -> Option<Target>
    requires first { 1 ≤ version }
    requires last { version ≤ 2 }
    ensures { result ≡ target_in version (Some request.now) }
{
    let suffix = hash_in(request.member("didSuffix"), version)?;
    let reveal = hash_in(request.member("revealValue"), version)?;
    Some(Target { suffix, reveal })
}

/// The proof of a request whose signed text has at most `limit` bytes. It counts as one proof.
///
/// `None` if and only if the text does not open.
#[tactic(auto, unfolding(crate::specs::Claim::proof_in))]
pub(crate) fn proof_in(
    alloc: Global,
    request: &Scanned<'_>,
    limit: usize,
    work: &mut Work,
) -> Result<Option<Shared<Signed>>, WantOfMemory>
    requires { IsSome (text_at (codes "signedData") (Some request.now)) }
    ensures value { IfOk result (λ proof. option_map plain_proof proof ≡ proof_in limit (Some request.now)) }
    ensures counted { work.new ≡ one_proof work.old }
{
    match signed_text(alloc, request) {
        Ok(text) => opened(alloc, &text.unwrap(), limit, work),
        Err(want) => {
            work.tick_proofs();
            Err(want)
        }
    }
}

fn signed_text(alloc: Global, request: &Scanned<'_>) -> Result<Option<KeptText>, WantOfMemory>
    ensures { IfOk result (λ text. text ≡ text_at (codes "signedData") (Some request.now)) }
{
    let Some(signed) = request.member("signedData") else {
        return Ok(None);
    };
    match signed.text(alloc)? {
        Some(text) => Ok(Some(KeptText::new(text))),
        None => Ok(None),
    }
}

#[tactic(auto, unfolding(crate::specs::Claim::proof_of))]
fn opened(
    alloc: Global,
    text: &KeptText,
    limit: usize,
    work: &mut Work,
) -> Result<Option<Shared<Signed>>, WantOfMemory>
    ensures value { IfOk result (λ proof. option_map plain_proof proof ≡ proof_of limit text.now) }
    ensures counted { work.new ≡ one_proof work.old }
{
    match open_signed(alloc, text, limit, work) {
        Ok(signed) => Ok(Some(Shared::new(alloc, signed)?)),
        Err(SignedRefused::BadForm) => Ok(None),
        Err(SignedRefused::BadHeader) => Ok(None),
        Err(SignedRefused::BadPayload) => Ok(None),
        Err(SignedRefused::BadSignature) => Ok(None),
        Err(SignedRefused::WantOfMemory) => Err(WantOfMemory),
    }
}
