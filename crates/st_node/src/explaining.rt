ghost use Rattle.std.specs.Prelude.{◌≡◌, ◌++◌, IfOk, OnOk, codes, length, map};
ghost use Rattle.std.specs.Fmt.{decimal};
ghost use Rattle.st_apply.specs.Laws.{place_of};
ghost use Rattle.st_base.specs.Texts.{reply};
ghost use Rattle.st_base.specs.Work.{AppliesAtMost};
ghost use Rattle.st_cert.specs.Certificate.{anchored_item, anchored_items};
ghost use Rattle.st_node.specs.Machine.{asked_did, explain_reply, explained, item_line, item_lines, kind_word, verdict_word};
ghost use Rattle.st_node.specs.Work.{asked_operations};
ghost use Rattle.st_observer.specs.Observed.{operations};
ghost use Rattle.st_observer.specs.Work.{plain_held};
ghost use Rattle.st_ops.specs.Operation.{plain_operation};

use itoa::Buffer;
use st_base::{Bytes, List, WantOfMemory, Work, push_word, reply};
use st_cert::{CertItem, Verdict, certify};
use st_hash::Hash;
use st_observer::{Held, Observer};
use st_ops::Operation;
use st_resolve::{DidRefused, read_did};
use std::alloc::Global;

// The reply to `explain`. No file is read, and each operation of the identifier is applied at most
// once. The create in a long form is not an operation of an entry, so it is not listed.
pub fn explain(
    alloc: Global,
    observer: &Observer,
    text: &[u8],
    work: &mut Work,
) -> Result<Bytes, WantOfMemory>
    ensures reply { IfOk result (λ reply. reply ≡ explain_reply observer.now (asked_did observer.now text.now)) }
    ensures work { AppliesAtMost (length (asked_operations observer.now text.now)) work.old work.new }
{
    let version = observer.schedule().newest().version();
    match read_did(alloc, text, version) {
        Ok(did) => explain_suffix(alloc, observer, &did.suffix, work),
        Err(DidRefused::BadDid) => reply(alloc, "unresolved ", b"badDid"),
        Err(DidRefused::BadLongForm) => reply(alloc, "unresolved ", b"badLongForm"),
        Err(DidRefused::NotCanonical) => reply(alloc, "unresolved ", b"notCanonical"),
        Err(DidRefused::SuffixDiffers) => reply(alloc, "unresolved ", b"suffixDiffers"),
        Err(DidRefused::WantOfMemory) => Err(WantOfMemory),
    }
}

// The reply for the identifier of a suffix.
fn explain_suffix(
    alloc: Global,
    observer: &Observer,
    suffix: &Hash,
    work: &mut Work,
) -> Result<Bytes, WantOfMemory>
    ensures reply { IfOk result (λ reply. reply
        ≡ explained observer.now.schedule (operations suffix.now observer.now)) }
    ensures work { AppliesAtMost (length (operations suffix.now observer.now)) work.old work.new }
{
    let held = observer.items(alloc, suffix)?;
    let items = cert_items(alloc, held)?;
    let certificate = certify(alloc, observer.schedule(), items.as_slice(), work)?;
    tell_items(alloc, items.as_slice(), certificate.verdicts.as_slice())
}

// The operations as items to certify.
fn cert_items(alloc: Global, held: List<Held>) -> Result<List<CertItem>, WantOfMemory>
    ensures { IfOk result (λ items. anchored_items items ≡ map plain_held held) }
{
    let mut items = List::new(alloc);
    for kept in held.into_vec() {
        items.push(
            alloc,
            CertItem {
                place: kept.place,
                height: kept.height,
                operation: kept.operation,
            },
        )?;
    }
    Ok(items)
}

// The number of items, and a line for each with its verdict.
fn tell_items(
    alloc: Global,
    items: &[CertItem],
    verdicts: &[Verdict],
) -> Result<Bytes, WantOfMemory>
    requires { length items.now ≡ length verdicts.now }
    ensures { IfOk result (λ text. text ≡ reply (codes "explained ") (decimal (length items.now))
        ++ item_lines (anchored_items items.now) verdicts.now) }
{
    let mut text = Vec::new(alloc);
    push_count(&mut text, items.len())?;
    push_items(&mut text, items, verdicts)?;
    Ok(Bytes::from_vec(text))
}

// Appends the line of a number of items to the text.
fn push_count(text: &mut Vec<u8>, items: usize) -> Result<(), WantOfMemory>
    ensures { OnOk result (text.new.items ≡ text.old.items ++ reply (codes "explained ") (decimal items)) }
{
    text.extend_from_slice(b"explained ")?;
    text.extend_from_slice(Buffer::new().format(items).as_bytes())?;
    text.push(b'\n')?;
    Ok(())
}

fn push_items(
    text: &mut Vec<u8>,
    items: &[CertItem],
    verdicts: &[Verdict],
) -> Result<(), WantOfMemory>
    requires { length items.now ≡ length verdicts.now }
    ensures { OnOk result (text.new.items ≡ text.old.items ++ item_lines (anchored_items items.now) verdicts.now) }
{
    for (at, item) in items.iter().enumerate() {
        push_item(text, item, verdicts[at])?;
    }
    Ok(())
}

fn push_item(text: &mut Vec<u8>, item: &CertItem, verdict: Verdict) -> Result<(), WantOfMemory>
    ensures { OnOk result (text.new.items ≡ text.old.items ++ item_line (anchored_item item.now) verdict) }
{
    text.extend_from_slice(b"item")?;
    push_word(text, Buffer::new().format(item.place).as_bytes())?;
    push_word(text, Buffer::new().format(item.height).as_bytes())?;
    push_word(text, kind_word(&item.operation).as_bytes())?;
    push_word(text, verdict_word(verdict).as_bytes())?;
    text.push(b'\n')?;
    Ok(())
}

fn kind_word(operation: &Operation) -> &'static str
    ensures { result.now ≡ kind_word (plain_operation operation.now) }
{
    match operation {
        Operation::Create { .. } => "create",
        Operation::Update { .. } => "update",
        Operation::Recover { .. } => "recover",
        Operation::Deactivate { .. } => "deactivate",
    }
}

fn verdict_word(verdict: Verdict) -> &'static str
    ensures { result.now ≡ verdict_word verdict }
{
    match verdict {
        Verdict::Before => "before",
        Verdict::Again => "again",
        Verdict::Ended => "ended",
        Verdict::Unclaimed => "unclaimed",
        Verdict::NoUpdates => "noUpdates",
        Verdict::WrongReveal => "wrongReveal",
        Verdict::BadDelta => "badDelta",
        Verdict::Created => "created",
        Verdict::Updated => "updated",
        Verdict::Recovered => "recovered",
        Verdict::Deactivated => "deactivated",
    }
}
