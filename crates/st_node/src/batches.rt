ghost use Rattle.std.specs.Prelude.{◌≡◌, IfOk, OnOk, ◌++◌, flat_map};
ghost use Rattle.st_base.specs.Work.{ProofsAtMost};
ghost use Rattle.st_batch.specs.Laws.{AreNamed};
ghost use Rattle.st_batch.specs.Queue.{submitted};
ghost use Rattle.st_node.specs.Machine.{limits_now, queue_after, submit_reply, all_arrived, batch_line, batch_reply, file_line, role_word};
ghost use Rattle.st_node.specs.Work.{ArrivalsCounts};

use itoa::Buffer;
use st_base::{Bytes, List, WantOfMemory, Work, push_word, reply};
use st_batch::{Batch, BatchFile, Queue, SubmitRefused};
use st_datafiles::Role;
use st_hash::{enc, hash_text};
use st_observer::Observer;
use st_params::Params;
use std::alloc::Global;

// The limits at the height of the last entry, or at height 0 if there is none.
pub fn limits_now(observer: &Observer) -> Params
    ensures { result ≡ limits_now observer.now }
{
    observer.schedule().at(observer.ledger().last_height())
}

// The reply to a request that is submitted to the queue at these limits. At most one signed text is
// opened, also if the request is refused.
pub fn submit(
    alloc: Global,
    queue: &mut Queue,
    request: &[u8],
    params: &Params,
    work: &mut Work,
) -> Result<Bytes, WantOfMemory>
    ensures reply { IfOk result (λ text. text ≡ submit_reply (submitted params.now queue.old request.now)) }
    ensures queue { OnOk result (queue.new ≡ queue_after queue.old (submitted params.now queue.old request.now)) }
    ensures work { ProofsAtMost 1 work.old work.new }
{
    match queue.submit(alloc, request, params, work) {
        Ok(suffix) => {
            let suffix = hash_text(alloc, &suffix)?;
            reply(alloc, "queued ", suffix.as_str().as_bytes())
        }
        Err(SubmitRefused::NotJson) => reply(alloc, "refused ", b"notJson"),
        Err(SubmitRefused::NotWhole) => reply(alloc, "refused ", b"notWhole"),
        Err(SubmitRefused::BadForm) => reply(alloc, "refused ", b"badForm"),
        Err(SubmitRefused::BadHash) => reply(alloc, "refused ", b"badHash"),
        Err(SubmitRefused::BadProof) => reply(alloc, "refused ", b"badProof"),
        Err(SubmitRefused::BadDelta) => reply(alloc, "refused ", b"badDelta"),
        Err(SubmitRefused::AlreadyQueued) => reply(alloc, "refused ", b"alreadyQueued"),
        Err(SubmitRefused::QueueFull) => reply(alloc, "refused ", b"full"),
        Err(SubmitRefused::WantOfMemory) => Err(WantOfMemory),
    }
}

// The reply to a flush: the anchor string and the number of files, and a line for each file.
pub fn tell_batch(alloc: Global, batch: &Batch) -> Result<Bytes, WantOfMemory>
    ensures { IfOk result (λ text. text ≡ batch_reply batch.now) }
{
    let mut text = Vec::new(alloc);
    push_batch(&mut text, batch.anchor.as_str(), batch.files.len())?;
    push_files(alloc, &mut text, batch.files.as_slice())?;
    Ok(Bytes::from_vec(text))
}

// Appends the line of an anchor string and a number of files to the text.
fn push_batch(text: &mut Vec<u8>, anchor: &str, files: usize) -> Result<(), WantOfMemory>
    ensures { OnOk result (text.new.items ≡ text.old.items ++ batch_line anchor.now files) }
{
    text.extend_from_slice(b"batch")?;
    push_word(text, anchor.as_bytes())?;
    push_word(text, Buffer::new().format(files).as_bytes())?;
    text.push(b'\n')?;
    Ok(())
}

fn push_files(alloc: Global, text: &mut Vec<u8>, files: &[BatchFile]) -> Result<(), WantOfMemory>
    ensures { OnOk result (text.new.items ≡ text.old.items ++ flat_map file_line files.now) }
{
    for file in files {
        push_file(alloc, text, file)?;
    }
    Ok(())
}

// Appends the line of a file to the text: its role, its URI and its bytes.
fn push_file(alloc: Global, text: &mut Vec<u8>, file: &BatchFile) -> Result<(), WantOfMemory>
    ensures { OnOk result (text.new.items ≡ text.old.items ++ file_line file.now) }
{
    let uri = hash_text(alloc, &file.uri)?;
    let bytes = enc(alloc, file.bytes.as_slice())?;
    text.extend_from_slice(b"file")?;
    push_word(text, role_word(file.role).as_bytes())?;
    push_word(text, uri.as_str().as_bytes())?;
    push_word(text, bytes.as_str().as_bytes())?;
    text.push(b'\n')?;
    Ok(())
}

fn role_word(role: Role) -> &'static str
    ensures { result.now ≡ role_word role }
{
    match role {
        Role::Core => "core",
        Role::CoreProof => "coreProof",
        Role::Provisional => "provisional",
        Role::ProvisionalProof => "provisionalProof",
        Role::Chunk => "chunk",
    }
}

// Passes the files to the observer, in the order of the list. None is copied or hashed again.
pub fn take_files(
    alloc: Global,
    observer: Observer,
    files: List<BatchFile>,
    work: &mut Work,
) -> Result<Observer, WantOfMemory>
    requires { AreNamed files }
    ensures state { IfOk result (λ taken. taken ≡ all_arrived files observer) }
    ensures counts { ArrivalsCounts observer files work.old work.new }
{
    let mut taken = observer;
    for file in files.into_vec() {
        let BatchFile { uri, bytes, .. } = file;
        let (next, _put) = taken.arrive_under(alloc, uri, bytes, work)?;
        taken = next;
    }
    Ok(taken)
}
