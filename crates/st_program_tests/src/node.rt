use st_base::{WantOfMemory, Work};
use st_node::{Command, Lent, Node, isolation_law, read_command};
use st_params::Schedule;
use std::alloc::Global;
use std::test::Fail;

// A core index file with one create, its URI, the suffix of that create, and the long form that has
// its delta, then the request for another create and the parts of its batch, each computed with
// Python's hashlib, base64 and json. Version 2, in which a batch may declare more than 1,000
// operations, starts at height
// 10. Each line precedes its reply; BATCH is the reply of that name.
const SESSION: &str = "\
anchor 9 1001.EiDdm4nmM3a--pujoWQeY8rkmIKAWTB8tXpAJAg2HC128g
anchored 0
anchor 10 1001.EiDdm4nmM3a--pujoWQeY8rkmIKAWTB8tXpAJAg2HC128g
anchored 1
anchor 8 x
refused height
report 0
report A2 unneeded unneeded unneeded unneeded
report 1
report missing unneeded unneeded unneeded unneeded
report 2
refused range
wanted
wanted 1 EiDdm4nmM3a--pujoWQeY8rkmIKAWTB8tXpAJAg2HC128g
resolve did:sidetree:EiCBpaF3RXYBbNXvPtIkriTZX8_XM0IXu_AzacNqO9Kx1w
unresolved notFound
resolve did:sidetree:EiCBpaF3RXYBbNXvPtIkriTZX8_XM0IXu_AzacNqO9Kx1w:eyJkZWx0YSI6eyJwYXRjaGVzIjpbXSwidXBkYXRlQ29tbWl0bWVudCI6IkVpQzZlQmFfandIUDZrRkJRTjVkcmlJanNBTmhvNVlYZXB5MEVQOWg4Z0FWclEifSwic3VmZml4RGF0YSI6eyJkZWx0YUhhc2giOiJFaUFvUDk1YUhHZTZJa0dnZjNwX2podE1idzdvdWRpRUM3VDd5RWZCa2FleDZRIiwicmVjb3ZlcnlDb21taXRtZW50IjoiRWlEanNNUkNtUHdjRkpyNzlNaVpiN2trSjY1QjVHU2JrMHlrbFprYmVGSzRWUSJ9fQ
resolved {\"didDocument\":{\"id\":\"did:sidetree:EiCBpaF3RXYBbNXvPtIkriTZX8_XM0IXu_AzacNqO9Kx1w:eyJkZWx0YSI6eyJwYXRjaGVzIjpbXSwidXBkYXRlQ29tbWl0bWVudCI6IkVpQzZlQmFfandIUDZrRkJRTjVkcmlJanNBTmhvNVlYZXB5MEVQOWg4Z0FWclEifSwic3VmZml4RGF0YSI6eyJkZWx0YUhhc2giOiJFaUFvUDk1YUhHZTZJa0dnZjNwX2podE1idzdvdWRpRUM3VDd5RWZCa2FleDZRIiwicmVjb3ZlcnlDb21taXRtZW50IjoiRWlEanNNUkNtUHdjRkpyNzlNaVpiN2trSjY1QjVHU2JrMHlrbFprYmVGSzRWUSJ9fQ\"},\"didDocumentMetadata\":{\"method\":{\"published\":false,\"recoveryCommitment\":\"EiDjsMRCmPwcFJr79MiZb7kkJ65B5GSbk0yklZkbeFK4VQ\",\"updateCommitment\":\"EiC6eBa_jwHP6kFBQN5driIjsANho5YXepy0EP9h8gAVrQ\"}}}
content eyJvcGVyYXRpb25zIjp7ImNyZWF0ZSI6W3sic3VmZml4RGF0YSI6eyJkZWx0YUhhc2giOiJFaUFvUDk1YUhHZTZJa0dnZjNwX2podE1idzdvdWRpRUM3VDd5RWZCa2FleDZRIiwicmVjb3ZlcnlDb21taXRtZW50IjoiRWlEanNNUkNtUHdjRkpyNzlNaVpiN2trSjY1QjVHU2JrMHlrbFprYmVGSzRWUSJ9fV19fQ
have EiDdm4nmM3a--pujoWQeY8rkmIKAWTB8tXpAJAg2HC128g
content eyJvcGVyYXRpb25zIjp7ImNyZWF0ZSI6W3sic3VmZml4RGF0YSI6eyJkZWx0YUhhc2giOiJFaUFvUDk1YUhHZTZJa0dnZjNwX2podE1idzdvdWRpRUM3VDd5RWZCa2FleDZRIiwicmVjb3ZlcnlDb21taXRtZW50IjoiRWlEanNNUkNtUHdjRkpyNzlNaVpiN2trSjY1QjVHU2JrMHlrbFprYmVGSzRWUSJ9fV19fQ
had EiDdm4nmM3a--pujoWQeY8rkmIKAWTB8tXpAJAg2HC128g
wanted
wanted 0
report 1
report read unneeded unneeded unneeded unneeded
resolve did:sidetree:EiCBpaF3RXYBbNXvPtIkriTZX8_XM0IXu_AzacNqO9Kx1w:eyJkZWx0YSI6eyJwYXRjaGVzIjpbXSwidXBkYXRlQ29tbWl0bWVudCI6IkVpQzZlQmFfandIUDZrRkJRTjVkcmlJanNBTmhvNVlYZXB5MEVQOWg4Z0FWclEifSwic3VmZml4RGF0YSI6eyJkZWx0YUhhc2giOiJFaUFvUDk1YUhHZTZJa0dnZjNwX2podE1idzdvdWRpRUM3VDd5RWZCa2FleDZRIiwicmVjb3ZlcnlDb21taXRtZW50IjoiRWlEanNNUkNtUHdjRkpyNzlNaVpiN2trSjY1QjVHU2JrMHlrbFprYmVGSzRWUSJ9fQ
resolved {\"didDocument\":{\"id\":\"did:sidetree:EiCBpaF3RXYBbNXvPtIkriTZX8_XM0IXu_AzacNqO9Kx1w:eyJkZWx0YSI6eyJwYXRjaGVzIjpbXSwidXBkYXRlQ29tbWl0bWVudCI6IkVpQzZlQmFfandIUDZrRkJRTjVkcmlJanNBTmhvNVlYZXB5MEVQOWg4Z0FWclEifSwic3VmZml4RGF0YSI6eyJkZWx0YUhhc2giOiJFaUFvUDk1YUhHZTZJa0dnZjNwX2podE1idzdvdWRpRUM3VDd5RWZCa2FleDZRIiwicmVjb3ZlcnlDb21taXRtZW50IjoiRWlEanNNUkNtUHdjRkpyNzlNaVpiN2trSjY1QjVHU2JrMHlrbFprYmVGSzRWUSJ9fQ\"},\"didDocumentMetadata\":{\"canonicalId\":\"did:sidetree:EiCBpaF3RXYBbNXvPtIkriTZX8_XM0IXu_AzacNqO9Kx1w\",\"method\":{\"published\":true,\"recoveryCommitment\":\"EiDjsMRCmPwcFJr79MiZb7kkJ65B5GSbk0yklZkbeFK4VQ\"}}}
resolve did:sidetree:EiCBpaF3RXYBbNXvPtIkriTZX8_XM0IXu_AzacNqO9Kx1w:e30
unresolved badLongForm
resolve did:other:x
unresolved badDid
rollback 3
refused range
rollback 1
cut 1
resolve did:sidetree:EiCBpaF3RXYBbNXvPtIkriTZX8_XM0IXu_AzacNqO9Kx1w
unresolved notFound
rollback 4294967296
refused line number
wanted 
refused line words
flush
refused nothing
submit {
refused notJson
submit {\"delta\":{\"patches\":[],\"updateCommitment\":\"EiDjsMRCmPwcFJr79MiZb7kkJ65B5GSbk0yklZkbeFK4VQ\"},\"suffixData\":{\"deltaHash\":\"EiBNHNlO-0eRfvDE-fNCBUxpL9nvDZmBJZLNcubQR4qsnQ\",\"recoveryCommitment\":\"EiC6eBa_jwHP6kFBQN5driIjsANho5YXepy0EP9h8gAVrQ\"},\"type\":\"create\"}
queued EiATVLsbLfdR25X6OuwLpHYrA7MGDT2v_aCVNxmthtKGmw
submit {\"delta\":{\"patches\":[],\"updateCommitment\":\"EiDjsMRCmPwcFJr79MiZb7kkJ65B5GSbk0yklZkbeFK4VQ\"},\"suffixData\":{\"deltaHash\":\"EiBNHNlO-0eRfvDE-fNCBUxpL9nvDZmBJZLNcubQR4qsnQ\",\"recoveryCommitment\":\"EiC6eBa_jwHP6kFBQN5driIjsANho5YXepy0EP9h8gAVrQ\"},\"type\":\"create\"}
refused alreadyQueued
resolve did:sidetree:EiATVLsbLfdR25X6OuwLpHYrA7MGDT2v_aCVNxmthtKGmw
unresolved notFound
flush
BATCH
flush
refused nothing
content eyJvcGVyYXRpb25zIjp7ImNyZWF0ZSI6W3sic3VmZml4RGF0YSI6eyJkZWx0YUhhc2giOiJFaUJOSE5sTy0wZVJmdkRFLWZOQ0JVeHBMOW52RFptQkpaTE5jdWJRUjRxc25RIiwicmVjb3ZlcnlDb21taXRtZW50IjoiRWlDNmVCYV9qd0hQNmtGQlFONWRyaUlqc0FOaG81WVhlcHkwRVA5aDhnQVZyUSJ9fV19LCJwcm92aXNpb25hbEluZGV4RmlsZVVyaSI6IkVpQ3RVZGs3bVJLQnpHbFBqS3ZYRWJaNERMTTBOcXRKbkE2TFYtcGVwVUQwOWcifQ
had EiB8mMGl7eGVHIh_r5IZavALhbNZi3lA9-fEQRERB82cYQ
content eyJjaHVua3MiOlt7ImNodW5rRmlsZVVyaSI6IkVpQXA2cXJobjNQcXVJSVh6a2VyXzR4LU1MMDZQQXhla1cxQnlOQjF0MnpTNWcifV19
had EiCtUdk7mRKBzGlPjKvXEbZ4DLM0NqtJnA6LV-pepUD09g
content eyJkZWx0YXMiOlt7InBhdGNoZXMiOltdLCJ1cGRhdGVDb21taXRtZW50IjoiRWlEanNNUkNtUHdjRkpyNzlNaVpiN2trSjY1QjVHU2JrMHlrbFprYmVGSzRWUSJ9XX0
had EiAp6qrhn3PquIIXzker_4x-ML06PAxekW1ByNB1t2zS5g
anchor 9 1.EiB8mMGl7eGVHIh_r5IZavALhbNZi3lA9-fEQRERB82cYQ
anchored 1
report 1
report read unneeded read unneeded read
resolve did:sidetree:EiATVLsbLfdR25X6OuwLpHYrA7MGDT2v_aCVNxmthtKGmw
resolved {\"didDocument\":{\"id\":\"did:sidetree:EiATVLsbLfdR25X6OuwLpHYrA7MGDT2v_aCVNxmthtKGmw\"},\"didDocumentMetadata\":{\"canonicalId\":\"did:sidetree:EiATVLsbLfdR25X6OuwLpHYrA7MGDT2v_aCVNxmthtKGmw\",\"method\":{\"published\":true,\"recoveryCommitment\":\"EiC6eBa_jwHP6kFBQN5driIjsANho5YXepy0EP9h8gAVrQ\",\"updateCommitment\":\"EiDjsMRCmPwcFJr79MiZb7kkJ65B5GSbk0yklZkbeFK4VQ\"}}}
submit {\"delta\":{\"patches\":[],\"updateCommitment\":\"EiDjsMRCmPwcFJr79MiZb7kkJ65B5GSbk0yklZkbeFK4VQ\"},\"suffixData\":{\"deltaHash\":\"EiBNHNlO-0eRfvDE-fNCBUxpL9nvDZmBJZLNcubQR4qsnQ\",\"recoveryCommitment\":\"EiC6eBa_jwHP6kFBQN5driIjsANho5YXepy0EP9h8gAVrQ\"},\"type\":\"create\"}
queued EiATVLsbLfdR25X6OuwLpHYrA7MGDT2v_aCVNxmthtKGmw
submit
refused line words
flush 
refused line words
Flush
refused line command
";

// The reply to the flush of that session, which has several lines, without the last line feed.
const BATCH: &str = "\
batch 1.EiB8mMGl7eGVHIh_r5IZavALhbNZi3lA9-fEQRERB82cYQ 3
file core EiB8mMGl7eGVHIh_r5IZavALhbNZi3lA9-fEQRERB82cYQ eyJvcGVyYXRpb25zIjp7ImNyZWF0ZSI6W3sic3VmZml4RGF0YSI6eyJkZWx0YUhhc2giOiJFaUJOSE5sTy0wZVJmdkRFLWZOQ0JVeHBMOW52RFptQkpaTE5jdWJRUjRxc25RIiwicmVjb3ZlcnlDb21taXRtZW50IjoiRWlDNmVCYV9qd0hQNmtGQlFONWRyaUlqc0FOaG81WVhlcHkwRVA5aDhnQVZyUSJ9fV19LCJwcm92aXNpb25hbEluZGV4RmlsZVVyaSI6IkVpQ3RVZGs3bVJLQnpHbFBqS3ZYRWJaNERMTTBOcXRKbkE2TFYtcGVwVUQwOWcifQ
file provisional EiCtUdk7mRKBzGlPjKvXEbZ4DLM0NqtJnA6LV-pepUD09g eyJjaHVua3MiOlt7ImNodW5rRmlsZVVyaSI6IkVpQXA2cXJobjNQcXVJSVh6a2VyXzR4LU1MMDZQQXhla1cxQnlOQjF0MnpTNWcifV19
file chunk EiAp6qrhn3PquIIXzker_4x-ML06PAxekW1ByNB1t2zS5g eyJkZWx0YXMiOlt7InBhdGNoZXMiOltdLCJ1cGRhdGVDb21taXRtZW50IjoiRWlEanNNUkNtUHdjRkpyNzlNaVpiN2trSjY1QjVHU2JrMHlrbFprYmVGSzRWUSJ9XX0";

// The node after a line, if it gives this reply.
fn told(
    alloc: Global,
    node: Node,
    line: &str,
    expected: &str,
    work: &mut Work,
) -> Result<Option<Node>, WantOfMemory> {
    let (next, reply) = node.answer(alloc, line.as_bytes(), work)?;
    Ok(if is_reply(reply.as_slice(), expected) {
        Some(next)
    } else {
        None
    })
}

// The first line of the session with another reply from a new node than the one after it, or
// another fault at the end: the last request waits for a batch.
fn first_other(alloc: Global, work: &mut Work) -> Result<Option<&'static str>, WantOfMemory> {
    let mut node = Node::new(alloc, Schedule::with_second(10))?;
    let mut lines = SESSION.lines();
    while let Some(line) = lines.next() {
        let expected = lines.next().unwrap_or("");
        node = match told(alloc, node, line, expected, work)? {
            Some(next) => next,
            None => return Ok(Some(line)),
        };
    }
    Ok(if node.queued() == 1 {
        None
    } else {
        Some("the queue")
    })
}

// Lines of the session by their places in it, in another order; each has the reply that it has
// there. A long form is requested twice before its entry has its file and twice after that, once
// when the entry is removed, and once when it is there again.
const AGAIN: &[usize] = &[0, 2, 16, 16, 18, 26, 26, 34, 16, 2, 26];

// The first of these lines with another reply from a new node.
fn first_other_again(alloc: Global, work: &mut Work) -> Result<Option<&'static str>, WantOfMemory> {
    let mut node = Node::new(alloc, Schedule::with_second(10))?;
    for place in AGAIN {
        let mut lines = SESSION.lines();
        let line = lines.nth(*place).unwrap_or("");
        let expected = lines.next().unwrap_or("");
        node = match told(alloc, node, line, expected, work)? {
            Some(next) => next,
            None => return Ok(Some(line)),
        };
    }
    Ok(None)
}

fn is_reply(reply: &[u8], expected: &str) -> bool {
    let expected = if expected == "BATCH" { BATCH } else { expected };
    reply.strip_suffix(b"\n") == Some(expected.as_bytes())
}

#[test]
fn each_line_has_its_reply(rt: HostRuntime) -> Result<(), Fail> {
    let mut work = Work::new(&rt);
    if let Some(line) = first_other(rt.alloc(), &mut work)? {
        return Err(Fail::from(line));
    }
    // One file was read for the first entry whose anchor string passes, and three for that of the
    // batch.
    assert!(rt; work.files() == 4 && work.proofs() == 0);
    Ok(())
}

#[test]
fn what_is_asked_again_follows_the_entries_and_files(rt: HostRuntime) -> Result<(), Fail> {
    let mut work = Work::new(&rt);
    match first_other_again(rt.alloc(), &mut work)? {
        Some(line) => Err(Fail::from(line)),
        None => Ok(()),
    }
}

fn reads_an_anchor(alloc: Global) -> bool {
    match read_command(alloc, b"anchor 7 1.x y") {
        Ok(command) => is_anchor(&command),
        Err(_) => false,
    }
}

fn is_anchor(command: &Command<'_>) -> bool {
    match command {
        Command::Anchor { height, text } => *height == 7 && text.as_slice() == b"1.x y".as_slice(),
        _ => false,
    }
}

// Whether a command appends an entry.
fn appends(alloc: Global, work: &mut Work) -> Result<bool, WantOfMemory> {
    let text = Lent::new(b"x");
    let node = Node::new(alloc, Schedule::new())?;
    let (node, _reply) = node.step(alloc, Command::Anchor { height: 0, text }, work)?;
    Ok(node.observer().ledger().len() == 1)
}

#[test]
fn a_command_is_read_and_carried_out(rt: HostRuntime) -> Result<(), Fail> {
    let mut work = Work::new(&rt);
    isolation_law();
    assert!(rt; reads_an_anchor(rt.alloc()));
    assert!(rt; appends(rt.alloc(), &mut work)?);
    Ok(())
}
