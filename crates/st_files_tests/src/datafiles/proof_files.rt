use super::case_of;
use st_base::{Bytes, Copied, FileRefused, KeptText, List, Shared, Text, WantOfMemory, Work};
use st_datafiles::{
    CoreProofs, ProofRefused, read_core_proof, read_provisional_proof, write_core_proof,
    write_provisional_proof,
};
use st_params::Schedule;
use std::alloc::Global;
use std::test::Fail;

// The wanted number of deactivates with no recover, the answer, and the file: the rule that rejects
// it, or `read`.
const CORE: &str = r#"1 Q2 x
1 Q3 {}
1 Q3 []
1 Q3 {"operations":{"deactivate":[{"signedData":"x"}]},"a":1}
1 Q3 {"operations":null}
1 Q3 {"operations":{"update":[]}}
1 Q3 {"operations":{"deactivate":null}}
1 Q3 {"operations":{"deactivate":["x"]}}
1 Q3 {"operations":{"deactivate":[{"signedData":1}]}}
1 Q3 {"operations":{"deactivate":[{"signedData":"x","a":1}]}}
1 Q4 {"operations":{"deactivate":[]}}
1 Q4 {"operations":{"recover":[{"signedData":"x"}]}}
1 Q4 {"operations":{"deactivate":[{"signedData":"x"},{"signedData":"y"}]}}
1 read {"operations":{"deactivate":[{"signedData":"x"}]}}
0 read {"operations":{}}"#;

// The wanted number of updates, the answer, and the file.
const PROVISIONAL: &str = r#"1 Q2 1.5
1 Q3 {}
1 Q3 {"operations":{"recover":[]}}
1 Q3 {"operations":{"update":[{}]}}
1 Q4 {"operations":{}}
1 Q4 {"operations":{"update":[]}}
2 Q4 {"operations":{"update":[{"signedData":"x"}]}}
1 read {"operations":{"update":[{"signedData":"x"}]}}"#;

fn is_told<Read: Drop>(answer: Result<Read, ProofRefused>, word: &str) -> bool {
    match answer {
        Ok(_) => word == "read",
        Err(FileRefused::Rejected(rule)) => rule.name() == word,
        Err(FileRefused::WantOfMemory) => false,
    }
}

// Whether this is the answer to a core proof file if this many deactivates are wanted.
fn core_is(
    rt: &HostRuntime,
    file: Bytes,
    deactivates: usize,
    answer: &str,
) -> Result<bool, WantOfMemory> {
    let alloc = rt.alloc();
    let file = Shared::new(alloc, file)?;
    let params = Schedule::new().newest();
    let found = read_core_proof(alloc, &file, 0, deactivates, &params, &mut Work::new(rt));
    Ok(is_told(found, answer))
}

// The same for a provisional proof file.
fn provisional_is(
    rt: &HostRuntime,
    file: Bytes,
    updates: usize,
    answer: &str,
) -> Result<bool, WantOfMemory> {
    let alloc = rt.alloc();
    let file = Shared::new(alloc, file)?;
    let params = Schedule::new().newest();
    let found = read_provisional_proof(alloc, &file, updates, &params, &mut Work::new(rt));
    Ok(is_told(found, answer))
}

fn is_so(rt: &HostRuntime, case: &str, is_core: bool) -> Result<bool, WantOfMemory> {
    let Some((wanted, answer, file)) = case_of(case) else {
        return Ok(false);
    };
    let file = Bytes::from_slice(rt.alloc(), file.as_bytes())?;
    if is_core {
        core_is(rt, file, wanted, answer)
    } else {
        provisional_is(rt, file, wanted, answer)
    }
}

#[test]
fn a_core_proof_file_fails_its_first_rule(rt: HostRuntime) -> Result<(), Fail> {
    for case in CORE.lines() {
        assert!(rt; is_so(&rt, case, true)?, "{case}");
    }
    Ok(())
}

#[test]
fn a_provisional_proof_file_fails_its_first_rule(rt: HostRuntime) -> Result<(), Fail> {
    for case in PROVISIONAL.lines() {
        assert!(rt; is_so(&rt, case, false)?, "{case}");
    }
    Ok(())
}

fn texts(alloc: Global, lines: &str) -> Result<List<KeptText>, WantOfMemory> {
    let mut texts = List::new(alloc);
    for line in lines.lines() {
        texts.push(alloc, KeptText::new(Text::from_text(alloc, line)?))?;
    }
    Ok(texts)
}

fn are(texts: &[KeptText], lines: &str) -> bool {
    let mut lines = lines.lines();
    for text in texts {
        if lines.next() != Some(text.as_str()) {
            return false;
        }
    }
    lines.next().is_none()
}

// Whether a core proof file is read as these recovers and deactivates, one file in all.
fn core_reads(
    rt: &HostRuntime,
    file: Bytes,
    recovers: &str,
    deactivates: &str,
) -> Result<bool, WantOfMemory> {
    let alloc = rt.alloc();
    let file = Shared::new(alloc, file)?;
    let counts = (recovers.lines().count(), deactivates.lines().count());
    let params = Schedule::new().newest();
    let mut work = Work::new(rt);
    match read_core_proof(alloc, &file, counts.0, counts.1, &params, &mut work) {
        Ok(read) => Ok(
            are(read.recovers.as_slice(), recovers)
                && are(read.deactivates.as_slice(), deactivates)
                && work.files() == 1,
        ),
        Err(_) => Ok(false),
    }
}

// The same for a provisional proof file and these updates.
fn provisional_reads(rt: &HostRuntime, file: Bytes, updates: &str) -> Result<bool, WantOfMemory> {
    let alloc = rt.alloc();
    let file = Shared::new(alloc, file)?;
    let count = updates.lines().count();
    let params = Schedule::new().newest();
    let mut work = Work::new(rt);
    match read_provisional_proof(alloc, &file, count, &params, &mut work) {
        Ok(read) => Ok(are(read.as_slice(), updates) && work.files() == 1),
        Err(_) => Ok(false),
    }
}

// Whether core proofs are written as this text, and read again.
fn core_is_written(
    rt: &HostRuntime,
    recovers: &str,
    deactivates: &str,
    text: &str,
) -> Result<bool, WantOfMemory> {
    let alloc = rt.alloc();
    let proofs = CoreProofs {
        recovers: texts(alloc, recovers)?,
        deactivates: texts(alloc, deactivates)?,
    };
    let file = write_core_proof(alloc, &proofs.copy(alloc)?)?;
    Ok(file.as_slice() == text.as_bytes() && core_reads(rt, file, recovers, deactivates)?)
}

// Whether updates are written as this text, and read again.
fn updates_are_written(rt: &HostRuntime, updates: &str, text: &str) -> Result<bool, WantOfMemory> {
    let alloc = rt.alloc();
    let texts = texts(alloc, updates)?;
    let file = write_provisional_proof(alloc, texts.as_slice())?;
    Ok(file.as_slice() == text.as_bytes() && provisional_reads(rt, file, updates)?)
}

// The deactivates are before the recovers in a file, and a kind without texts is left out.
#[test]
fn signed_texts_are_written_and_read_again(rt: HostRuntime) -> Result<(), Fail> {
    let quoted = r#"{"operations":{"deactivate":[{"signedData":"a.b.c"},{"signedData":"\""}]}}"#;
    assert!(rt; core_is_written(&rt, "", "a.b.c\n\"", quoted)?);
    let both =
        r#"{"operations":{"deactivate":[{"signedData":"a.b.c"},{"signedData":"d"}],"recover":[{"signedData":"e"}]}}"#;
    assert!(rt; core_is_written(&rt, "e", "a.b.c\nd", both)?);
    let recovers = r#"{"operations":{"recover":[{"signedData":"e"}]}}"#;
    assert!(rt; core_is_written(&rt, "e", "", recovers)?);
    let updates =
        r#"{"operations":{"update":[{"signedData":"a.b.c"},{"signedData":"\""},{"signedData":"d"}]}}"#;
    assert!(rt; updates_are_written(&rt, "a.b.c\n\"\nd", updates)?);
    assert!(rt; write_provisional_proof(rt.alloc(), &[])?.as_slice() == b"{}".as_slice());
    Ok(())
}
