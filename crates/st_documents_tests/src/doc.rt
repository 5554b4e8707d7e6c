mod applied;
mod bounds;
mod forms;

use st_base::{Copied, read_number};
use st_canon::{Json, PackedJson, read, write};
use st_doc::{Delta, DeltaRefused, Document, PatchRefused, apply_all, check_delta, is_delta};
use st_params::{Params, Schedule};
use st_scan::Scanned;
use std::alloc::Global;

// A delta with these patches, and the hash text of `abc`.
const PATCHES: &str =
    r#"{"patches":%,"updateCommitment":"EiC6eBa_jwHP6kFBQN5driIjsANho5YXepy0EP9h8gAVrQ"}"#;

fn params(version: &str) -> Params {
    if version == "2" {
        Schedule::with_second(0).newest()
    } else {
        Schedule::new().newest()
    }
}

fn json(alloc: Global, text: &str) -> Option<Json> {
    read(alloc, text.as_bytes()).ok()
}

// The JSON of the frame, with this text in place of `%`.
fn framed(alloc: Global, frame: &str, text: &str) -> Option<Json> {
    match frame.replace(alloc, "%", text) {
        Ok(whole) => json(alloc, whole.as_str()),
        Err(_) => None,
    }
}

fn is_numbered(text: &str, word: &str, at: usize) -> bool {
    match text.strip_prefix(word) {
        Some(number) => match read_number(number.as_bytes(), 1_000) {
            Some(number) => number as usize == at,
            None => false,
        },
        None => false,
    }
}

fn is_text(alloc: Global, document: &Document, text: &str) -> bool {
    match document.json(alloc) {
        Ok(json) => match write(alloc, &json) {
            Ok(written) => written.as_slice() == text.as_bytes(),
            Err(_) => false,
        },
        Err(_) => false,
    }
}

// Whether its text is recognized as a delta if and only if it is one.
fn is_told(alloc: Global, value: &Json, params: &Params, is: bool) -> bool {
    let Ok(packed) = PackedJson::pack(alloc, value) else {
        return false;
    };
    match packed.text() {
        Some(text) => match is_delta(alloc, &Scanned::again(text), params) {
            Ok(told) => told == is,
            Err(_) => false,
        },
        None => false,
    }
}

// Whether this is the answer to the value: `accepted`, or why it is not a delta.
fn is_taken(alloc: Global, value: Json, params: &Params, taken: &str) -> bool {
    if !is_told(alloc, &value, params, taken == "accepted") {
        return false;
    }
    match check_delta(alloc, &value, params) {
        Ok(_) => taken == "accepted",
        Err(DeltaRefused::TooLong) => taken == "too long",
        Err(DeltaRefused::BadDelta) => taken == "bad delta",
        Err(DeltaRefused::BadPatch(at)) => is_numbered(taken, "bad patch ", at),
        Err(DeltaRefused::WantOfMemory) => false,
    }
}

// Whether this is the document after the patches: its canonical text, or the number of the patch
// that fails.
fn make(alloc: Global, document: Document, delta: Delta, params: &Params, made: &str) -> bool {
    match apply_all(alloc, document, delta, params) {
        Ok(document) => is_text(alloc, &document, made),
        Err(PatchRefused::PatchFailed(at)) => is_numbered(made, "failed ", at),
        Err(PatchRefused::WantOfMemory) => false,
    }
}

// The same for copies of both, after which both are unchanged.
fn copies_make(
    alloc: Global,
    document: &Document,
    delta: &Delta,
    params: &Params,
    made: &str,
) -> bool {
    match document.copy(alloc) {
        Ok(document) => match delta.copy(alloc) {
            Ok(delta) => make(alloc, document, delta, params, made),
            Err(_) => false,
        },
        Err(_) => false,
    }
}

fn delta_makes(
    alloc: Global,
    document: &Document,
    delta: Json,
    params: &Params,
    made: &str,
) -> bool {
    match check_delta(alloc, &delta, params) {
        Ok(delta) => copies_make(alloc, document, &delta, params, made),
        Err(_) => false,
    }
}

// Whether this is the document of the value after the patches.
fn patches_make(alloc: Global, value: &Json, patches: &str, params: &Params, made: &str) -> bool {
    match Document::read(alloc, value, params) {
        Ok(document) => match framed(alloc, PATCHES, patches) {
            Some(delta) => delta_makes(alloc, &document, delta, params, made),
            None => false,
        },
        Err(_) => false,
    }
}
