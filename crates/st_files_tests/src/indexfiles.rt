mod core_files;
mod hash_texts;
mod provisional_files;

use crate::words::three;
use st_base::{Bytes, List, read_number};
use st_indexfiles::Target;
use st_scan::CanonicalText;
use std::alloc::Global;

// The hash texts of `abc` by SHA-256 and by SHA-512 (FIPS 180-4).
const OF_ABC: &str = "EiC6eBa_jwHP6kFBQN5driIjsANho5YXepy0EP9h8gAVrQ";

const SHA_512: &str =
    "E0DdrzWhk2F6usxBc0muIEExEub6TompfqIKnu7mS1XTmiGSmSonT8GoNro8I6P-671FTUQjZDzoDiqayU-lTKSf";

// The signs in an abbreviated file: + is a create, ! and ? are updates of two suffixes and @ is one
// of the create's, ~ is a chunk; * and ^ are the hash texts of `abc` and of no bytes, and # that of
// `abc` by SHA-512; $ is the suffix of the create, as another program computes it.
const SIGNS: &str = r#"+ {"suffixData":{"deltaHash":"*","recoveryCommitment":"^"}}
! {"didSuffix":"*","revealValue":"^"}
? {"didSuffix":"^","revealValue":"^"}
@ {"didSuffix":"$","revealValue":"^"}
~ {"chunkFileUri":"*"}
* EiC6eBa_jwHP6kFBQN5driIjsANho5YXepy0EP9h8gAVrQ
^ EiDjsMRCmPwcFJr79MiZb7kkJ65B5GSbk0yklZkbeFK4VQ
# E0DdrzWhk2F6usxBc0muIEExEub6TompfqIKnu7mS1XTmiGSmSonT8GoNro8I6P-671FTUQjZDzoDiqayU-lTKSf
$ EiATdX8Q5MV_plJJmuNAF_0nOfwoAX70r-tP5eSOPf86vA"#;

fn replaced(alloc: Global, text: &str, line: &str) -> Option<String> {
    let (sign, meaning) = line.split_once(' ')?;
    text.replace(alloc, sign, meaning).ok()
}

// The file with this abbreviation.
fn spelled(alloc: Global, short: &str) -> Option<String> {
    let mut text = String::from_str(alloc, short).ok()?;
    for line in SIGNS.lines() {
        text = replaced(alloc, text.as_str(), line)?;
    }
    Some(text)
}

// A case of a table: a version, a declared count, the answer, and the file.
fn case_of(line: &str) -> Option<(u32, u32, &str, &str)> {
    let (version, count, rest) = three(line)?;
    let (answer, file) = rest.split_once(' ')?;
    let version = read_number(version.as_bytes(), 2)?;
    let count = read_number(count.as_bytes(), 10_000)?;
    Some((version, count, answer, file))
}

// What was written, read back.
fn text_of<'a>(alloc: Global, written: &'a Bytes) -> Option<CanonicalText<'a>> {
    CanonicalText::read_json(alloc, written.as_slice()).ok()?
}

fn only(alloc: Global, target: Target) -> Option<List<Target>> {
    let mut targets = List::new(alloc);
    targets.push(alloc, target).ok()?;
    Some(targets)
}
