ghost use Rattle.std.specs.Option.{option_copied};
ghost use Rattle.std.specs.Prelude.{◌≡◌, ◌&&◌, codes, drop};
ghost use Rattle.st_base.specs.Answers.{Gives};
ghost use Rattle.st_node.specs.Laws.{begins_with, is_changing, is_positive};
ghost use Rattle.st_node.specs.Command.{anchor_of, cause_of, command_of, command_of_words, content_of, explain_of, flush_of, report_of, resolve_of, rollback_of, submit_of, wanted_of};

use st_base::{Bytes, Copied, WantOfMemory, cut_at, cut_word, read_number};
use st_hash::{DecRefused, dec};
use std::alloc::Global;
use std::marker::Model;
use thiserror::Error;

/// A borrowed part of a line, without memory of its own. Contracts see its bytes.
#[derive(Debug, Drop)]
pub struct Lent<'a> {
    bytes: &'a [u8],
}

impl<'a> Model for Lent<'a> {
    ghost use Rattle.std.specs.Prelude.{List, ℕ};

    ghost Value = { List ℕ };

    ghost view = { λ lent. lent.bytes.now };
}

impl<'a> Copied for Lent<'a> {
    fn copy(&self, _alloc: Global) -> Result<Lent<'a>, WantOfMemory> {
        Ok(Lent { bytes: self.bytes })
    }
}

impl<'a> Lent<'a> {
    /// These bytes.
    pub fn new(bytes: &'a [u8]) -> Lent<'a>
        ensures { result ≡ bytes.now }
    {
        Lent { bytes }
    }

    /// The bytes, for as long as the line is borrowed.
    pub fn as_slice(&self) -> &'a [u8]
        ensures { result.now ≡ self.now }
    {
        self.bytes
    }
}

/// The largest number of bytes of a line.
pub const LONGEST_LINE: usize = 24_000_000;

const CONTENT: &[u8] = b"content";

const ANCHOR: &[u8] = b"anchor";

const ROLLBACK: &[u8] = b"rollback";

const RESOLVE: &[u8] = b"resolve";

const EXPLAIN: &[u8] = b"explain";

const WANTED: &[u8] = b"wanted";

const REPORT: &[u8] = b"report";

const SUBMIT: &[u8] = b"submit";

const FLUSH: &[u8] = b"flush";

/// The command of a line. Texts and requests are borrowed from the line; the bytes of a file are
/// decoded.
#[derive(Debug, Drop)]
pub enum Command<'a> {
    /// `content <base64url>`: store these bytes as a file.
    Content(Bytes),
    /// `anchor <height> <text>`: append this entry to the ledger.
    Anchor { height: u32, text: Lent<'a> },
    /// `rollback <n>`: keep the first `n` entries of the ledger.
    Rollback(u32),
    /// `resolve <did>`: resolve this identifier.
    Resolve(Lent<'a>),
    /// `explain <did>`: list the verdict on each operation of this identifier.
    Explain(Lent<'a>),
    /// `wanted`: list the missing files.
    Wanted,
    /// `report <n>`: the states of the five roles of this entry.
    Report(u32),
    /// `submit <request>`: queue the operation of this request.
    Submit(Lent<'a>),
    /// `flush`: make a batch of the queued operations.
    Flush,
}

impl<'a> Copied for Command<'a> {
    /// An equal command of the same line.
    fn copy(&self, alloc: Global) -> Result<Command<'a>, WantOfMemory> {
        match self {
            Command::Content(bytes) => Ok(Command::Content(bytes.copy(alloc)?)),
            Command::Anchor { height, text } => Ok(Command::Anchor {
                height: *height,
                text: text.copy(alloc)?,
            }),
            Command::Rollback(n) => Ok(Command::Rollback(*n)),
            Command::Resolve(did) => Ok(Command::Resolve(did.copy(alloc)?)),
            Command::Explain(did) => Ok(Command::Explain(did.copy(alloc)?)),
            Command::Wanted => Ok(Command::Wanted),
            Command::Report(n) => Ok(Command::Report(*n)),
            Command::Submit(request) => Ok(Command::Submit(request.copy(alloc)?)),
            Command::Flush => Ok(Command::Flush),
        }
    }
}

/// Why a line is not a command: the first of these that holds, in this order.
#[derive(Clone, Copy, Debug, PartialEq, Eq)]
pub enum LineCause {
    /// The line has more than 24,000,000 bytes.
    Long,
    /// The command word is unknown. It is the part before the first space, or the whole line.
    Command,
    /// A space is missing, or follows `wanted` or `flush`.
    Words,
    /// A number is not decimal from 0 to 4,294,967,295 without leading zeros.
    Number,
    /// A text is not the base64url of any bytes.
    Base64,
}

/// Why a line was not read as a command.
#[derive(Clone, Copy, Debug, PartialEq, Eq, Error)]
pub enum LineRefused {
    /// The line is not a command, for this cause.
    #[error("not a command")]
    BadLine(LineCause),
    /// Out of memory.
    #[error("out of memory")]
    WantOfMemory,
}

impl From<WantOfMemory> for LineRefused {
    ghost use Rattle.std.specs.Prelude.{◌≡◌};
    ghost use Rattle.st_node.specs.declared.command.LineRefused.TheVariants.{WantOfMemory};

    ghost from_gives = { λ _ refused. refused ≡ WantOfMemory };

    fn from(_want: WantOfMemory) -> LineRefused {
        LineRefused::WantOfMemory
    }
}

/// The command of a line, which is given without its line feed.
///
/// The result is `BadLine` if and only if the line is not a command; it has the first cause that
/// holds.
pub fn read_command(alloc: Global, line: &[u8]) -> Result<Command<'_>, LineRefused>
    ensures { Gives cause_of (command_of line.now) result }
{
    if line.len() > LONGEST_LINE {
        return Err(LineRefused::BadLine(LineCause::Long));
    }
    let (word, behind) = cut_word(line, b' ');
    read_words(alloc, word, behind)
}

// The command with this word, from the text after it and a space.
fn read_words<'a>(
    alloc: Global,
    word: &[u8],
    behind: Option<&'a [u8]>,
) -> Result<Command<'a>, LineRefused>
    ensures { Gives cause_of (command_of_words word.now (option_copied behind.entry)) result }
{
    if word == CONTENT {
        read_content(alloc, behind)
    } else if word == ANCHOR {
        read_entry(behind)
    } else if word == ROLLBACK {
        read_rollback(behind)
    } else if word == RESOLVE {
        read_resolve(behind)
    } else if word == EXPLAIN {
        read_explain(behind)
    } else if word == WANTED {
        read_wanted(behind)
    } else if word == REPORT {
        read_report(behind)
    } else if word == SUBMIT {
        read_submit(behind)
    } else if word == FLUSH {
        read_flush(behind)
    } else {
        Err(LineRefused::BadLine(LineCause::Command))
    }
}

fn read_content(alloc: Global, behind: Option<&[u8]>) -> Result<Command<'_>, LineRefused>
    ensures { Gives cause_of (content_of (option_copied behind.entry)) result }
{
    let Some(text) = behind else {
        return Err(LineRefused::BadLine(LineCause::Words));
    };
    match dec(alloc, text) {
        Ok(bytes) => Ok(Command::Content(bytes)),
        Err(DecRefused::BadBase64) => Err(LineRefused::BadLine(LineCause::Base64)),
        Err(DecRefused::WantOfMemory) => Err(LineRefused::WantOfMemory),
    }
}

fn read_entry(behind: Option<&[u8]>) -> Result<Command<'_>, LineRefused>
    ensures { Gives cause_of (anchor_of (option_copied behind.entry)) result }
{
    let Some(rest) = behind else {
        return Err(LineRefused::BadLine(LineCause::Words));
    };
    let Some((height, text)) = cut_at(rest, b' ') else {
        return Err(LineRefused::BadLine(LineCause::Words));
    };
    let Some(height) = read_number(height, u32::MAX) else {
        return Err(LineRefused::BadLine(LineCause::Number));
    };
    Ok(Command::Anchor {
        height,
        text: Lent::new(text),
    })
}

fn read_rollback(behind: Option<&[u8]>) -> Result<Command<'_>, LineRefused>
    ensures { Gives cause_of (rollback_of (option_copied behind.entry)) result }
{
    let Some(rest) = behind else {
        return Err(LineRefused::BadLine(LineCause::Words));
    };
    let Some(n) = read_number(rest, u32::MAX) else {
        return Err(LineRefused::BadLine(LineCause::Number));
    };
    Ok(Command::Rollback(n))
}

fn read_resolve(behind: Option<&[u8]>) -> Result<Command<'_>, LineRefused>
    ensures { Gives cause_of (resolve_of (option_copied behind.entry)) result }
{
    let Some(did) = behind else {
        return Err(LineRefused::BadLine(LineCause::Words));
    };
    Ok(Command::Resolve(Lent::new(did)))
}

fn read_explain(behind: Option<&[u8]>) -> Result<Command<'_>, LineRefused>
    ensures { Gives cause_of (explain_of (option_copied behind.entry)) result }
{
    let Some(did) = behind else {
        return Err(LineRefused::BadLine(LineCause::Words));
    };
    Ok(Command::Explain(Lent::new(did)))
}

fn read_wanted(behind: Option<&[u8]>) -> Result<Command<'_>, LineRefused>
    ensures { Gives cause_of (wanted_of (option_copied behind.entry)) result }
{
    match behind {
        Some(_) => Err(LineRefused::BadLine(LineCause::Words)),
        None => Ok(Command::Wanted),
    }
}

fn read_report(behind: Option<&[u8]>) -> Result<Command<'_>, LineRefused>
    ensures { Gives cause_of (report_of (option_copied behind.entry)) result }
{
    let Some(rest) = behind else {
        return Err(LineRefused::BadLine(LineCause::Words));
    };
    let Some(n) = read_number(rest, u32::MAX) else {
        return Err(LineRefused::BadLine(LineCause::Number));
    };
    Ok(Command::Report(n))
}

fn read_submit(behind: Option<&[u8]>) -> Result<Command<'_>, LineRefused>
    ensures { Gives cause_of (submit_of (option_copied behind.entry)) result }
{
    let Some(request) = behind else {
        return Err(LineRefused::BadLine(LineCause::Words));
    };
    Ok(Command::Submit(Lent::new(request)))
}

fn read_flush(behind: Option<&[u8]>) -> Result<Command<'_>, LineRefused>
    ensures { Gives cause_of (flush_of (option_copied behind.entry)) result }
{
    match behind {
        Some(_) => Err(LineRefused::BadLine(LineCause::Words)),
        None => Ok(Command::Flush),
    }
}

/// Whether a reply says that its line changed the node: it starts with `have `, `anchored `,
/// `queued ` or `batch `, or with `cut ` and a digit other than 0.
pub fn changing(reply: &[u8]) -> bool
    ensures { result ≡ is_changing reply.now }
{
    begins_with(b"have ", reply)
        || begins_with(b"anchored ", reply)
        || cuts(reply)
        || begins_with(b"queued ", reply)
        || begins_with(b"batch ", reply)
}

// Whether a reply says that entries were removed.
fn cuts(reply: &[u8]) -> bool
    ensures { result ≡ begins_with (codes "cut ") reply.now && is_positive (drop 4 reply.now) }
{
    begins_with(b"cut ", reply) && is_positive(&reply[4..])
}

fn begins_with(front: &[u8], text: &[u8]) -> bool
    ensures { result ≡ begins_with front.now text.now }
{
    text.starts_with(front)
}

fn is_positive(text: &[u8]) -> bool
    ensures { result ≡ is_positive text.now }
{
    match text {
        [] => false,
        [digit, ..] => 49 <= *digit && *digit <= 57,
    }
}
