ghost use Rattle.std.specs.Option.{option_copied};
ghost use Rattle.std.specs.Prelude.{◌≡◌, ◌≤◌, IfSome};
ghost use Rattle.st_base.specs.Answers.{Gives};
ghost use Rattle.st_lms.specs.Tree.{secret_key};
ghost use Rattle.st_lms.specs.OneTime.{IsOneTimeType, IsTreeType};
ghost use Rattle.st_wallet.specs.Command.{command_of, command_of_words, create_of, deactivate_of, format_in, format_of, key_of, left_of, recover_of, sign_hss_of, update_of};
ghost use Rattle.st_wallet.specs.Words.{number_between, bytes_of_hex, nonce_of};
ghost use Rattle.st_wallet.specs.inside.Machine.{cause_of};

use hex::FromHex;
use st_base::{Bytes, WantOfMemory, cut_at, cut_word, read_number};
use st_hash::{DecRefused, dec};
use st_lms::Secret;
use std::alloc::Global;

/// The number with this decimal text, if it is in this range.
pub(crate) fn read_between(word: &[u8], least: u32, most: u32) -> Option<u32>
    ensures value { result ≡ number_between least most word.now }
    ensures least { IfSome result (λ number. least ≤ number) }
    ensures most { IfSome result (λ number. number ≤ most) }
{
    let number = read_number(word, most)?;
    if number < least {
        return None;
    }
    Some(number)
}

/// Distinguishes the JWKs of one public key, if present.
pub(crate) type Nonce = Option<[u8; 16]>;

const NO_NONCE: &[u8] = b"-";

/// The bytes with these hexadecimal digits, in either case.
pub(crate) fn read_hex<const N: usize>(word: &[u8]) -> Option<[u8; N]>
    ensures { result ≡ bytes_of_hex N word.now }
{
    <[u8; N] as FromHex>::from_hex(word).ok()
}

/// The nonce in a word: 32 hexadecimal digits, or `-` for none.
pub(crate) fn read_nonce(word: &[u8]) -> Option<Nonce>
    ensures { result ≡ nonce_of word.now }
{
    if word == NO_NONCE {
        return Some(None);
    }
    match read_hex::<16>(word) {
        Some(nonce) => Some(Some(nonce)),
        None => None,
    }
}

/// The largest number of bytes of a line.
pub const LONGEST_LINE: usize = 24_000_000;

const FORMAT: &[u8] = b"format";

const KEY: &[u8] = b"key";

const LEFT: &[u8] = b"left";

const CREATE: &[u8] = b"create";

const UPDATE: &[u8] = b"update";

const RECOVER: &[u8] = b"recover";

const DEACTIVATE: &[u8] = b"deactivate";

const SIGN_HSS: &[u8] = b"sign-hss";

/// The command of a line. Suffixes and deltas are not checked yet.
#[derive(Drop)]
pub(crate) enum Command {
    /// `format <ots> <tree> <id> <seed>`: make a vault of this key.
    Format(Secret),
    /// `key <nonce>`: give the key with this nonce.
    Key(Nonce),
    /// `left`: give the number of counters left.
    Left,
    /// `create <recovery nonce> <delta>`
    Create {
        nonce: Nonce,
        delta: Bytes,
    },
    /// `update <suffix> <nonce> <delta>`
    Update {
        suffix: Bytes,
        nonce: Nonce,
        delta: Bytes,
    },
    /// `recover <suffix> <nonce> <next nonce> <delta>`
    Recover {
        suffix: Bytes,
        nonce: Nonce,
        next: Nonce,
        delta: Bytes,
    },
    /// `deactivate <suffix> <nonce>`
    Deactivate {
        suffix: Bytes,
        nonce: Nonce,
    },
    /// `sign-hss <base64url of a message>`: sign it with two levels.
    SignHss(Bytes),
}

/// Why a line is not a command: the first of these that holds, in this order.
#[derive(Clone, Copy, Debug, PartialEq, Eq)]
pub(crate) enum LineCause {
    /// The line has more than 24,000,000 bytes.
    Long,
    /// The command word is unknown. It is the part before the first space, or the whole line.
    Command,
    /// A space is missing, or follows `left`.
    Words,
    /// A number is not an allowed one, in decimal.
    Number,
    /// An id, a seed or a nonce does not have its number of hexadecimal digits.
    Hex,
    /// A message is not the base64url of any bytes.
    Base64,
}

/// Why a line was not read as a command.
#[derive(Clone, Copy, Debug, PartialEq, Eq)]
pub(crate) enum LineRefused {
    /// The line is not a command, for this cause.
    BadLine(LineCause),
    /// Out of memory.
    WantOfMemory,
}

impl From<WantOfMemory> for LineRefused {
    ghost use Rattle.std.specs.Prelude.{◌≡◌};
    ghost use Rattle.st_wallet.specs.declared.command.LineRefused.TheVariants.{WantOfMemory};

    ghost from_gives = { λ _ refused. refused ≡ WantOfMemory };

    fn from(_want: WantOfMemory) -> LineRefused {
        LineRefused::WantOfMemory
    }
}

/// The command of a line, which is given without its line feed.
pub(crate) fn read_command(alloc: Global, line: &[u8]) -> Result<Command, LineRefused>
    ensures { Gives cause_of (command_of line.now) result }
{
    if line.len() > LONGEST_LINE {
        return Err(LineRefused::BadLine(LineCause::Long));
    }
    let (word, behind) = cut_word(line, b' ');
    read_words(alloc, word, behind)
}

// The command with this word, from the text after it and a space.
fn read_words(alloc: Global, word: &[u8], behind: Option<&[u8]>) -> Result<Command, LineRefused>
    ensures { Gives cause_of (command_of_words word.now (option_copied behind.entry)) result }
{
    if word == FORMAT {
        read_format(behind)
    } else if word == KEY {
        read_key(behind)
    } else if word == LEFT {
        read_left(behind)
    } else if word == CREATE {
        read_create(alloc, behind)
    } else if word == UPDATE {
        read_update(alloc, behind)
    } else if word == RECOVER {
        read_recover(alloc, behind)
    } else if word == DEACTIVATE {
        read_deactivate(alloc, behind)
    } else if word == SIGN_HSS {
        read_sign_hss(alloc, behind)
    } else {
        Err(LineRefused::BadLine(LineCause::Command))
    }
}

fn read_format(behind: Option<&[u8]>) -> Result<Command, LineRefused>
    ensures { Gives cause_of (format_of (option_copied behind.entry)) result }
{
    let Some(rest) = behind else {
        return Err(LineRefused::BadLine(LineCause::Words));
    };
    let Some((ots, rest)) = cut_at(rest, b' ') else {
        return Err(LineRefused::BadLine(LineCause::Words));
    };
    let Some((tree, rest)) = cut_at(rest, b' ') else {
        return Err(LineRefused::BadLine(LineCause::Words));
    };
    let Some((id, seed)) = cut_at(rest, b' ') else {
        return Err(LineRefused::BadLine(LineCause::Words));
    };
    let Some(ots) = read_between(ots, 1, 4) else {
        return Err(LineRefused::BadLine(LineCause::Number));
    };
    let Some(tree) = read_between(tree, 5, 6) else {
        return Err(LineRefused::BadLine(LineCause::Number));
    };
    let Some(id) = read_hex::<16>(id) else {
        return Err(LineRefused::BadLine(LineCause::Hex));
    };
    let Some(seed) = read_hex::<32>(seed) else {
        return Err(LineRefused::BadLine(LineCause::Hex));
    };
    Ok(Command::Format(secret_of(ots, tree, id, seed)))
}

// The key of known types.
fn secret_of(ots: u32, tree: u32, id: [u8; 16], seed: [u8; 32]) -> Secret
    requires ots { IsOneTimeType ots }
    requires tree { IsTreeType tree }
    ensures { result ≡ secret_key ots tree id seed }
{
    Secret::new(ots, tree, id, seed).unwrap()
}

fn read_key(behind: Option<&[u8]>) -> Result<Command, LineRefused>
    ensures { Gives cause_of (key_of (option_copied behind.entry)) result }
{
    let Some(nonce) = behind else {
        return Err(LineRefused::BadLine(LineCause::Words));
    };
    let Some(nonce) = read_nonce(nonce) else {
        return Err(LineRefused::BadLine(LineCause::Hex));
    };
    Ok(Command::Key(nonce))
}

fn read_left(behind: Option<&[u8]>) -> Result<Command, LineRefused>
    ensures { Gives cause_of (left_of (option_copied behind.entry)) result }
{
    match behind {
        Some(_) => Err(LineRefused::BadLine(LineCause::Words)),
        None => Ok(Command::Left),
    }
}

fn read_create(alloc: Global, behind: Option<&[u8]>) -> Result<Command, LineRefused>
    ensures { Gives cause_of (create_of (option_copied behind.entry)) result }
{
    let Some(rest) = behind else {
        return Err(LineRefused::BadLine(LineCause::Words));
    };
    let Some((nonce, delta)) = cut_at(rest, b' ') else {
        return Err(LineRefused::BadLine(LineCause::Words));
    };
    let Some(nonce) = read_nonce(nonce) else {
        return Err(LineRefused::BadLine(LineCause::Hex));
    };
    let delta = Bytes::from_slice(alloc, delta)?;
    Ok(Command::Create { nonce, delta })
}

fn read_update(alloc: Global, behind: Option<&[u8]>) -> Result<Command, LineRefused>
    ensures { Gives cause_of (update_of (option_copied behind.entry)) result }
{
    let Some(rest) = behind else {
        return Err(LineRefused::BadLine(LineCause::Words));
    };
    let Some((suffix, rest)) = cut_at(rest, b' ') else {
        return Err(LineRefused::BadLine(LineCause::Words));
    };
    let Some((nonce, delta)) = cut_at(rest, b' ') else {
        return Err(LineRefused::BadLine(LineCause::Words));
    };
    let Some(nonce) = read_nonce(nonce) else {
        return Err(LineRefused::BadLine(LineCause::Hex));
    };
    let suffix = Bytes::from_slice(alloc, suffix)?;
    let delta = Bytes::from_slice(alloc, delta)?;
    Ok(Command::Update {
        suffix,
        nonce,
        delta,
    })
}

fn read_recover(alloc: Global, behind: Option<&[u8]>) -> Result<Command, LineRefused>
    ensures { Gives cause_of (recover_of (option_copied behind.entry)) result }
{
    let Some(rest) = behind else {
        return Err(LineRefused::BadLine(LineCause::Words));
    };
    let Some((suffix, rest)) = cut_at(rest, b' ') else {
        return Err(LineRefused::BadLine(LineCause::Words));
    };
    let Some((nonce, rest)) = cut_at(rest, b' ') else {
        return Err(LineRefused::BadLine(LineCause::Words));
    };
    let Some((next, delta)) = cut_at(rest, b' ') else {
        return Err(LineRefused::BadLine(LineCause::Words));
    };
    let Some(nonce) = read_nonce(nonce) else {
        return Err(LineRefused::BadLine(LineCause::Hex));
    };
    let Some(next) = read_nonce(next) else {
        return Err(LineRefused::BadLine(LineCause::Hex));
    };
    let suffix = Bytes::from_slice(alloc, suffix)?;
    let delta = Bytes::from_slice(alloc, delta)?;
    Ok(Command::Recover {
        suffix,
        nonce,
        next,
        delta,
    })
}

fn read_deactivate(alloc: Global, behind: Option<&[u8]>) -> Result<Command, LineRefused>
    ensures { Gives cause_of (deactivate_of (option_copied behind.entry)) result }
{
    let Some(rest) = behind else {
        return Err(LineRefused::BadLine(LineCause::Words));
    };
    let Some((suffix, nonce)) = cut_at(rest, b' ') else {
        return Err(LineRefused::BadLine(LineCause::Words));
    };
    let Some(nonce) = read_nonce(nonce) else {
        return Err(LineRefused::BadLine(LineCause::Hex));
    };
    let suffix = Bytes::from_slice(alloc, suffix)?;
    Ok(Command::Deactivate { suffix, nonce })
}

fn read_sign_hss(alloc: Global, behind: Option<&[u8]>) -> Result<Command, LineRefused>
    ensures { Gives cause_of (sign_hss_of (option_copied behind.entry)) result }
{
    let Some(text) = behind else {
        return Err(LineRefused::BadLine(LineCause::Words));
    };
    match dec(alloc, text) {
        Ok(message) => Ok(Command::SignHss(message)),
        Err(DecRefused::BadBase64) => Err(LineRefused::BadLine(LineCause::Base64)),
        Err(DecRefused::WantOfMemory) => Err(LineRefused::WantOfMemory),
    }
}

/// The key of a `format`.
pub(crate) fn secret_in(command: Command) -> Option<Secret>
    ensures { result ≡ format_in command }
{
    match command {
        Command::Format(secret) => Some(secret),
        _ => None,
    }
}
