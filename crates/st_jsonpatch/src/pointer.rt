ghost use Rattle.std.specs.Prelude.{◌≡◌, ◌<◌, ◌++◌, ◌∷◌, [], true, length, string_bytes, IfSome, MatchOption, OnOk, bytes_eq};
ghost use Rattle.st_base.specs.Answers.{Gives};
ghost use Rattle.st_jsonpatch.specs.Pointer.{pointer_of, refusal_of, pieces_of, token_from, token_of, tokens_of};
ghost use Rattle.st_jsonpatch.specs.Stepped.{is_above};
ghost use Rattle.st_jsonpatch.specs.declared.pointer.PointerRefused.TheVariants.{BadPointer};
ghost use Rattle.st_jsonpatch.specs.inside.Changed.{after, Lacks};

use st_base::{Copied, List, Text, WantOfMemory};
use std::alloc::Global;
use std::marker::Model;
use thiserror::Error;

/// A JSON Pointer (RFC 6901). Contracts see it as the list of its tokens.
#[derive(Drop)]
pub struct Pointer {
    tokens: List<Text>,
}

impl Model for Pointer {
    ghost use Rattle.std.specs.Prelude.{List, ℕ};

    ghost Value = { List (List ℕ) };

    ghost view = { λ pointer. pointer.tokens };
}

impl Pointer {
    /// The pointer of a text, which is empty or starts with `/`.
    ///
    /// The result is `BadPointer` if and only if the text is not a pointer.
    pub fn read(alloc: Global, text: &str) -> Result<Pointer, PointerRefused>
        ensures { Gives refusal_of (pointer_of text.now) result }
    {
        if text.is_empty() {
            return Ok(Pointer {
                tokens: List::new(alloc),
            });
        }
        match text.strip_prefix('/') {
            Some(pieces) => {
                let tokens = read_tokens(alloc, pieces)?;
                Ok(Pointer { tokens })
            }
            None => Err(PointerRefused::BadPointer),
        }
    }

    /// The tokens, from the root down.
    pub fn tokens(&self) -> &[Text]
        ensures { result.now ≡ self.now }
    {
        self.tokens.as_slice()
    }
}

impl Copied for Pointer {
    fn copy(&self, alloc: Global) -> Result<Pointer, WantOfMemory> {
        let tokens = self.tokens.copy(alloc)?;
        Ok(Pointer { tokens })
    }
}

/// Why a text is not read as a pointer.
#[derive(Clone, Copy, Debug, Drop, Error, PartialEq, Eq)]
pub enum PointerRefused {
    /// The text is not empty and does not start with `/`, or has a `~` that neither `0` nor `1`
    /// follows.
    #[error("not a JSON Pointer")]
    BadPointer,
    #[error("out of memory")]
    WantOfMemory,
}

impl From<WantOfMemory> for PointerRefused {
    ghost use Rattle.std.specs.Prelude.{◌≡◌};
    ghost use Rattle.st_jsonpatch.specs.declared.pointer.PointerRefused.TheVariants.{WantOfMemory};

    ghost from_gives = { λ _ refused. refused ≡ WantOfMemory };

    fn from(_want: WantOfMemory) -> PointerRefused {
        PointerRefused::WantOfMemory
    }
}

// The tokens of the pieces between and after the `/` signs.
pub(crate) fn read_tokens(alloc: Global, text: &str) -> Result<List<Text>, PointerRefused>
    ensures { Gives refusal_of (tokens_of (pieces_of text.now)) result }
{
    let mut tokens = List::new(alloc);
    let mut rest = text;
    'pieces: while let Some((piece, more)) = cut(rest, '/') {
        let token = read_token(alloc, piece)?;
        tokens.push(alloc, token)?;
        rest = more;
    }
    let last = read_token(alloc, rest)?;
    tokens.push(alloc, last)?;
    Ok(tokens)
}

// The token with this spelling.
fn read_token(alloc: Global, piece: &str) -> Result<Text, PointerRefused>
    ensures { Gives refusal_of (token_of piece.now) result }
{
    let mut token = String::new(alloc);
    let mut rest = piece;
    'escapes: while let Some((plain, escape)) = cut(rest, '~') {
        append(&mut token, plain)?;
        let Some((meant, more)) = read_escape(escape) else {
            return Err(PointerRefused::BadPointer);
        };
        append_sign(&mut token, meant)?;
        rest = more;
    }
    append(&mut token, rest)?;
    Ok(Text::from_string(token))
}

// The character of a `~` escape before this text, and the rest of the text.
fn read_escape(text: &str) -> Option<(char, &str)>
    ensures token { MatchOption result (token_from true text.now ≡ Err BadPointer)
        (λ escape. token_from true text.now ≡ after (escape.0 ∷ []) (token_of escape.1.now)) }
    ensures shorter { IfSome result (λ escape. length escape.1.now < length text.now) }
    ensures ascii { IfSome result (λ escape. escape.0 < 128) }
{
    if let Some(rest) = text.strip_prefix('0') {
        return Some(('~', rest));
    }
    if let Some(rest) = text.strip_prefix('1') {
        return Some(('/', rest));
    }
    None
}

// The text before the first such sign, and all text after it.
fn cut(text: &str, sign: char) -> Option<(&str, &str)>
    requires { sign < 128 }
    ensures { MatchOption result (Lacks sign text.now)
        (λ parts. (text.now ≡ parts.0.now ++ sign ∷ parts.1.now) × Lacks sign parts.0.now) }
{
    text.split_once(sign)
}

fn append(token: &mut String, text: &str) -> Result<(), WantOfMemory>
    ensures { OnOk result (string_bytes token.new ≡ string_bytes token.old ++ text.now) }
{
    token.push_str(text)?;
    Ok(())
}

fn append_sign(token: &mut String, sign: char) -> Result<(), WantOfMemory>
    requires { sign < 128 }
    ensures { OnOk result (string_bytes token.new ≡ string_bytes token.old ++ sign ∷ []) }
{
    token.push(sign)?;
    Ok(())
}

// Whether the second path leads into the value at the first path.
pub(crate) fn is_above(from: &[Text], path: &[Text]) -> bool
    ensures { result ≡ is_above from.now path.now }
{
    if from.len() >= path.len() {
        return false;
    }
    for (at, token) in from.iter().enumerate() {
        let other = &path[at];
        if !is_same(token.as_str(), other.as_str()) {
            return false;
        }
    }
    true
}

fn is_same(first: &str, second: &str) -> bool
    ensures { result ≡ bytes_eq first.now second.now }
{
    first == second
}
