ghost use Rattle.std.specs.Prelude.{◌≡◌, IfSome, IsTrue, ◌<◌, [], ◌∷◌, drop, length, IfNone};
ghost use Rattle.std.specs.declared.cmp.Ordering.TheVariants.{Equal, Less};
ghost use Rattle.st_plain.specs.Objects.{control_in, digit_of, escaped_in, meant, name_in};
ghost use Rattle.st_plain.specs.Names.{name_cmp};
ghost use Rattle.st_plain.specs.inside.Objects.{ranks_cmp, name_at, rank};

use std::cmp::Ordering;

/// The order of two names by their UTF-16 code units (RFC 8785, section 3.2.3).
pub fn compare(first: &str, second: &str) -> Ordering
    ensures order { result ≡ name_cmp first.now second.now }
    ensures same { result ≡ Equal → first.now ≡ second.now }
{
    compare_bytes(first.as_bytes(), second.as_bytes())
}

fn compare_bytes(first: &[u8], second: &[u8]) -> Ordering
    ensures { result ≡ ranks_cmp first.now second.now }
{
    let mut left = first;
    let mut right = second;
    'bytes: while let Some((a, behind_a)) = left.split_first() {
        let Some((b, behind_b)) = right.split_first() else {
            return Ordering::Greater;
        };
        let (a, b) = (rank(*a), rank(*b));
        if a != b {
            return a.cmp(&b);
        }
        left = behind_a;
        right = behind_b;
    }
    if right.is_empty() {
        Ordering::Equal
    } else {
        Ordering::Less
    }
}

// Whether a name is above the previous one, if any.
pub(crate) fn is_above(last: Option<&str>, name: &str) -> bool
    ensures { IsTrue result → IfSome last.entry (λ last. name_cmp last.now name.now ≡ Less) }
{
    match last {
        Some(last) => compare(last, name) == Ordering::Less,
        None => true,
    }
}

// The order of the names at two places of a text, each after a quotation mark, by UTF-16 code units
// (RFC 8785, section 3.2.3). It reads no byte after the first that differs, so sorting many long
// names stays cheap.
#[tactic(auto, unfolding(crate::specs::inside::Objects::name_at))]
pub(crate) fn compare_at(text: &[u8], first: u32, second: u32) -> Ordering
    ensures { result ≡ ranks_cmp (name_at text.now first) (name_at text.now second) }
{
    compare_names(
        behind_mark(behind(text, first)),
        behind_mark(behind(text, second)),
    )
}

pub(crate) fn behind(bytes: &[u8], place: u32) -> &[u8]
    ensures { result.now ≡ drop place bytes.now }
{
    match bytes.split_at_checked(place as usize) {
        Some((_, rest)) => rest,
        None => &[],
    }
}

#[inline]
pub(crate) fn behind_mark(bytes: &[u8]) -> &[u8]
    ensures { result.now ≡ drop 1 bytes.now }
{
    match bytes.split_first() {
        Some((_, rest)) => rest,
        None => bytes,
    }
}

// The common prefix of the two names is skipped at once.
pub(crate) fn compare_names(first: &[u8], second: &[u8]) -> Ordering
    ensures { result ≡ ranks_cmp (name_in first.now) (name_in second.now) }
{
    let mut left = first;
    let mut right = second;
    'same: while let Some((a, behind_a)) = left.split_first() {
        let Some((b, behind_b)) = right.split_first() else {
            break;
        };
        if *a != *b || *a == b'"' || *a == b'\\' {
            break;
        }
        left = behind_a;
        right = behind_b;
    }
    compare_behind(left, right)
}

fn compare_behind(first: &[u8], second: &[u8]) -> Ordering
    ensures { result ≡ ranks_cmp (name_in first.now) (name_in second.now) }
{
    let mut left = first;
    let mut right = second;
    'bytes: while let Some((a, behind_a)) = next_byte(left) {
        let Some((b, behind_b)) = next_byte(right) else {
            return Ordering::Greater;
        };
        let (a, b) = (rank(a), rank(b));
        if a != b {
            return a.cmp(&b);
        }
        left = behind_a;
        right = behind_b;
    }
    match next_byte(right) {
        Some(_) => Ordering::Less,
        None => Ordering::Equal,
    }
}

/// The first byte of an escaped name, and the bytes after it; `None` at the quotation mark that
/// ends it.
#[inline]
pub fn next_byte(bytes: &[u8]) -> Option<(u8, &[u8])>
    ensures none { IfNone result (name_in bytes.now ≡ []) }
    ensures some { IfSome result (λ next. name_in bytes.now ≡ next.0 ∷ name_in next.1.now) }
    ensures shorter { IfSome result (λ next. length next.1.now < length bytes.now) }
{
    let (byte, rest) = bytes.split_first()?;
    match *byte {
        b'"' => None,
        b'\\' => escaped_byte(rest),
        _ => Some((*byte, rest)),
    }
}

// The same after a backslash.
fn escaped_byte(bytes: &[u8]) -> Option<(u8, &[u8])>
    ensures none { IfNone result (escaped_in bytes.now ≡ []) }
    ensures some { IfSome result (λ next. escaped_in bytes.now ≡ next.0 ∷ name_in next.1.now) }
    ensures shorter { IfSome result (λ next. length next.1.now < length bytes.now) }
{
    let (byte, rest) = bytes.split_first()?;
    if *byte == b'u' {
        control_byte(rest)
    } else {
        Some((meant(*byte), rest))
    }
}

// The same after `\u`.
fn control_byte(bytes: &[u8]) -> Option<(u8, &[u8])>
    ensures none { IfNone result (control_in bytes.now ≡ []) }
    ensures some { IfSome result (λ next. control_in bytes.now ≡ next.0 ∷ name_in next.1.now) }
    ensures shorter { IfSome result (λ next. length next.1.now < length bytes.now) }
{
    let (_, rest) = bytes.split_first()?;
    let (_, rest) = rest.split_first()?;
    let (high, rest) = rest.split_first()?;
    let (low, rest) = rest.split_first()?;
    Some(((*high % 2) * 16 + digit(*low), rest))
}

fn meant(byte: u8) -> u8
    ensures { result ≡ meant byte }
{
    match byte {
        b'b' => 8,
        b't' => 9,
        b'n' => 10,
        b'f' => 12,
        b'r' => 13,
        _ => byte,
    }
}

fn digit(byte: u8) -> u8
    ensures value { result ≡ digit_of byte }
    ensures small { result < 25 }
{
    if byte < 58 { byte % 16 } else { byte % 16 + 9 }
}

// The rank of a byte of UTF-8 in the order of UTF-16: the first byte of a four-byte character,
// which takes two surrogates, is below that of a character from U+E000 on.
#[inline]
pub(crate) fn rank(byte: u8) -> u8
    ensures { result ≡ rank byte }
{
    match byte {
        238 | 239 => byte + 7,
        _ => byte,
    }
}
