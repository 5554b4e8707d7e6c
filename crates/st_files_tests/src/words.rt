//! The words of a case.

/// The first two words, and the text after them.
pub(crate) fn three(case: &str) -> Option<(&str, &str, &str)> {
    let (first, rest) = case.split_once(' ')?;
    let (second, rest) = rest.split_once(' ')?;
    Some((first, second, rest))
}
