ghost use Rattle.std.specs.Fmt.{decimal};
ghost use Rattle.std.specs.Prelude.{◌≡◌, ◌<◌, ◌^◌, ◌-◌, ◌↔◌, ℕ, Some, IsTrue, ◌≤◌, IfSome};
ghost use Rattle.st_base.specs.Texts.{number_of};
ghost use Rattle.st_generate.specs.Plan.{most_dids, most_rounds, plan_of, plan_with};

use itoa::Buffer;
use st_base::{Text, read_number};

/// The number from 0 to 2^64 - 1 with this decimal text, like `read_number` for larger numbers.
pub(crate) fn read_long(text: &[u8]) -> Option<u64>
    ensures { result ≡ number_of (2 ^ 64 - 1) text.now }
{
    let Some(number) = parse(text) else {
        return None;
    };
    if is_spelling(text, number) {
        Some(number)
    } else {
        None
    }
}

// The number, by a parser that also accepts other decimal spellings.
fn parse(text: &[u8]) -> Option<u64>
    ensures { (number : ℕ) → number < 2 ^ 64 → text.now ≡ decimal number → result ≡ Some number }
{
    match str::from_utf8(text) {
        Ok(text) => match text.parse() {
            Ok(number) => Some(number),
            Err(_) => None,
        },
        Err(_) => None,
    }
}

fn is_spelling(text: &[u8], number: u64) -> bool
    ensures { IsTrue result ↔ (text.now ≡ decimal number) }
{
    Buffer::new().format(number).as_bytes() == text
}

// The largest number of identifiers of a workload, and of rounds in which each is updated.
const MOST_DIDS: u32 = 200;

const MOST_ROUNDS: u32 = 30;

/// The parameters of a workload.
#[derive(Clone, Copy, Debug, PartialEq, Eq)]
pub struct Plan {
    /// The seed of its random words.
    pub seed: u64,
    /// The number of identifiers, from 1 to 200.
    pub dids: u32,
    /// The number of rounds in which each of them is updated, from 0 to 30.
    pub rounds: u32,
}

/// Reads the words of a plan: a seed from 0 to 2^64 - 1, a number of identifiers from 1 to 200, and
/// a number of rounds from 0 to 30, each in decimal and without leading zeros except in `0` itself.
/// `None` if and only if they are not a plan.
pub fn read_plan(words: &[Text]) -> Option<Plan>
    ensures value { result ≡ plan_of words.now }
    ensures few { IfSome result (λ plan. plan.rounds ≤ most_rounds) }
{
    match words {
        [seed, dids, rounds] => read_words(
            seed.as_str().as_bytes(),
            dids.as_str().as_bytes(),
            rounds.as_str().as_bytes(),
        ),
        _ => None,
    }
}

fn read_words(seed: &[u8], dids: &[u8], rounds: &[u8]) -> Option<Plan>
    ensures value { result ≡ plan_with seed.now dids.now rounds.now }
    ensures few { IfSome result (λ plan. plan.rounds ≤ most_rounds) }
{
    let seed = read_long(seed)?;
    let dids = read_number(dids, MOST_DIDS)?;
    if dids < 1 {
        return None;
    }
    let rounds = read_number(rounds, MOST_ROUNDS)?;
    Some(Plan { seed, dids, rounds })
}
