ghost use Rattle.std.specs.Prelude.{◌≡◌, ◌↔◌, ◌≤◌, Some, IsTrue, IfSome, option_map};
ghost use Rattle.st_cli.specs.Invocation.{alone, behind, both_options, invocation_of, generate_invocation, is_journal, limit_of, max_input, node_invocation, one_option, second_of, with_limit};
ghost use Rattle.st_cli.specs.declared.command_line.Invocation.TheVariants.{Journalled, Node};
ghost use Rattle.st_cli.specs.inside.NodeLaws.{IsBounded};

use st_base::{Text, read_number};
use st_generate::{Plan, read_plan};
use st_params::Schedule;

/// The largest number of input bytes of a command.
pub const MAX_INPUT: u32 = 1_073_741_824;

/// What the words of the command line ask for.
#[derive(Clone, Copy, Debug, Drop, PartialEq, Eq)]
pub enum Invocation {
    /// `node`, `node --limit=N`, `node --v2-at=H` or `node --limit=N --v2-at=H`
    Node(NodeOptions),
    /// any of these with `--journal` as the last word
    Journalled(NodeOptions),
    /// `wallet`
    Wallet,
    /// `exchange`
    Exchange,
    /// `generate SEED DIDS ROUNDS`
    Generate(Plan),
}

/// The options of a node.
#[derive(Clone, Copy, Debug, Drop, PartialEq, Eq)]
pub struct NodeOptions {
    /// The largest number of input bytes, from 1 to `MAX_INPUT`.
    pub limit: usize,
    /// The limits at each height.
    pub schedule: Schedule,
}

// The text before the value of an option.
const LIMIT: &str = "--limit=";

const SECOND: &str = "--v2-at=";

// The option for a journal.
const JOURNAL: &str = "--journal";

/// Reads the words after the program's name: the first names the command, and the others are its
/// options. `None` if and only if they are invalid.
pub fn read_invocation(words: &[Text]) -> Option<Invocation>
    ensures value { result ≡ invocation_of words.now }
    ensures few { IsBounded result }
{
    let [command, options @ ..] = words else {
        return None;
    };
    if is_word(command, "node") {
        return read_node(options);
    }
    if is_word(command, "wallet") {
        return alone(Invocation::Wallet, options);
    }
    if is_word(command, "exchange") {
        return alone(Invocation::Exchange, options);
    }
    if is_word(command, "generate") {
        return read_generate(options);
    }
    None
}

fn is_word(word: &Text, expected: &str) -> bool
    ensures { IsTrue result ↔ (word.now ≡ expected.now) }
{
    word.as_str() == expected
}

fn is_journal(word: &Text) -> bool
    ensures { result ≡ is_journal word.now }
{
    word.as_str().as_bytes() == JOURNAL.as_bytes()
}

// The invocation of a command that has no options.
fn alone(invocation: Invocation, words: &[Text]) -> Option<Invocation>
    requires { IsBounded (Some invocation) }
    ensures value { result ≡ alone invocation words.now }
    ensures few { IsBounded result }
{
    match words {
        [] => Some(invocation),
        _ => None,
    }
}

fn read_generate(words: &[Text]) -> Option<Invocation>
    ensures value { result ≡ generate_invocation words.now }
    ensures few { IsBounded result }
{
    match read_plan(words) {
        Some(plan) => Some(Invocation::Generate(plan)),
        None => None,
    }
}

// The options of a node: a limit, and then a height for version 2, each at most once, and after
// them `--journal` or not.
fn read_node(words: &[Text]) -> Option<Invocation>
    ensures value { result ≡ node_invocation words.now }
    ensures few { IsBounded result }
{
    match words {
        [] => Some(Invocation::Node(no_options())),
        [word] => {
            if is_journal(word) {
                return Some(Invocation::Journalled(no_options()));
            }
            plain(read_one_option(word))
        }
        [first, second] => {
            if is_journal(second) {
                return journalled(read_one_option(first));
            }
            plain(read_both_options(first, second))
        }
        [first, second, third] => {
            if is_journal(third) {
                return journalled(read_both_options(first, second));
            }
            None
        }
        _ => None,
    }
}

fn no_options() -> NodeOptions
    ensures { result ≡ with_limit max_input }
{
    NodeOptions {
        limit: MAX_INPUT as usize,
        schedule: Schedule::new(),
    }
}

// A node without a journal, if its options are valid.
fn plain(options: Option<NodeOptions>) -> Option<Invocation>
    requires { IfSome options (λ options. options.limit ≤ max_input) }
    ensures value { result ≡ option_map Node options }
    ensures few { IsBounded result }
{
    match options {
        Some(options) => Some(Invocation::Node(options)),
        None => None,
    }
}

// A node with a journal, if its options are valid.
fn journalled(options: Option<NodeOptions>) -> Option<Invocation>
    requires { IfSome options (λ options. options.limit ≤ max_input) }
    ensures value { result ≡ option_map Journalled options }
    ensures few { IsBounded result }
{
    match options {
        Some(options) => Some(Invocation::Journalled(options)),
        None => None,
    }
}

// A limit or a height.
fn read_one_option(word: &Text) -> Option<NodeOptions>
    ensures value { result ≡ one_option word.now }
    ensures few { IfSome result (λ options. options.limit ≤ max_input) }
{
    if let Some(limit) = read_limit(word) {
        return Some(NodeOptions {
            limit,
            schedule: Schedule::new(),
        });
    }
    match read_second(word) {
        Some(height) => Some(NodeOptions {
            limit: MAX_INPUT as usize,
            schedule: Schedule::with_second(height),
        }),
        None => None,
    }
}

// A limit, and then a height.
fn read_both_options(first: &Text, second: &Text) -> Option<NodeOptions>
    ensures value { result ≡ both_options first.now second.now }
    ensures few { IfSome result (λ options. options.limit ≤ max_input) }
{
    let limit = read_limit(first)?;
    let height = read_second(second)?;
    Some(NodeOptions {
        limit,
        schedule: Schedule::with_second(height),
    })
}

// The largest number of input bytes.
fn read_limit(word: &Text) -> Option<usize>
    ensures value { result ≡ limit_of word.now }
    ensures few { IfSome result (λ limit. limit ≤ max_input) }
{
    let limit = read_number(behind(word, LIMIT)?, MAX_INPUT)?;
    if limit < 1 {
        return None;
    }
    Some(limit as usize)
}

// The height from which version 2 of the limits applies.
fn read_second(word: &Text) -> Option<u32>
    ensures { result ≡ second_of word.now }
{
    let height = read_number(behind(word, SECOND)?, u32::MAX)?;
    Some(height)
}

// The text after this prefix of a word.
fn behind<'a>(word: &'a Text, front: &str) -> Option<&'a [u8]>
    ensures { option_map (λ rest. rest.now) result ≡ behind front.now word.now }
{
    word.as_str().as_bytes().strip_prefix(front.as_bytes())
}
