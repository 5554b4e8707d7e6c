//! The node as a machine of lines: it receives files and ledger entries, rolls entries back,
//! resolves identifiers, lists the wanted files and the states of an entry's roles, and makes
//! batches of submitted requests.
#![tactic(auto)]

mod batches;
mod command;
mod explaining;
mod node;
mod peer;
mod replies;

pub use command::{Command, LONGEST_LINE, Lent, LineCause, LineRefused, changing, read_command};
pub use node::Node;
pub use peer::{alike_law, changes_law, isolation_law};
