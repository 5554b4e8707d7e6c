ghost use Rattle.std.specs.Prelude.{◌≡◌, ◌++◌, List, ℕ, Option};
ghost use Rattle.st_cli.specs.Runs.{node_answering};
ghost use Rattle.st_drive.specs.OnDisk.{changing};
ghost use Rattle.st_journal_lines.specs.Answering.{behind};
ghost use Rattle.st_journal_lines.specs.Journalled.{plain_recorder};
ghost use Rattle.st_network.specs.Run.{AreAddressed, AreFour, StoresOnlyWanted};
ghost use Rattle.st_node.specs.Machine.{new_machine};
ghost use Rattle.st_node.specs.Peer.{node_peer};
ghost use Rattle.st_drive.specs.Tables.{AreChained, NoneTwice, Run, all_released};
ghost use Rattle.st_vault.specs.Image.{IsSpent};

use crate::node_lines::NodeLines;
use st_node::Node;

/// Replaying the records of a journal and then the changing lines among some more gives the node
/// after the records and all of those lines: lines that aren't recorded changed nothing. So the
/// next run starts with the node after a prefix of all commands.
pub fn journal_law()
    ensures { (schedule : Option ℕ) (r lines : List (List ℕ))
        → behind node_answering (new_machine schedule) (r ++ changing (plain_recorder node_answering) (behind node_answering (new_machine schedule) r) lines)
        ≡ behind node_answering (new_machine schedule) (r ++ lines) }
{
    st_journal_lines::journal_law::<NodeLines>();
}

/// No counter of a wallet is released twice, in any list of runs and stops, if each of them
/// satisfies `runs` of `WalletFrom`, and starts on an image that a stop of the previous one may
/// have left.
pub fn counters_law()
    ensures { (image : List ℕ) (runs : List Run) → AreChained IsSpent image runs → NoneTwice (all_released runs) }
{}

/// For any lines of four nodes: a message that is delivered stores at most a file that its
/// addressee wants and lacks, by its own URI, and changes nothing else in any node. So for any
/// loss, repetition and reordering, and for any injected bytes, no node receives a file by a
/// message that it doesn't want.
pub fn exchange_law()
    ensures stores { StoresOnlyWanted node_peer }
    ensures four { AreFour node_peer }
    ensures addressed { AreAddressed node_peer }
{
    st_network::exchange_law::<Node>();
}
