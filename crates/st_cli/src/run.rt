ghost use Rattle.std.specs.Prelude.{◌≡◌, ◌↔◌, ◌≤◌, None, IsTrue};
ghost use Rattle.st_io.specs.Past.{Rose, storage};
ghost use Rattle.st_drive.specs.Lines.{streams};
ghost use Rattle.st_drive.specs.Tables.{AnswersLines, Ends};
ghost use Rattle.st_cli.specs.Invocation.{invocation_of, max_input};
ghost use Rattle.st_cli.specs.Runs.{node_course, Promised, is_status};

use crate::command_line::{Invocation, MAX_INPUT, NodeOptions, read_invocation};
use crate::node_lines::NodeLines;
use st_base::{Text, Work};
use st_drive::run_machine;
use st_generate::run_generate;
use st_io::{Disk, Sink, Source};
use st_journal_lines::run_journalled;
use st_network::run_exchange;
use st_node::Node;
use st_wallet_lines::run_wallet;
use std::alloc::Global;

/// Runs the program with these words, and returns its status.
///
/// The words are `node`, `wallet`, `exchange` or `generate`. Each line of the source gets the reply
/// of the reference machine in the sink, however the input is split into reads. At most
/// 1,073,741,824 bytes are answered. Only `generate` has no lines: it reads nothing.
///
/// The options of `node`, in this order and each at most once, are `--limit=N`: at most `N` bytes
/// are answered; `--v2-at=H`: version 2 of the limits on files applies from height `H` on; and
/// `--journal`: the disk is a journal, whose records restore the node before the first read, and
/// each line that changes the node is recorded before its reply is written. `wallet` has its vault
/// on the disk. `exchange` runs four nodes and the messages between them. `generate` takes a seed,
/// a number of identifiers and a number of rounds: it writes the summary of their workload. All
/// commands except the wallet and a node with a journal leave the disk unused. The statuses:
///
/// - 0: the input was read to its end, all replies are written, and the sink is finished.
/// - 1: the arguments are invalid; nothing was read or written.
/// - 2: the source failed. The replies to the whole lines of the bytes read are written.
/// - 3: the sink failed. A prefix of the replies is written.
/// - 4: the disk failed. A prefix of the replies is written.
/// - 5: the source gave more bytes than the limit. The replies to the whole lines before that limit
///   are written.
/// - 6: out of memory. A prefix of the replies is written.
/// - 7: the journal is damaged, and 8: it has more than 2^40 bytes. Nothing was read or written,
///   and the disk is unchanged.
///
/// Under every status except 0 the sink is finished only if it was before.
///
/// At most 24,000,001 bytes of a line are kept, to recognize that it is too long, and the rest is
/// skipped; that is a fact of the driver's `Progress`. For any status, at most five files are read
/// for each anchor that was accepted among the bytes taken, by any of four nodes under `exchange`,
/// and at most as many signed texts opened as these declare operations, and one more for each
/// `submit` line among those bytes. That a `resolve` counts no file and no signed text, and at most
/// one applied operation, is a clause of `Node::answer`. The clauses about bytes and the disk hold
/// if source, sink and disk reveal them.
pub fn run<S: Source, K: Sink, D: Disk>(
    alloc: Global,
    words: &[Text],
    source: &mut S,
    sink: &mut K,
    disk: &mut D,
    work: &mut Work,
) -> u8
    // Invalid arguments, and only they, are refused.
    ensures words { (result ≡ 1) ↔ (invocation_of words.now ≡ None) }

    // The sink is finished at status 0, and under every other only if it was before; a fault has
    // its cause, and there is no other status.
    ensures ends { Ends (streams S.left S.faults source.old source.new K.written K.is_finished K.faults sink.old sink.new)
        (Rose (D.faults disk.old) (D.faults disk.new)) result }
    ensures statuses { IsTrue (is_status result) }

    // The properties of a run of the words' command: `NodeRun`, `JournalRun`, `IsWalletRun`,
    // `ExchangeRun` or `GenerateRun` of `specs/Runs.antt`; invalid arguments leave everything
    // unchanged, `IsRefused`.
    ensures promised { Promised (invocation_of words.now) (record {
      io = streams S.left S.faults source.old source.new K.written K.is_finished K.faults sink.old sink.new;
      disk = storage D.reads D.past D.faults disk.old disk.new;
      context = work.old;
      context_now = work.new;
      status = result;
    }) }
{
    match read_invocation(words) {
        Some(Invocation::Node(options)) => run_node(alloc, options, source, sink, work),
        Some(Invocation::Journalled(options)) => run_journalled::<NodeLines, S, K, D>(
            alloc,
            options.limit,
            &options.schedule,
            work,
            source,
            sink,
            disk,
        ),
        Some(Invocation::Wallet) => run_wallet(alloc, MAX_INPUT as usize, source, sink, disk),
        Some(Invocation::Exchange) => run_exchange::<Node, S, K>(
            alloc,
            MAX_INPUT as usize,
            source,
            sink,
            work,
        ),
        Some(Invocation::Generate(plan)) => run_generate::<Node, K>(alloc, plan, sink, work),
        None => 1,
    }
}

// Answers the lines of the source as a node with these options.
fn run_node<S: Source, K: Sink>(
    alloc: Global,
    options: NodeOptions,
    source: &mut S,
    sink: &mut K,
    work: &mut Work,
) -> u8
    requires { options.limit ≤ max_input }
    ensures { AnswersLines (node_course options work.old work.new) options.limit
        (streams S.left S.faults source.old source.new K.written K.is_finished K.faults sink.old sink.new) ⊥ result }
{
    match Node::new(alloc, options.schedule) {
        Ok(node) => {
            let lines = NodeLines::new(node);
            run_machine(alloc, options.limit, lines, work, &mut (), source, sink)
        }
        Err(_) => 6,
    }
}
