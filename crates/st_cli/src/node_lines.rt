ghost use Rattle.std.specs.Prelude.{◌≡◌, ⊤, false};
ghost use Rattle.st_cli.specs.Runs.{node_answering};
ghost use Rattle.st_cli.specs.inside.NodeLaws.{answering_laws, node_idles, node_laws, kept_of_line, node_meaning};
ghost use Rattle.st_node.specs.inside.Changed.{HasFew};
ghost use Rattle.st_node.specs.Machine.{new_machine};

use st_base::{Bytes, WantOfMemory, Work};
use st_drive::{Machine, StepError};
use st_journal_lines::Replayable;
use st_node::{LONGEST_LINE, Node, changing};
use st_params::Schedule;
use std::alloc::Global;
use std::marker::Model;

/// A node that is driven by lines. It reads one byte more of a line than a line may have, to
/// recognize one that is too long.
#[derive(Drop)]
pub struct NodeLines {
    node: Node,
}

impl Model for NodeLines {
    ghost use Rattle.st_node.specs.Machine.{coded_machine, Machine as Reference};

    ghost Value = { Reference };

    ghost coded = { coded_machine };

    ghost view = { λ n. n.node };
}

impl NodeLines {
    /// Lines for this node.
    pub fn new(node: Node) -> NodeLines
        ensures { result ≡ node }
    {
        NodeLines { node }
    }
}

impl Machine for NodeLines {
    type Context = Work;

    type Device = ();

    ghost meaning = { node_meaning };

    ghost CAP = { kept_of_line };

    const CAP: usize = LONGEST_LINE + 1;

    ghost PROMPT = { false };

    const PROMPT: bool = false;

    ghost fits = { λ _ _ _. ⊤ };

    ghost faults = { λ _. 0 };

    fn step(
        self,
        alloc: Global,
        context: &mut Work,
        _device: &mut (),
        line: &[u8],
    ) -> Result<(NodeLines, Bytes), StepError> {
        match self.node.answer(alloc, line, context) {
            Ok((node, reply)) => Ok((NodeLines { node }, reply)),
            Err(want) => Err(StepError::from(want)),
        }
    }

    ghost fewer = { λ m c many few le fits. fits };

    ghost prompt = { λ never. absurd never };

    ghost laws = { node_laws };
}

impl Replayable for NodeLines {
    type Context = Work;

    type Seed = Schedule;

    ghost start = { new_machine };

    ghost answering = { node_answering };

    ghost good = { HasFew };

    ghost CAP = { kept_of_line };

    const CAP: usize = LONGEST_LINE + 1;

    fn start(alloc: Global, seed: &Schedule) -> Result<NodeLines, WantOfMemory> {
        let node = Node::new(alloc, *seed)?;
        Ok(NodeLines::new(node))
    }

    fn answer(
        self,
        alloc: Global,
        context: &mut Work,
        line: &[u8],
    ) -> Result<(NodeLines, Bytes, bool), WantOfMemory> {
        match self.node.answer(alloc, line, context) {
            Ok((node, reply)) => {
                let changes = changing(reply.as_slice());
                Ok((NodeLines { node }, reply, changes))
            }
            Err(want) => Err(want),
        }
    }

    ghost idles = { node_idles };

    ghost laws = { answering_laws };
}
