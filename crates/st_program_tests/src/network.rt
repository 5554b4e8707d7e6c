mod orders;

use self::orders::ORDERS;
use st_base::{WantOfMemory, Work};
use st_network::{Network, exchange_law};
use st_node::{Node, alike_law};
use std::alloc::Global;
use std::test::Fail;

// Each line precedes its reply. The hash text is that of `abc`.
const LINES: &str = "\
at 0 content YWJj
have EiC6eBa_jwHP6kFBQN5driIjsANho5YXepy0EP9h8gAVrQ
at 1 anchor 1 1.EiC6eBa_jwHP6kFBQN5driIjsANho5YXepy0EP9h8gAVrQ
anchored 0
ask 1 0
sent 1
deliver 0
sent 1
deliver 1
stored EiC6eBa_jwHP6kFBQN5driIjsANho5YXepy0EP9h8gAVrQ
deliver 1
ignored
at 1 wanted
wanted 0
at 1 report 0
report C2 unneeded unneeded unneeded unneeded
inject 0 1 A3t9
sent 1
deliver 2
ignored
inject 0 1 _w
sent 1
deliver 3
refused message
deliver 4
refused range
ask 4 0
refused range
offer 2 0 EiC6eBa_jwHP6kFBQN5driIjsANho5YXepy0EP9h8gAVrQ
refused unknown
offer 0 4 EiC6eBa_jwHP6kFBQN5driIjsANho5YXepy0EP9h8gAVrQ
refused range
offer 2 4 x
refused line hash
offer x 9 x
refused line number
offer 0 x x
refused line number
offer 0 1
refused line words
offer 0 1 EiC6eBa_jwHP6kFBQN5driIjsANho5YXepy0EP9h8gAVrQ 
refused line hash
inject 0 9 e31
refused line base64
inject 9 0 e30
refused range
inject 0 1
refused line words
inject 3 2 
sent 1
deliver 4
refused message
deliver 01
refused line number
deliver 1 2
refused line number
deliver 4294967296
refused line number
deliver
refused line words
ask 0
refused line words
ask 0 1 2
refused line number
at 0 
refused line command
at 0
refused line words
at 9 x
refused range
at x wanted
refused line number
at 1 deliver 0
refused line command
At 0 wanted
refused line command

refused line command
";

type Nodes = Network<Node>;

// The nodes after a line, if it gives this reply.
fn told(
    alloc: Global,
    network: Nodes,
    line: &str,
    expected: &str,
    work: &mut Work,
) -> Result<Option<Nodes>, WantOfMemory> {
    let (next, reply) = network.answer(alloc, line.as_bytes(), work)?;
    let reply = str::from_utf8(reply.as_slice()).unwrap_or("");
    Ok(if reply.strip_suffix('\n') == Some(expected) {
        Some(next)
    } else {
        None
    })
}

// The first line with another reply than the one after it.
fn first_other(
    alloc: Global,
    session: &'static str,
    work: &mut Work,
) -> Result<Option<&'static str>, WantOfMemory> {
    let mut network = Nodes::new(alloc)?;
    let mut lines = session.lines();
    while let Some(line) = lines.next() {
        if line == "new" {
            network = Nodes::new(alloc)?;
            continue;
        }
        let expected = lines.next().unwrap_or("");
        network = match told(alloc, network, line, expected, work)? {
            Some(next) => next,
            None => return Ok(Some(line)),
        };
    }
    Ok(None)
}

fn replies_so(rt: &HostRuntime, session: &'static str) -> Result<(), Fail> {
    let mut work = Work::new(rt);
    match first_other(rt.alloc(), session, &mut work)? {
        Some(line) => Err(Fail::from(line)),
        None => Ok(()),
    }
}

#[test]
fn each_line_has_its_reply(rt: HostRuntime) -> Result<(), Fail> {
    exchange_law::<Node>();
    alike_law();
    replies_so(&rt, LINES)
}

#[test]
fn files_come_in_any_order(rt: HostRuntime) -> Result<(), Fail> {
    replies_so(&rt, ORDERS)
}
