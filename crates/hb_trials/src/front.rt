// The coordinator as a node: its trail goes on over a stop.
// The worked list of the coordinator over the node.
ghost use Rattle.std.specs.Prelude.{◌≡◌, IfOk};
ghost use Rattle.hb_types.specs.Calls.{AreVotes, IsRequest};
ghost use Rattle.hb_types.specs.Numbers.{IsNumber};

use crate::devices::empty_disk;
use hb_edge::Clock;
use hb_front::Front;
use hb_memdisk::MemDisk;
use hb_node::Node;
use hb_types::{Answer, NoMemory, NodeName, Number, Owner, Request, Tx, Vote};
use sqlite_items::Items;
use std::alloc::Global;
use std::test::Fail;

const OWNER: Owner = Owner { session: 1, nth: 1 };

fn told(answer: Answer) -> (u8, u64) {
    match answer {
        Answer::Begun(tx) => (1, tx.0),
        Answer::Decided(number) => (2, number.0),
        Answer::Aborted => (4, 0),
        Answer::Done => (5, 0),
        Answer::Started { .. } => (6, 0),
        Answer::Down => (7, 0),
        Answer::Fault { area: false } => (8, 0),
        _ => (0, 0),
    }
}

fn ask(front: &mut Front<MemDisk>, clock: &mut Clock, request: Request) -> (u8, u64)
    requires { IsRequest request }
{
    told(front.ask(clock, request))
}

fn begin(front: &mut Front<MemDisk>, clock: &mut Clock) -> (u8, u64) {
    ask(front, clock, Request::Begin { owner: OWNER })
}

fn abort(front: &mut Front<MemDisk>, clock: &mut Clock, tx: u64) -> (u8, u64)
    requires { IsNumber tx }
{
    ask(front, clock, Request::Abort { tx: Tx(tx) })
}

fn outcome(front: &mut Front<MemDisk>, clock: &mut Clock, tx: u64) -> (u8, u64)
    requires { IsNumber tx }
{
    ask(front, clock, Request::Outcome { tx: Tx(tx) })
}

fn votes_of(alloc: Global, votes: &[Vote]) -> Result<Items<Vote>, NoMemory>
    requires { AreVotes votes.now }
    ensures { IfOk result AreVotes }
{
    Ok(Items::from_slice(alloc, votes)?)
}

fn vote(node: u8, floor: u64) -> Vote
    ensures { result ≡ record { node = record { 0 = node }; floor = record { 0 = floor } } }
{
    Vote {
        node: NodeName(node),
        floor: Number(floor),
    }
}

fn decide(
    alloc: Global,
    front: &mut Front<MemDisk>,
    clock: &mut Clock,
    tx: u64,
    votes: &[Vote],
) -> Result<(u8, u64), NoMemory>
    requires tx { IsNumber tx }
    requires votes { AreVotes votes.now }
{
    let votes = votes_of(alloc, votes)?;
    Ok(ask(front, clock, Request::Decide { tx: Tx(tx), votes }))
}

fn until_stop(
    alloc: Global,
    front: &mut Front<MemDisk>,
    clock: &mut Clock,
) -> Result<[(u8, u64); 7], NoMemory> {
    Ok([
        ask(front, clock, Request::Start),
        begin(front, clock),
        begin(front, clock),
        decide(alloc, front, clock, 2, &[vote(1, 0), vote(2, 4)])?,
        decide(alloc, front, clock, 1, &[vote(1, 5)])?,
        outcome(front, clock, 1),
        ask(front, clock, Request::Stop),
    ])
}

fn from_start(front: &mut Front<MemDisk>, clock: &mut Clock) -> [(u8, u64); 6] {
    [
        ask(front, clock, Request::Start),
        outcome(front, clock, 2),
        outcome(front, clock, 7),
        begin(front, clock),
        abort(front, clock, 1001),
        abort(front, clock, 1001),
    ]
}

#[test]
fn the_trail_has_what_was_decided(rt: HostRuntime) -> Result<(), Fail> {
    let alloc = rt.alloc();
    let mut front = Front::new(alloc, empty_disk(alloc));
    let mut clock = Clock::new();
    let first = until_stop(alloc, &mut front, &mut clock)?;
    let then = from_start(&mut front, &mut clock);
    assert_eq!(rt;
        first,
        [(6, 0), (1, 1), (1, 2), (2, 5), (2, 6), (2, 6), (5, 0)]
    );
    assert_eq!(rt; then, [(6, 0), (2, 5), (4, 0), (1, 1001), (5, 0), (5, 0)]);
    assert_eq!(rt; front.entries().len(), 12);
    Ok(())
}
