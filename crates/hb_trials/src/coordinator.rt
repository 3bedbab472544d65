// The coordinator over a stop and a start, and with each device call failing in turn.
// A worked list of requests over a restart, and each device call failing in turn.
ghost use Rattle.std.specs.Prelude.{◌≤◌, ◌^◌, IfOk};
ghost use Rattle.hb_types.specs.Calls.{AreVotes};
ghost use Rattle.hb_types.specs.Numbers.{IsNumber};

use crate::devices::empty_disk;
use hb_coord::Coordinator;
use hb_edge::Clock;
use hb_memdisk::MemDisk;
use hb_types::{Answer, NoMemory, NodeName, Number, Owner, Request, Tx, Vote};
use sqlite_items::Items;
use std::alloc::Global;
use std::test::Fail;

const OWNER: Owner = Owner { session: 1, nth: 1 };

fn told(answer: Answer) -> (u8, u64) {
    match answer {
        Answer::Begun(tx) => (1, tx.0),
        Answer::Decided(number) => (2, number.0),
        Answer::Active => (3, 0),
        Answer::Aborted => (4, 0),
        Answer::Done => (5, 0),
        Answer::Started { .. } => (6, 0),
        Answer::Down => (7, 0),
        Answer::Fault { area: false } => (8, 0),
        Answer::NotActive => (9, 0),
        Answer::AlreadyUp => (10, 0),
        Answer::NotMine => (11, 0),
        _ => (0, 0),
    }
}

fn votes_of(alloc: Global, node: u8, floor: u64) -> Result<Items<Vote>, NoMemory>
    requires node { (1 ≤ node) × (node ≤ 9) }
    requires floor { floor ≤ 2 ^ 62 }
    ensures { IfOk result AreVotes }
{
    let vote = Vote {
        node: NodeName(node),
        floor: Number(floor),
    };
    Ok(Items::from_slice(alloc, &[vote])?)
}

fn empty(alloc: Global) -> Coordinator<MemDisk> {
    Coordinator::new(alloc, empty_disk(alloc))
}

fn begin(fes: &mut Coordinator<MemDisk>, clock: &mut Clock) -> (u8, u64) {
    told(fes.ask(clock, &Request::Begin { owner: OWNER }))
}

fn start(fes: &mut Coordinator<MemDisk>, clock: &mut Clock) -> (u8, u64) {
    told(fes.ask(clock, &Request::Start))
}

fn outcome(fes: &mut Coordinator<MemDisk>, clock: &mut Clock, tx: u64) -> (u8, u64)
    requires { IsNumber tx }
{
    told(fes.ask(clock, &Request::Outcome { tx: Tx(tx) }))
}

fn decide(
    alloc: Global,
    fes: &mut Coordinator<MemDisk>,
    clock: &mut Clock,
    tx: u64,
    vote: (u8, u64),
) -> Result<(u8, u64), NoMemory>
    requires tx { IsNumber tx }
    requires node { (1 ≤ vote.0) × (vote.0 ≤ 9) }
    requires floor { vote.1 ≤ 2 ^ 62 }
{
    let votes = votes_of(alloc, vote.0, vote.1)?;
    Ok(told(fes.ask(clock, &Request::Decide { tx: Tx(tx), votes })))
}

fn until_stop(
    alloc: Global,
    fes: &mut Coordinator<MemDisk>,
    clock: &mut Clock,
) -> Result<[(u8, u64); 7], NoMemory> {
    Ok([
        start(fes, clock),
        begin(fes, clock),
        begin(fes, clock),
        decide(alloc, fes, clock, 2, (2, 4))?,
        decide(alloc, fes, clock, 1, (1, 5))?,
        outcome(fes, clock, 1),
        outcome(fes, clock, 7),
    ])
}

fn from_start(fes: &mut Coordinator<MemDisk>, clock: &mut Clock) -> [(u8, u64); 5] {
    [
        begin(fes, clock),
        start(fes, clock),
        outcome(fes, clock, 2),
        outcome(fes, clock, 7),
        begin(fes, clock),
    ]
}

#[test]
fn numbers_go_on_over_a_restart(rt: HostRuntime) -> Result<(), Fail> {
    let alloc = rt.alloc();
    let mut fes = empty(alloc);
    let mut clock = Clock::new();
    let first = until_stop(alloc, &mut fes, &mut clock)?;
    assert_eq!(rt;
        first,
        [(6, 0), (1, 1), (1, 2), (2, 5), (2, 6), (2, 6), (3, 0)]
    );
    assert_eq!(rt; told(fes.ask(&mut clock, &Request::Stop)), (5, 0));
    let then = from_start(&mut fes, &mut clock);
    assert_eq!(rt; then, [(7, 0), (6, 0), (2, 5), (4, 0), (1, 1001)]);
    Ok(())
}

// What a Begin and a Decide are answered where the k-th device call fails, and after a start the outcome.
fn with_fuse(alloc: Global, k: u64) -> Result<[(u8, u64); 5], NoMemory> {
    let mut fes = empty(alloc);
    let mut clock = Clock::new();
    let started = start(&mut fes, &mut clock);
    fes.arm(k);
    Ok([
        started,
        begin(&mut fes, &mut clock),
        decide(alloc, &mut fes, &mut clock, 1, (1, 0))?,
        start(&mut fes, &mut clock),
        outcome(&mut fes, &mut clock, 1),
    ])
}

#[test]
fn each_device_call_fails_in_turn(rt: HostRuntime) -> Result<(), Fail> {
    let alloc = rt.alloc();
    let up = (6, 0);
    let failed = (8, 0);
    for k in 1..5 {
        assert_eq!(rt; with_fuse(alloc, k)?, [up, failed, (7, 0), up, (3, 0)]);
    }
    for k in 5..9 {
        assert_eq!(rt; with_fuse(alloc, k)?, [up, (1, 1), failed, up, (4, 0)]);
    }
    assert_eq!(rt; with_fuse(alloc, 9)?, [up, (1, 1), (2, 1), (10, 0), (2, 1)]);
    Ok(())
}
