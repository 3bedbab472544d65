// A server over a stop and a start, and over a damaged log.
// Worked lists of requests of one server with empty disks, with their exact answers.
ghost use Rattle.std.specs.Prelude.{◌≡◌, IfOk, true};
ghost use Rattle.hb_types.specs.Numbers.{IsNumber};
ghost use Rattle.hb_types.specs.Records.{IsChange};
ghost use Rattle.hb_types.specs.Calls.{IsRequest};

use crate::devices::empty_disk;
use hb_edge::Clock;
use hb_memdisk::MemDisk;
use hb_node::Node;
use hb_server::Server;
use hb_store::Store;
use hb_types::{
    Answer, Bytes, Change, Mode, NoMemory, NodeName, Number, Path, Place, Request, Space, Tx,
};
use hb_whole::Whole;
use std::alloc::Global;
use std::test::Fail;

type Ds = Server<MemDisk, Whole>;

const PLACE: Place = Place {
    space: Space {
        area: 257,
        table: 1,
    },
    group: 0,
    key: 7,
};

fn server(alloc: Global) -> Ds {
    let store = Whole::new(alloc);
    Server::new(
        alloc,
        NodeName(1),
        empty_disk(alloc),
        empty_disk(alloc),
        store,
    )
}

// What an answer tells, in numbers.
fn told(answer: Answer) -> (u8, u64) {
    match answer {
        Answer::Done => (1, 0),
        Answer::Vote { floor } => (2, floor.0),
        Answer::Low { floor } => (3, floor.0),
        Answer::Started { doubts } => (4, doubts.as_slice().len() as u64),
        Answer::Row(Some(row)) => (5, row.as_slice().len() as u64),
        Answer::NotLocked => (6, 0),
        Answer::NotPrepared => (7, 0),
        Answer::NotMine => (8, 0),
        Answer::NoBranch => (9, 0),
        Answer::Down => (10, 0),
        Answer::AlreadyUp => (11, 0),
        Answer::Damaged { area: false, place } => (12, place),
        _ => (0, 0),
    }
}

// A request whose transaction is a number.
fn asks(server: &mut Ds, clock: &mut Clock, request: Request) -> (u8, u64)
    requires request { IsRequest request }
{
    told(server.ask(clock, request))
}

fn enlist(server: &mut Ds, clock: &mut Clock, tx: u64) -> (u8, u64)
    requires tx { IsNumber tx }
{
    asks(server, clock, Request::Enlist { tx: Tx(tx) })
}

fn prepare(server: &mut Ds, clock: &mut Clock, tx: u64) -> (u8, u64)
    requires tx { IsNumber tx }
{
    asks(server, clock, Request::Prepare { tx: Tx(tx) })
}

fn commit(server: &mut Ds, clock: &mut Clock, tx: u64, number: u64) -> (u8, u64)
    requires tx { IsNumber tx }
    requires number { IsNumber number }
{
    let number = Number(number);
    asks(server, clock, Request::Commit { tx: Tx(tx), number })
}

fn read(server: &mut Ds, clock: &mut Clock, tx: u64) -> (u8, u64)
    requires tx { IsNumber tx }
{
    let request = Request::Read {
        tx: Tx(tx),
        place: PLACE,
    };
    asks(server, clock, request)
}

// The lock of the key; its path, the mode, and the first that holds it, where it is blocked.
fn lock(server: &mut Ds, clock: &mut Clock, tx: u64) -> (u8, u64)
    requires tx { IsNumber tx }
{
    let request = Request::Lock {
        tx: Tx(tx),
        path: Path::Key(PLACE),
        mode: Mode::X,
    };
    asks(server, clock, request)
}

fn change(alloc: Global) -> Result<Change, NoMemory>
    ensures { IfOk result IsChange }
{
    let bytes = Vec::from_slice(alloc, &[1, 0])?;
    Ok(Change {
        place: PLACE,
        row: Some(Bytes::new(bytes)),
    })
}

fn write(alloc: Global, server: &mut Ds, clock: &mut Clock, tx: u64) -> Result<(u8, u64), NoMemory>
    requires tx { IsNumber tx }
{
    let change = change(alloc)?;
    Ok(asks(server, clock, Request::Write { tx: Tx(tx), change }))
}

// Two branches, the first of which holds the key and has written its row.
fn written(alloc: Global, server: &mut Ds, clock: &mut Clock) -> Result<[(u8, u64); 4], NoMemory> {
    let started = asks(server, clock, Request::Start);
    let enlisted = enlist(server, clock, 1);
    let locked = lock(server, clock, 1);
    Ok([started, enlisted, locked, write(alloc, server, clock, 1)?])
}

fn restarted(server: &mut Ds, clock: &mut Clock) -> [(u8, u64); 5] {
    [
        prepare(server, clock, 1),
        asks(server, clock, Request::Stop),
        read(server, clock, 1),
        asks(server, clock, Request::Start),
        commit(server, clock, 1, 5),
    ]
}

#[test]
fn a_vote_outlives_a_stop(rt: HostRuntime) -> Result<(), Fail> {
    let mut ds = server(rt.alloc());
    let mut clock = Clock::new();
    let before = written(rt.alloc(), &mut ds, &mut clock)?;
    let told = restarted(&mut ds, &mut clock);
    assert_eq!(rt; before, [(4, 0), (1, 0), (1, 0), (1, 0)]);
    assert_eq!(rt; told, [(2, 0), (1, 0), (10, 0), (4, 1), (1, 0)]);
    Ok(())
}

fn opened_over(alloc: Global, log: &[u8]) -> Result<[(u8, u64); 2], NoMemory> {
    let bytes = Bytes::new(Vec::from_slice(alloc, log)?);
    let log = MemDisk::new(alloc, bytes, Vec::new(alloc), Vec::new(alloc));
    let mut ds = Server::new(
        alloc,
        NodeName(1),
        log,
        empty_disk(alloc),
        Whole::new(alloc),
    );
    let mut clock = Clock::new();
    let started = asks(&mut ds, &mut clock, Request::Start);
    Ok([started, commit(&mut ds, &mut clock, 1, 5)])
}

#[test]
fn a_damaged_log_is_told(rt: HostRuntime) -> Result<(), Fail> {
    let told = opened_over(rt.alloc(), &[1, 2, 0, 0, 0, 9, 9, 0])?;
    assert_eq!(rt; told, [(12, 0), (10, 0)]);
    Ok(())
}
