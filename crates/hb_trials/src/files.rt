// Files, input and output of the system behind the contracts of a disk, a source and a sink.
use hb_adapt::{FileDisk, OpenGate, Stdin, Stdout};
use hb_edge::{Clock, Disk, Failed, Gate, Sink, Source};
use std::test::Fail;
use std::{fs, io};

const NAME: &str = "hb_trials_file.log";

fn written<D: Disk>(disk: &mut D, clock: &mut Clock) -> bool {
    disk.cut(clock, 0).is_ok()
        && disk.write_at(clock, 2, b"abc").is_ok()
        && disk.cut(clock, 4).is_ok()
        && disk.sync(clock).is_ok()
}

fn length_again<D: Disk>(disk: &mut D, clock: &mut Clock) -> u64 {
    if disk.restart(clock).is_err() {
        return 99;
    }
    disk.length(clock).unwrap_or(99)
}

fn bytes_again<D: Disk>(disk: &mut D, clock: &mut Clock) -> [u8; 6] {
    let mut piece = [7u8; 6];
    match disk.read(clock, 1, &mut piece) {
        Ok(()) => piece,
        Err(_) => [9; 6],
    }
}

// The file is closed behind it, so that it can be opened again.
fn write_file(rt: &HostRuntime, clock: &mut Clock) -> bool {
    written(&mut FileDisk::new(rt, NAME), clock)
}

#[test]
fn a_file_keeps_what_was_written(rt: HostRuntime) -> Result<(), Fail> {
    let mut clock = Clock::new();
    let kept = write_file(&rt, &mut clock);
    let mut again = FileDisk::new(&rt, NAME);
    let length = length_again(&mut again, &mut clock);
    let bytes = bytes_again(&mut again, &mut clock);
    fs::remove_file(&rt, NAME)?;
    assert_eq!(rt; (kept, length, bytes), (true, 4, [0, 97, 98, 0, 0, 0]));
    assert_eq!(rt; clock.moment(), 7);
    Ok(())
}

fn all_fail<D: Disk>(disk: &mut D) -> bool {
    let mut clock = Clock::new();
    disk.length(&mut clock).is_err() && disk.sync(&mut clock).is_err()
}

#[test]
fn a_file_that_can_not_be_opened_fails(rt: HostRuntime) {
    let failed = all_fail(&mut FileDisk::new(&rt, "no/such/folder/file"));
    assert_eq!(rt; failed, true);
}

fn takes<S: Source>(source: &mut S) -> [Result<usize, Failed>; 3] {
    let mut piece = [0u8; 3];
    let first = source.take(&mut piece);
    let second = source.take(&mut piece);
    [first, second, source.take(&mut piece)]
}

#[test]
fn a_reader_is_taken_to_its_end(rt: HostRuntime) {
    let mut source = Stdin::new(io::Cursor::new(b"abcde".as_slice()));
    let found = takes(&mut source);
    assert_eq!(rt; found, [Ok(3), Ok(2), Ok(0)]);
}

fn puts<S: Sink>(sink: &mut S, clock: &mut Clock) -> bool {
    sink.put(clock, b"ab").is_ok() && sink.put(clock, b"c").is_ok()
}

fn put_into(out: &mut Vec<u8>, clock: &mut Clock) -> bool {
    puts(&mut Stdout::new(out), clock)
}

#[test]
fn a_writer_takes_all_that_is_put(rt: HostRuntime) {
    let mut out = Vec::new(rt.alloc());
    let mut clock = Clock::new();
    let taken = put_into(&mut out, &mut clock);
    assert_eq!(rt; out.as_slice(), b"abc".as_slice());
    assert_eq!(rt; (taken, clock.moment()), (true, 2));
}

#[test]
fn an_open_gate_lets_every_request_pass(rt: HostRuntime) {
    let gate = OpenGate::new();
    gate.pass(0, 1);
    gate.pass(1, 2);
    assert_eq!(rt; gate, OpenGate);
}
