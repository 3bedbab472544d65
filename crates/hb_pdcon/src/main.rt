//! The program: `run -b N` over the files of the current folder, from standard input to standard output.
#![tactic(auto)]

mod disks;
mod telling;

use disks::{are_open, discard, file_count, open_disks};
use hb_acts::back_ends;
use hb_adapt::{FileDisk, Stdin, Stdout, Streams};
use hb_console::{Ended, console_run};
use hb_edge::Clock;
use hb_types::{NoMemory, Text};
use std::alloc::Global;
use std::process::ExitCode;
use std::rt::Env;
use std::{env, io};
use telling::{tell, tell_cause, tell_disks, tell_end};

/// The words after the program's name. Where the system has none to give, there are none.
fn words<R: Env + AllocGlobal>(rt: &R, alloc: Global) -> Result<Vec<Text>, NoMemory> {
    let mut words = Vec::new(alloc);
    if let Ok(args) = env::args(rt) {
        for word in args.skip(1) {
            words.push(Text::new(word.as_bytes().to_vec(alloc)?))?;
        }
    }
    Ok(words)
}

/// Tells of the disks at the end. Behind an opening that was refused, the files that it made go, unless something was written.
fn close(rt: &HostRuntime, status: u8, disks: &[FileDisk]) {
    tell_disks(rt, disks);
    if status >= 5 && status <= 7 {
        discard(rt, disks);
    }
}

/// Runs the command over its disks, and answers its status.
fn run_over(rt: &HostRuntime, alloc: Global, words: &[Text], disks: Vec<FileDisk>) -> u8 {
    let mut source = Stdin::new(rt.stdin());
    let mut sink = Stdout::new(io::writer(rt));
    let mut clock = Clock::new();
    let Ended { status, disks } = console_run(
        alloc,
        words,
        &mut source,
        &mut sink,
        disks,
        &mut clock,
    );
    tell_end(rt, status, source.cause(), sink.cause());
    close(rt, status, disks.as_slice());
    status
}

/// Opens the files of a command and runs it, unless one of them can't be had.
fn run_files(
    rt: &HostRuntime,
    alloc: Global,
    words: &[Text],
    back_ends: u8,
) -> Result<u8, NoMemory> {
    let disks = open_disks(rt, alloc, file_count(back_ends))?;
    if are_open(disks.as_slice()) {
        return Ok(run_over(rt, alloc, words, disks));
    }
    close(rt, 5, disks.as_slice());
    Ok(5)
}

/// Runs a command whose standard streams are kept apart from its files. Without input or output it touches no file.
fn run_command(
    rt: &HostRuntime,
    alloc: Global,
    words: &[Text],
    back_ends: u8,
    streams: &Streams,
) -> Result<u8, NoMemory> {
    if !streams.has_input() {
        tell(rt, 3, "standard input is closed");
        return Ok(3);
    }
    if !streams.has_output() {
        tell(rt, 4, "standard output is closed");
        return Ok(4);
    }
    run_files(rt, alloc, words, back_ends)
}

/// Runs the command that the words name, and answers its status. Words that are none have no disks, so that a usage error
/// touches no file.
fn run(rt: &HostRuntime, alloc: Global) -> Result<u8, NoMemory> {
    let words = words(rt, alloc)?;
    let count = back_ends(words.as_slice());
    if count == 0 {
        return Ok(run_over(rt, alloc, words.as_slice(), Vec::new(alloc)));
    }
    match Streams::keep(rt) {
        Ok(streams) => run_command(rt, alloc, words.as_slice(), count, &streams),
        Err(cause) => {
            tell_cause(rt, 5, ".", cause);
            Ok(5)
        }
    }
}

fn main(rt: HostRuntime) -> ExitCode {
    match run(&rt, rt.alloc()) {
        Ok(status) => ExitCode::from(status),
        Err(NoMemory) => {
            tell(&rt, 7, "");
            ExitCode::from(7)
        }
    }
}
