// What is told on standard error. Where that is closed or fails, nobody can be told.
use crate::disks::FILES;
use hb_acts::status_word;
use hb_adapt::FileDisk;
use std::io;

const USAGE: &str = "hb_pdcon run -b N < SCRIPT, where N, from 1 to 8, is the number of back ends";

/// The word of a status, and what there is to say of it.
pub(crate) fn tell<R: Eprint>(rt: &R, status: u8, what: &str) {
    let word = status_word(status);
    let _ = if what.is_empty() {
        eprintln!(rt; "hb_pdcon: {word}")
    } else {
        eprintln!(rt; "hb_pdcon: {word}: {what}")
    };
}

/// The word of a status, where it comes from, and its cause.
pub(crate) fn tell_cause<R: Eprint>(rt: &R, status: u8, place: &str, cause: io::Error) {
    let word = status_word(status);
    let _ = eprintln!(rt; "hb_pdcon: {word}: {place}: {cause}");
}

/// Each file that failed, by its name, with the cause.
pub(crate) fn tell_disks<R: Eprint>(rt: &R, disks: &[FileDisk]) {
    for (name, disk) in FILES.iter().zip(disks) {
        if let Some(cause) = disk.cause() {
            tell_cause(rt, 5, name, cause);
        }
    }
}

/// Each stream that failed, and what the status says beside that. Of 5 the disks tell.
pub(crate) fn tell_end<R: Eprint>(
    rt: &R,
    status: u8,
    source: Option<io::Error>,
    sink: Option<io::Error>,
) {
    if let Some(cause) = source {
        tell_cause(rt, 3, "standard input", cause);
    }
    if let Some(cause) = sink {
        tell_cause(rt, 4, "standard output", cause);
    }
    match status {
        1 => tell(rt, 1, USAGE),
        6 => tell(rt, 6, "standard output names the file"),
        7 => tell(rt, 7, ""),
        8 => tell(rt, 8, "longer than 8,192 bytes"),
        _ => {}
    }
}
