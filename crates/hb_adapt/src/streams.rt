// The numbers of the standard streams.
use std::fs::File;
use std::io;
use std::os::fd::AsRawFd;
use std::rt::Files;

/// Keeps a number from the files that are opened later.
type Kept = Option<File>;

/// The standard streams that were closed when the program began. The current folder, which can be neither read nor written
/// as a file is, has their numbers, so that no file that is opened later becomes one of them.
#[derive(Drop)]
pub struct Streams {
    input: Kept,
    output: Kept,
    errors: Kept,
}

impl Streams {
    /// To be called before any file is opened: an open file has the lowest number that is free.
    pub fn keep<R: Files<File = File>>(rt: &R) -> io::Result<Streams> {
        let mut streams = Streams {
            input: None,
            output: None,
            errors: None,
        };
        for _ in 0..3 {
            let folder = File::open(rt, ".")?;
            match folder.as_raw_fd() {
                0 => streams.input = Some(folder),
                1 => streams.output = Some(folder),
                2 => streams.errors = Some(folder),
                _ => return Ok(streams),
            }
        }
        Ok(streams)
    }

    pub fn has_input(&self) -> bool {
        self.input.is_none()
    }

    pub fn has_output(&self) -> bool {
        self.output.is_none()
    }
}
