// The lines of a source, taken a piece at a time.
ghost use Rattle.std.specs.Prelude.{◌≡◌, ◌+◌, ◌<◌, ◌≤◌, true, [], length, drop, IfOk, IfSome, OnOk, OnSome};
ghost use Rattle.hb_edge.specs.Causes.{HasCause};
ghost use Rattle.hb_edge.specs.Streams.{with_front};
ghost use Rattle.hb_lines.specs.Parts.{TakesPart, TakesLine};
ghost use Rattle.hb_lines.specs.Next.{NextLine, HasSourceCause};
ghost use Rattle.hb_lines.specs.Saying.{IsPlainSaid};

use crate::LineFault;
use crate::cut::split_at_byte;
use crate::front::{is_past_the_most, some_line};
use crate::said::Said;
use hb_edge::{Failed, Source};
use hb_types::NoMemory;
use std::alloc::Global;
use std::marker::Model;

const PIECE: usize = 4096;

/// Reads a script from a source, a piece of at most 4,096 bytes at a time. A line is refused as soon as it is
/// known to have more than 8,192 bytes.
#[derive(Drop)]
pub struct LineReader {
    piece: Vec<u8>,
    at: usize,
    end: usize,
}

impl Model for LineReader {
    ghost use Rattle.std.specs.Prelude.{List, ℕ, ◌-◌, ◌≤◌, ◌<◌, take, drop, length};

    ghost Value = { List ℕ };

    ghost view = { λ r. take (r.end - r.at) (drop r.at r.piece.items) };

    ghost invariant = { λ r. (r.at ≤ r.end) × (r.end ≤ length r.piece.items) × (0 < length r.piece.items) };
}

impl LineReader {
    /// Nothing is read yet.
    pub fn new(alloc: Global) -> Result<LineReader, NoMemory>
        ensures { IfOk result (λ reader. reader ≡ []) }
    {
        let piece = vec![in alloc; 0; PIECE]?;
        Ok(LineReader {
            piece,
            at: 0,
            end: 0,
        })
    }

    fn unread(&self) -> &[u8]
        ensures { result.now ≡ self.now }
    {
        &self.piece[self.at..self.end]
    }

    /// Goes on behind so many bytes.
    fn pass(&mut self, count: usize)
        requires { count ≤ length self.old }
        ensures { self.new ≡ drop count self.old }
    {
        self.at += count;
    }

    /// Takes the next piece, once all bytes are read.
    fn fill<S: Source>(&mut self, source: &mut S) -> Result<(), Failed>
        ensures bytes { OnOk result (S.left source.old ≡ with_front self.new (S.left source.new)) }
        ensures end { OnOk result (length self.new ≡ 0 → IfSome (S.left source.new) (λ rest. rest ≡ [])) }
        ensures bound { OnOk result (length self.new + S.bound source.new ≡ S.bound source.old) }
        ensures cause { HasCause (S.faults source.old) (S.faults source.new) result }
    {
        self.at = 0;
        self.end = 0;
        let count = source.take(self.piece.as_mut_slice())?;
        self.end = count;
        Ok(())
    }

    /// Passes what belongs to the line, and adds it to its front. Whether the line ends there.
    fn take_part(&mut self, front: &mut Vec<u8>) -> Result<bool, NoMemory>
        ensures { IfOk result (λ ends. TakesPart ends front.old.items front.new.items self.old self.new) }
    {
        let unread = self.unread();
        match split_at_byte(unread, b'\n') {
            Some((part, _)) => {
                front.extend_from_slice(part)?;
                let count = part.len() + 1;
                self.pass(count);
                Ok(true)
            }
            None => {
                front.extend_from_slice(unread)?;
                let count = unread.len();
                self.pass(count);
                Ok(false)
            }
        }
    }

    /// Takes the bytes of the next line, without its line feed, into an empty front. Whether there was a line.
    fn take_line<S: Source>(
        &mut self,
        source: &mut S,
        front: &mut Vec<u8>,
    ) -> Result<bool, LineFault>
        requires { front.old.items ≡ [] }
        ensures line { TakesLine (with_front self.old (S.left source.old)) (with_front self.new (S.left source.new)) (S.faults source.old) (S.faults source.new) front.new.items result }
        ensures bound { IfOk result (λ some. some ≡ true → length self.new + S.bound source.new < length self.old + S.bound source.old) }
        ensures later { S.faults source.old ≤ S.faults source.new }
    {
        'pieces: loop {
            let ends = self.take_part(front)?;
            if ends {
                return Ok(true);
            }
            if is_past_the_most(front) {
                return Err(LineFault::TooLong);
            }
            match self.fill(source) {
                Err(Failed) => return Err(LineFault::Source),
                Ok(()) => {}
            }
            if self.unread().len() < 1 {
                return Ok(front.len() > 0);
            }
        }
    }

    /// What the next line says, or none where the script has ended. Behind a fault the place in the script is unknown.
    pub fn next_line<S: Source>(
        &mut self,
        alloc: Global,
        source: &mut S,
    ) -> Result<Option<Said>, LineFault>
        ensures next { IfOk result (λ found. NextLine found (with_front self.old (S.left source.old)) (with_front self.new (S.left source.new))) }
        ensures bound { IfOk result (λ found. OnSome found (length self.new + S.bound source.new < length self.old + S.bound source.old)) }
        ensures cause { HasSourceCause (S.faults source.old) (S.faults source.new) (with_front self.old (S.left source.old)) result }
        ensures plain { IfOk result (λ found. IfSome found IsPlainSaid) }
    {
        let mut front = Vec::new(alloc);
        let some = self.take_line(source, &mut front)?;
        if some {
            some_line(alloc, &front)
        } else {
            Ok(None)
        }
    }
}
