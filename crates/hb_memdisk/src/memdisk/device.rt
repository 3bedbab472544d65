// A disk in memory is a disk.
ghost use Rattle.std.specs.Prelude.{◌≡◌, ◌+◌, ◌^◌, ◌≤◌, max, ℕ, List, length, take, Option, Some, is_some, IfSome, IfOk, OnOk, OnErr};
ghost use Rattle.std.specs.Option.{option_map};
ghost use Rattle.hb_edge.specs.Causes.{risen, HasCause};
ghost use Rattle.hb_edge.specs.Images.{window, written, Torn, Cut, Same};
ghost use Rattle.hb_edge.specs.Moments.{tick};
ghost use Rattle.hb_edge.specs.Stops.{Passes, Only};
ghost use Rattle.hb_memdisk.specs.MemDisk.{content_of, told_of, left_of, faults_of, Asks, next_pick, picked, disk_as_read, disk_stands, disk_stands_on};

use crate::memdisk::MemDisk;
use crate::replay::copy_window;
use hb_edge::{Clock, Disk, Failed};

impl Disk for MemDisk {
    ghost content = { told_of };

    ghost left = { left_of };

    ghost last = { λ disk. disk.last };

    ghost faults = { faults_of };

    ghost as_read = { disk_as_read };

    ghost stands = { disk_stands };

    ghost stands_on = { disk_stands_on };

    fn length(&mut self, clock: &mut Clock) -> Result<u64, Failed>
        ensures length { IfOk result (λ n. IfSome (told_of self.old) (λ bytes. n ≡ length bytes)) }
        ensures content { told_of self.new ≡ told_of self.old }
        ensures clock { clock.new ≡ tick clock.old }
        ensures last { self.new.last ≡ max self.old.last clock.new }
        ensures stop { Passes Same clock.new self.old.last (left_of self.old) (left_of self.new) }
        ensures cause { HasCause (faults_of self.old) (faults_of self.new) result }
        ensures asked { Asks self.old self.new result }
        ensures restarts { self.new.restarts ≡ self.old.restarts }
    {
        clock.tick();
        if self.begin(clock.moment()) {
            return Err(Failed);
        }
        Ok(self.bytes().len() as u64)
    }

    fn read(&mut self, clock: &mut Clock, at: u64, into: &mut [u8]) -> Result<(), Failed>
        ensures bytes { OnOk result (IfSome (told_of self.old) (λ bytes. into.new ≡ window bytes at (length into.old))) }
        ensures content { told_of self.new ≡ told_of self.old }
        ensures clock { clock.new ≡ tick clock.old }
        ensures last { self.new.last ≡ max self.old.last clock.new }
        ensures stop { Passes Same clock.new self.old.last (left_of self.old) (left_of self.new) }
        ensures cause { HasCause (faults_of self.old) (faults_of self.new) result }
        ensures asked { Asks self.old self.new result }
        ensures restarts { self.new.restarts ≡ self.old.restarts }
    {
        clock.tick();
        if self.begin(clock.moment()) {
            return Err(Failed);
        }
        copy_window(self.bytes(), at, into);
        Ok(())
    }

    fn write_at(&mut self, clock: &mut Clock, at: u64, bytes: &[u8]) -> Result<(), Failed>
        requires { at + length bytes.now ≤ 2 ^ 62 }
        ensures written { OnOk result (told_of self.new ≡ option_map (written at bytes.now) (told_of self.old)) }
        ensures told { is_some (told_of self.new) ≡ is_some (told_of self.old) }
        ensures clock { clock.new ≡ tick clock.old }
        ensures last { self.new.last ≡ max self.old.last clock.new }
        ensures stop { Passes (Torn at (length bytes.now)) clock.new self.old.last (left_of self.old) (left_of self.new) }
        ensures cause { HasCause (faults_of self.old) (faults_of self.new) result }
        ensures asked { Asks self.old self.new result }
        ensures restarts { self.new.restarts ≡ self.old.restarts }
    {
        clock.tick();
        let listed = self.begin(clock.moment());
        if self.write(clock.moment(), at, bytes).is_err() {
            self.short = self.short.saturating_add(1);
            return Err(Failed);
        }
        if listed { Err(Failed) } else { Ok(()) }
    }

    fn cut(&mut self, clock: &mut Clock, length: u64) -> Result<(), Failed>
        ensures cut { OnOk result (told_of self.new ≡ option_map (take length) (told_of self.old)) }
        ensures told { is_some (told_of self.new) ≡ is_some (told_of self.old) }
        ensures clock { clock.new ≡ tick clock.old }
        ensures last { self.new.last ≡ max self.old.last clock.new }
        ensures stop { Passes (Cut length) clock.new self.old.last (left_of self.old) (left_of self.new) }
        ensures cause { HasCause (faults_of self.old) (faults_of self.new) result }
        ensures asked { Asks self.old self.new result }
        ensures restarts { self.new.restarts ≡ self.old.restarts }
    {
        clock.tick();
        let listed = self.begin(clock.moment());
        if self.shorten(clock.moment(), length).is_err() {
            self.short = self.short.saturating_add(1);
            return Err(Failed);
        }
        if listed { Err(Failed) } else { Ok(()) }
    }

    fn sync(&mut self, clock: &mut Clock) -> Result<(), Failed>
        ensures kept { OnOk result (IfSome (told_of self.old) (Only (left_of self.new) (max self.old.last clock.new))) }
        ensures content { told_of self.new ≡ told_of self.old }
        ensures clock { clock.new ≡ tick clock.old }
        ensures last { self.new.last ≡ max self.old.last clock.new }
        ensures stop { Passes Same clock.new self.old.last (left_of self.old) (left_of self.new) }
        ensures cause { HasCause (faults_of self.old) (faults_of self.new) result }
        ensures asked { Asks self.old self.new result }
        ensures restarts { self.new.restarts ≡ self.old.restarts }
    {
        clock.tick();
        if self.begin(clock.moment()) {
            return Err(Failed);
        }
        if self.settle(clock.moment()).is_err() {
            self.short = self.short.saturating_add(1);
            return Err(Failed);
        }
        Ok(())
    }

    fn restart(&mut self, clock: &mut Clock) -> Result<(), Failed>
        ensures reads { OnOk result (IfSome (told_of self.new) (left_of self.old self.old.last)) }
        ensures kept { OnOk result (IfSome (told_of self.new) (Only (left_of self.new) (max self.old.last clock.new))) }
        ensures told { is_some (told_of self.new) ≡ is_some (told_of self.old) }
        ensures same { OnErr result (told_of self.new ≡ told_of self.old) }
        ensures clock { clock.new ≡ tick clock.old }
        ensures last { self.new.last ≡ max self.old.last clock.new }
        ensures stop { Passes Same clock.new self.old.last (left_of self.old) (left_of self.new) }
        ensures cause { HasCause (faults_of self.old) (faults_of self.new) result }
        ensures asked { Asks self.old self.new result }
        ensures picked { OnOk result (content_of self.new ≡ picked (next_pick self.old) self.old) }
        ensures restarts { OnOk result (self.new.restarts ≡ risen self.old.restarts) }
        ensures no_restart { OnErr result (self.new.restarts ≡ self.old.restarts) }
    {
        clock.tick();
        if self.begin(clock.moment()) {
            return Err(Failed);
        }
        if self.leave_picked(clock.moment()).is_err() {
            self.short = self.short.saturating_add(1);
            return Err(Failed);
        }
        self.restarts = self.restarts.saturating_add(1);
        Ok(())
    }
}
