// A disk whose calls fail from an armed one on.
ghost use Rattle.std.specs.Prelude.{◌≡◌, ◌+◌, ◌-◌, ◌≤◌, ◌^◌, ℕ, List, max, min, true, false, length, take, Option, Some, None, is_some, IfSome, IfOk, OnOk, OnErr};
ghost use Rattle.std.specs.Option.{option_map};
ghost use Rattle.hb_edge.specs.Causes.{risen, HasCause};
ghost use Rattle.hb_edge.specs.Fuses.{Burns, burned, faults_of, is_spent, last_of};
ghost use Rattle.hb_edge.specs.Images.{window, written, Torn, Cut, Same};
ghost use Rattle.hb_edge.specs.Moments.{tick};
ghost use Rattle.hb_edge.specs.Stops.{Passes, Only};
ghost use Rattle.hb_edge.specs.Wrapping.{read_later, stands_later, stands_on_later};

use crate::{Clock, Disk, Failed};

/// Wraps a disk and is one. A call that it fails itself isn't made on the inner disk.
#[derive(Drop)]
pub struct Fused<D: Disk> {
    inner: D,
    /// How many calls are still made, where it is armed.
    calls_left: Option<u64>,
    failures: u64,
    /// The moment of its own last failure.
    failed_at: u128,
}

impl<D: Disk> Fused<D> {
    pub fn new(inner: D) -> Fused<D>
        ensures { result ≡ record { inner = inner; calls_left = None; failures = 0; failed_at = 0 } }
    {
        Fused {
            inner,
            calls_left: None,
            failures: 0,
            failed_at: 0,
        }
    }

    /// The k-th call from now fails, and so do all after it. 0 counts as 1.
    pub fn arm(&mut self, k: u64)
        ensures fuse { self.new.calls_left ≡ Some (k - 1) }
        ensures inner { self.new.inner ≡ self.old.inner }
        ensures failures { self.new.failures ≡ self.old.failures }
        ensures failed_at { self.new.failed_at ≡ self.old.failed_at }
    {
        self.calls_left = Some(k.saturating_sub(1));
    }

    pub fn repair(&mut self)
        ensures fuse { self.new.calls_left ≡ None }
        ensures inner { self.new.inner ≡ self.old.inner }
        ensures failures { self.new.failures ≡ self.old.failures }
        ensures failed_at { self.new.failed_at ≡ self.old.failed_at }
    {
        self.calls_left = None;
    }

    pub fn into_inner(self) -> D
        ensures { result ≡ self.inner }
    {
        let Fused {
            inner,
            calls_left: _,
            failures: _,
            failed_at: _,
        } = self;
        inner
    }

    // Whether this call is made on the inner disk; else it is one more failure.
    fn passes(&mut self, clock: &mut Clock) -> bool
        ensures inner { self.new.inner ≡ self.old.inner }
        ensures fuse { self.new.calls_left ≡ burned self.old.calls_left }
        ensures made { result ≡ true → (is_spent self.old.calls_left ≡ false) × (clock.new ≡ clock.old) × (self.new.failures ≡ self.old.failures) × (self.new.failed_at ≡ self.old.failed_at) }
        ensures failed { result ≡ false → (is_spent self.old.calls_left ≡ true) × (clock.new ≡ tick clock.old) × (self.new.failures ≡ risen self.old.failures) × (self.new.failed_at ≡ max self.old.failed_at clock.new) }
    {
        match self.calls_left {
            None => true,
            Some(0) => {
                clock.tick();
                self.failures = self.failures.saturating_add(1);
                self.failed_at = self.failed_at.max(clock.moment());
                false
            }
            Some(left) => {
                self.calls_left = Some(left - 1);
                true
            }
        }
    }
}

impl<D: Disk> Disk for Fused<D> {
    ghost content = { λ f. D.content f.inner };

    ghost left = { λ f. D.left f.inner };

    ghost last = { last_of D.last };

    ghost faults = { faults_of D.faults };

    ghost as_read = { λ f. read_later (D.content f.inner) (D.left f.inner) (D.last f.inner) f.failed_at (D.stands_on f.inner) (D.as_read f.inner) };

    ghost stands = { λ f. stands_later (D.left f.inner) (D.last f.inner) f.failed_at (D.stands f.inner) (D.stands_on f.inner) };

    ghost stands_on = { λ f. stands_on_later (D.left f.inner) (D.last f.inner) f.failed_at (D.stands f.inner) (D.stands_on f.inner) };

    fn length(&mut self, clock: &mut Clock) -> Result<u64, Failed>
        ensures length { IfOk result (λ n. IfSome (D.content self.old.inner) (λ bytes. n ≡ length bytes)) }
        ensures content { D.content self.new.inner ≡ D.content self.old.inner }
        ensures clock { clock.new ≡ tick clock.old }
        ensures last { last_of D.last self.new ≡ max (last_of D.last self.old) clock.new }
        ensures stop { Passes Same clock.new (last_of D.last self.old) (D.left self.old.inner) (D.left self.new.inner) }
        ensures cause { HasCause (faults_of D.faults self.old) (faults_of D.faults self.new) result }
        ensures fuse { Burns D.faults self.old self.new result }
    {
        if self.passes(clock) {
            self.inner.length(clock)
        } else {
            Err(Failed)
        }
    }

    fn read(&mut self, clock: &mut Clock, at: u64, into: &mut [u8]) -> Result<(), Failed>
        ensures bytes { OnOk result (IfSome (D.content self.old.inner) (λ bytes. into.new ≡ window bytes at (length into.old))) }
        ensures content { D.content self.new.inner ≡ D.content self.old.inner }
        ensures clock { clock.new ≡ tick clock.old }
        ensures last { last_of D.last self.new ≡ max (last_of D.last self.old) clock.new }
        ensures stop { Passes Same clock.new (last_of D.last self.old) (D.left self.old.inner) (D.left self.new.inner) }
        ensures cause { HasCause (faults_of D.faults self.old) (faults_of D.faults self.new) result }
        ensures fuse { Burns D.faults self.old self.new result }
    {
        if self.passes(clock) {
            self.inner.read(clock, at, into)
        } else {
            Err(Failed)
        }
    }

    fn write_at(&mut self, clock: &mut Clock, at: u64, bytes: &[u8]) -> Result<(), Failed>
        requires { at + length bytes.now ≤ 2 ^ 62 }
        ensures written { OnOk result (D.content self.new.inner ≡ option_map (written at bytes.now) (D.content self.old.inner)) }
        ensures told { is_some (D.content self.new.inner) ≡ is_some (D.content self.old.inner) }
        ensures clock { clock.new ≡ tick clock.old }
        ensures last { last_of D.last self.new ≡ max (last_of D.last self.old) clock.new }
        ensures stop { Passes (Torn at (length bytes.now)) clock.new (last_of D.last self.old) (D.left self.old.inner) (D.left self.new.inner) }
        ensures cause { HasCause (faults_of D.faults self.old) (faults_of D.faults self.new) result }
        ensures fuse { Burns D.faults self.old self.new result }
    {
        if self.passes(clock) {
            self.inner.write_at(clock, at, bytes)
        } else {
            Err(Failed)
        }
    }

    fn cut(&mut self, clock: &mut Clock, length: u64) -> Result<(), Failed>
        ensures cut { OnOk result (D.content self.new.inner ≡ option_map (take length) (D.content self.old.inner)) }
        ensures told { is_some (D.content self.new.inner) ≡ is_some (D.content self.old.inner) }
        ensures clock { clock.new ≡ tick clock.old }
        ensures last { last_of D.last self.new ≡ max (last_of D.last self.old) clock.new }
        ensures stop { Passes (Cut length) clock.new (last_of D.last self.old) (D.left self.old.inner) (D.left self.new.inner) }
        ensures cause { HasCause (faults_of D.faults self.old) (faults_of D.faults self.new) result }
        ensures fuse { Burns D.faults self.old self.new result }
    {
        if self.passes(clock) {
            self.inner.cut(clock, length)
        } else {
            Err(Failed)
        }
    }

    fn sync(&mut self, clock: &mut Clock) -> Result<(), Failed>
        ensures kept { OnOk result (IfSome (D.content self.old.inner) (Only (D.left self.new.inner) (max (last_of D.last self.old) clock.new))) }
        ensures content { D.content self.new.inner ≡ D.content self.old.inner }
        ensures clock { clock.new ≡ tick clock.old }
        ensures last { last_of D.last self.new ≡ max (last_of D.last self.old) clock.new }
        ensures stop { Passes Same clock.new (last_of D.last self.old) (D.left self.old.inner) (D.left self.new.inner) }
        ensures cause { HasCause (faults_of D.faults self.old) (faults_of D.faults self.new) result }
        ensures fuse { Burns D.faults self.old self.new result }
    {
        if self.passes(clock) {
            self.inner.sync(clock)
        } else {
            Err(Failed)
        }
    }

    fn restart(&mut self, clock: &mut Clock) -> Result<(), Failed>
        ensures reads { OnOk result (IfSome (D.content self.new.inner) (D.left self.old.inner (last_of D.last self.old))) }
        ensures kept { OnOk result (IfSome (D.content self.new.inner) (Only (D.left self.new.inner) (max (last_of D.last self.old) clock.new))) }
        ensures told { is_some (D.content self.new.inner) ≡ is_some (D.content self.old.inner) }
        ensures same { OnErr result (D.content self.new.inner ≡ D.content self.old.inner) }
        ensures clock { clock.new ≡ tick clock.old }
        ensures last { last_of D.last self.new ≡ max (last_of D.last self.old) clock.new }
        ensures stop { Passes Same clock.new (last_of D.last self.old) (D.left self.old.inner) (D.left self.new.inner) }
        ensures cause { HasCause (faults_of D.faults self.old) (faults_of D.faults self.new) result }
        ensures fuse { Burns D.faults self.old self.new result }
    {
        if self.passes(clock) {
            self.inner.restart(clock)
        } else {
            Err(Failed)
        }
    }
}
