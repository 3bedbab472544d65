// Which turn is next, and what is shown.
ghost use Rattle.std.specs.Prelude.{◌≡◌, true, false, map, All, Some, None};
ghost use Rattle.hb_batch.specs.Batches.{hint_of, IsSitedHint};
ghost use Rattle.hb_turn.specs.Steps.{AreSitedIn};
ghost use Rattle.hb_turn.specs.Turning.{found as finds, goes_on, outcome_of};
ghost use Rattle.hb_turn.specs.declared.turn.Turned.TheVariants as turned_as;
ghost use Rattle.hb_mover.specs.Moving.{behind_first, is_going};
ghost use Rattle.hb_mover.specs.Steps.{BeginsTurn, GoesOn, TakesNext};
ghost use Rattle.hb_mover.specs.declared.mover.Progress.TheVariants as progress;

use crate::hints::hint_at;
use crate::mover::{Mover, Progress};
use hb_batch::Hint;
use hb_model::Reply;
use hb_turn::Turned;
use hb_types::Number;
use sqlite_items::Items;

impl Mover {
    /// Goes on behind a turn.
    pub(crate) fn follow(&mut self, turned: Turned) -> Progress
        requires over { is_going self.old ≡ false }
        requires sited { AreSitedIn turned }
        ensures { GoesOn self.old self.new (outcome_of turned) result }
    {
        match turned {
            Turned::Found(hints, number) => self.checked(hints, number),
            Turned::Again(shown) => self.go_again(shown),
            Turned::Onward => self.go_onward(),
            Turned::Over(reply) => Progress::Ended(reply),
        }
    }

    /// A check found these groups.
    fn checked(&mut self, hints: Items<Hint>, number: Number) -> Progress
        requires over { is_going self.old ≡ false }
        requires sited { All IsSitedHint hints }
        ensures { GoesOn self.old self.new (finds (map hint_of hints) number) result }
    {
        if hints.is_empty() {
            return Progress::Ended(Reply::Complete(number));
        }
        if self.left == 0 {
            let turns = self.turn.turns();
            return Progress::Ended(Reply::Suspended { turns, number });
        }
        self.take_hints(hints);
        self.go();
        Progress::More
    }

    /// The groups of the turns that follow.
    fn take_hints(&mut self, hints: Items<Hint>)
        requires sited { All IsSitedHint hints }
        ensures { self.new ≡ record self.old { hints = hints } }
    {
        self.hints = hints;
        self.at = 0;
    }

    /// Goes on with the same group, behind a line that is shown.
    fn go_again(&mut self, shown: Option<Reply>) -> Progress
        requires over { is_going self.old ≡ false }
        ensures { GoesOn self.old self.new (outcome_of (turned_as.Again shown)) result }
    {
        self.go();
        match shown {
            Some(reply) => Progress::Told(reply),
            None => Progress::More,
        }
    }

    /// Goes on behind the group of the turn.
    fn go_onward(&mut self) -> Progress
        requires over { is_going self.old ≡ false }
        ensures { GoesOn self.old self.new goes_on result }
    {
        self.pass();
        self.go();
        Progress::More
    }

    /// The first group is through.
    fn pass(&mut self)
        ensures { self.new ≡ record self.old { hints = behind_first self.old.hints } }
    {
        match hint_at(&self.hints, self.at) {
            Some(_) => self.at += 1,
            None => {}
        }
    }

    /// Begins a turn on the group that stands first, or a check where there is none or no turn is left.
    fn go(&mut self)
        requires over { is_going self.old ≡ false }
        ensures { BeginsTurn self.old self.new }
    {
        match self.next_hint() {
            Some(hint) => self.turn.turn_to(hint),
            None => self.turn.check(),
        }
    }

    /// The group of the next turn, which is counted.
    fn next_hint(&mut self) -> Option<Hint>
        ensures { TakesNext self.old self.new result }
    {
        let left = self.left.checked_sub(1)?;
        let hint = hint_at(&self.hints, self.at)?;
        self.left = left;
        Some(hint)
    }
}
