// A decision that faults.
ghost use Rattle.std.specs.Prelude.{◌≡◌, false};
ghost use Rattle.hb_commit.specs.Driving.{is_waiting};

use hb_commit::{Driver, Outcome, Step};
use hb_types::{Answer, Left, Number, Tx};
use std::test::Fail;

fn asked_of(driver: &mut Driver, answer: Answer) -> Option<u8>
    requires { is_waiting driver.old.stage ≡ false }
    ensures { is_waiting driver.new.stage ≡ false }
{
    match driver.next() {
        Step::Ask(node, _) => {
            driver.take(answer);
            Some(node.0)
        }
        Step::Ended(_, _) => None,
    }
}

fn is_unknown(driver: &mut Driver, at: u16) -> bool
    requires { is_waiting driver.old.stage ≡ false }
{
    match driver.next() {
        Step::Ended(Outcome::Unknown, left) => left.0 == at,
        _ => false,
    }
}

#[test]
fn a_decision_that_faults_is_unknown(rt: HostRuntime) -> Result<(), Fail> {
    let mut driver = Driver::new(rt.alloc(), Tx(2), Left(2))?;
    let first = asked_of(&mut driver, Answer::Vote { floor: Number(0) });
    let decision = asked_of(&mut driver, Answer::Fault { area: false });
    let unknown = is_unknown(&mut driver, 2);
    assert_eq!(rt; (first, decision, unknown), (Some(1), Some(0), true));
    Ok(())
}
