//! Tests of actions by rows.
use crate::meeting::action_meets;
use crate::rows::ActionRow;
use crate::tester::Tester;
use std::array;
use std::test::Fail;

#[test]
fn each_row_is_tested_once(rt: HostRuntime) -> Result<(), Fail> {
    let rows: [ActionRow; 64] = array::from_fn(|row| match row {
        0 => ActionRow::Is(5),
        _ => ActionRow::And(row as u8 - 1, row as u8 - 1),
    });
    assert!(rt; action_meets(&rows, 63, 5));
    assert!(rt; !action_meets(&rows, 63, 6));
    let last = Tester::new(&rows, 63);
    assert!(rt; last.accepts(5));
    assert!(rt; !last.accepts(6));
    Ok(())
}

#[test]
fn the_silent_action_meets_no_row(rt: HostRuntime) {
    let rows = [ActionRow::Any, ActionRow::Is(5), ActionRow::Not(1)];
    assert!(rt; !action_meets(&rows, 0, 0));
    assert!(rt; !action_meets(&rows, 2, 0));
    assert!(rt; action_meets(&rows, 2, 6));
    assert!(rt; !Tester::new(&rows, 2).accepts(0));
}

#[test]
fn a_row_that_names_itself_accepts_nothing(rt: HostRuntime) {
    let rows = [ActionRow::Not(0), ActionRow::And(1, 1)];
    assert!(rt; !action_meets(&rows, 0, 5));
    assert!(rt; !action_meets(&rows, 1, 5));
    assert!(rt; !action_meets(&rows, 2, 5));
}
