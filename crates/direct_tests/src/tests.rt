//! Columns and rounds of rows on small tables.
use columns::query::Query;
use direct::label::label;
use rows::rows::{ActionRow, FormulaRow};
use systems::row::Row;
use systems::table::Table;

const ANY: u8 = 0;

fn row(source: usize, action: u8, target: usize) -> Row {
    Row {
        source,
        action,
        target,
    }
}

/// The rounds of a row on a table of `N` states, and its column.
fn labelled<const N: usize>(
    rows: &[Row],
    actions: &[ActionRow],
    row: FormulaRow,
    earlier: &[u8],
) -> (Option<usize>, [u8; N]) {
    let table = Table {
        count: N,
        start: 0,
        rows,
    };
    let query = Query {
        actions,
        row,
        earlier,
    };
    let mut column = [7; N];
    let mut scratch = [7; N];
    let rounds = label(&table, query, &mut column, &mut scratch);
    (rounds, column)
}

#[test]
fn three_states(rt: HostRuntime) {
    let rows = [row(0, 1, 0), row(0, 2, 1), row(1, 3, 2), row(2, 1, 0)];
    let actions = [ActionRow::Any, ActionRow::Not(0), ActionRow::Is(3)];
    let all = labelled::<3>(&rows, &actions, FormulaRow::True, &[]);
    assert_eq!(rt; all, (Some(0), [1, 1, 1]));
    let by_three = FormulaRow::AllUntilBy {
        hold: 0,
        by: 1,
        last: 2,
        goal: 0,
    };
    let second = labelled::<3>(&rows, &actions, by_three, &[1, 1, 1]);
    assert_eq!(rt; second, (Some(1), [0, 1, 0]));
    let reached = FormulaRow::ExistsUntil {
        hold: 0,
        by: ANY,
        goal: 1,
    };
    let third = labelled::<3>(&rows, &actions, reached, &[1, 1, 1, 0, 1, 0]);
    assert_eq!(rt; third, (Some(3), [1, 1, 1]));
}

#[test]
fn dead_state(rt: HostRuntime) {
    let actions = [ActionRow::Any];
    let some = labelled::<1>(&[], &actions, FormulaRow::ExistsSilent { then: 0 }, &[1]);
    assert_eq!(rt; some.1, [0]);
    let all = labelled::<1>(&[], &actions, FormulaRow::AllSilent { then: 0 }, &[1]);
    assert_eq!(rt; all.1, [0]);
    let at_once = FormulaRow::AllUntil {
        hold: 0,
        by: ANY,
        goal: 0,
    };
    assert_eq!(rt; labelled::<1>(&[], &actions, at_once, &[1]).1, [1]);
}

#[test]
fn silent_loop(rt: HostRuntime) {
    let rows = [row(0, 0, 0)];
    let actions = [ActionRow::Any, ActionRow::Is(5), ActionRow::Not(1)];
    let not_five = FormulaRow::ExistsNext { by: 2, then: 0 };
    assert_eq!(rt; labelled::<1>(&rows, &actions, not_five, &[1]).1, [0]);
    let seen = FormulaRow::ExistsUntilBy {
        hold: 0,
        by: ANY,
        last: ANY,
        goal: 0,
    };
    assert_eq!(rt; labelled::<1>(&rows, &actions, seen, &[1]).1, [0]);
    let never = FormulaRow::AllUntil {
        hold: 0,
        by: ANY,
        goal: 1,
    };
    assert_eq!(rt; labelled::<1>(&rows, &actions, never, &[1, 0]).1, [0]);
}

#[test]
fn silent_then_seen(rt: HostRuntime) {
    let rows = [row(0, 0, 0), row(0, 1, 1)];
    let actions = [ActionRow::Any, ActionRow::Not(0), ActionRow::Is(1)];
    let some = FormulaRow::ExistsUntilBy {
        hold: 0,
        by: 1,
        last: 2,
        goal: 0,
    };
    assert_eq!(rt; labelled::<2>(&rows, &actions, some, &[1, 1]).1, [1, 0]);
    let all = FormulaRow::AllUntilBy {
        hold: 0,
        by: 1,
        last: 2,
        goal: 0,
    };
    assert_eq!(rt; labelled::<2>(&rows, &actions, all, &[1, 1]).1, [0, 0]);
}

#[test]
fn no_state_holds(rt: HostRuntime) {
    let rows = [row(0, 1, 1)];
    let row = FormulaRow::ExistsUntilBy {
        hold: 1,
        by: ANY,
        last: ANY,
        goal: 0,
    };
    let found = labelled::<2>(&rows, &[ActionRow::Any], row, &[1, 1, 0, 0]);
    assert_eq!(rt; found, (Some(0), [0, 0]));
}

#[test]
fn no_room(rt: HostRuntime) {
    let table = Table {
        count: 2,
        start: 0,
        rows: &[],
    };
    let query = Query {
        actions: &[],
        row: FormulaRow::True,
        earlier: &[],
    };
    let mut column = [7; 2];
    let mut scratch = [7; 1];
    let answer = label(&table, query, &mut column, &mut scratch);
    assert_eq!(rt; answer, None);
    assert_eq!(rt; column, [7, 7]);
    assert_eq!(rt; scratch, [7]);
}
