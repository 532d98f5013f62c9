//! Rows through the translation, on machines that can be worked out by hand.
use columns::query::Query;
use compose::hiding::Hiding;
use compose::product::Product;
use direct::label::label as label_directly;
use rows::rows::{ActionRow, FormulaRow};
use rows::transition::Transition;
use std::alloc::{AllocError, Global};
use std::test::Fail;
use systems::actions::ActionSet;
use systems::mailbox::Mailbox;
use systems::row::Row;
use systems::system::System;
use systems::table::Table;
use translation::label::label;
use translation::unlabelled::Unlabelled;

const ANY: u8 = 0;

const UNUSED: Transition = Transition {
    source: 9,
    action: 9,
    target: 9,
};

fn row(source: usize, action: u8, target: usize) -> Row {
    Row {
        source,
        action,
        target,
    }
}

/// The set whose first byte is given.
fn set(first: u8) -> ActionSet {
    let mut bytes = [0; 32];
    bytes[0] = first;
    ActionSet { bytes }
}

const TESTS: [ActionRow; 3] = [ActionRow::Any, ActionRow::Not(0), ActionRow::Is(3)];

/// A formula row over these tests, and the columns of the rows before it.
fn asked(row: FormulaRow, earlier: &[u8]) -> Query<'static, '_> {
    Query {
        actions: &TESTS,
        row,
        earlier,
    }
}

/// The rounds of a row on a system of `N` states, and its column.
fn labelled<const N: usize, S: System>(
    system: &S,
    row: FormulaRow,
    earlier: &[u8],
) -> (Result<usize, Unlabelled>, [u8; N]) {
    let mut column = [7; N];
    let mut list = [UNUSED; 8];
    let mut scratch = [7; 64];
    let query = asked(row, earlier);
    let rounds = label(system, query, &mut column, &mut list, &mut scratch);
    (rounds, column)
}

/// Four transitions between three states.
fn four() -> [Row; 4] {
    [row(0, 1, 0), row(0, 2, 1), row(1, 3, 2), row(2, 1, 0)]
}

const BY_THREE: FormulaRow = FormulaRow::AllUntilBy {
    hold: 0,
    by: 1,
    last: 2,
    goal: 0,
};

#[test]
fn three_states(rt: HostRuntime) {
    let rows = four();
    let table = Table {
        count: 3,
        start: 0,
        rows: &rows,
    };
    let all = labelled::<3, _>(&table, FormulaRow::True, &[]);
    assert_eq!(rt; all, (Ok(0), [1, 1, 1]));
    let second = labelled::<3, _>(&table, BY_THREE, &[1, 1, 1]);
    assert_eq!(rt; second, (Ok(2), [0, 1, 0]));
    let reached = FormulaRow::ExistsUntil {
        hold: 0,
        by: ANY,
        goal: 1,
    };
    let third = labelled::<3, _>(&table, reached, &[1, 1, 1, 0, 1, 0]);
    assert_eq!(rt; third, (Ok(6), [1, 1, 1]));
}

#[test]
fn three_states_with_three_hidden(rt: HostRuntime) {
    let rows = four();
    let table = Table {
        count: 3,
        start: 0,
        rows: &rows,
    };
    let hidden = Hiding {
        system: table,
        actions: set(8),
    };
    let mut column = [7; 3];
    let mut list = [UNUSED; 5];
    let mut scratch = [7; 19];
    let rounds = label(
        &hidden,
        asked(BY_THREE, &[1, 1, 1]),
        &mut column,
        &mut list,
        &mut scratch,
    );
    assert_eq!(rt; rounds, Ok(0));
    assert_eq!(rt; column, [0, 0, 0]);
    assert_eq!(rt; list[2].source, 2);
    assert_eq!(rt; list[3].source, 1);
    assert_eq!(rt; list[3].action, 0);
    assert_eq!(rt; list[4].source, 9);
    assert_eq!(rt; scratch[18], 7);
}

#[test]
fn nothing_holds_on_the_way(rt: HostRuntime) {
    let rows = [row(0, 1, 0)];
    let table = Table {
        count: 1,
        start: 0,
        rows: &rows,
    };
    let row = FormulaRow::ExistsUntilBy {
        hold: 1,
        by: ANY,
        last: ANY,
        goal: 0,
    };
    let found = labelled::<1, _>(&table, row, &[1, 0]);
    assert_eq!(rt; found, (Ok(1), [0]));
    let mut column = [7];
    let direct = label_directly(&table, asked(row, &[1, 0]), &mut column, &mut [7]);
    assert_eq!(rt; direct, Some(0));
    assert_eq!(rt; column, [0]);
}

#[test]
fn next_steps(rt: HostRuntime) {
    let rows = [row(0, 0, 1), row(0, 2, 1)];
    let table = Table {
        count: 2,
        start: 0,
        rows: &rows,
    };
    let some = labelled::<2, _>(&table, FormulaRow::ExistsNext { by: ANY, then: 0 }, &[1, 1]);
    assert_eq!(rt; some, (Ok(0), [1, 0]));
    let all = labelled::<2, _>(&table, FormulaRow::AllNext { by: ANY, then: 0 }, &[1, 1]);
    assert_eq!(rt; all, (Ok(0), [0, 0]));
    let silent = labelled::<2, _>(&table, FormulaRow::ExistsSilent { then: 0 }, &[1, 1]);
    assert_eq!(rt; silent, (Ok(0), [1, 0]));
    let not = labelled::<2, _>(&table, FormulaRow::Not(0), &[1, 3]);
    assert_eq!(rt; not, (Ok(0), [0, 1]));
}

/// What is answered for two states with two visible transitions, and so five nodes, with room of these lengths.
fn with_room(column: usize, list: usize, scratch: usize) -> Result<usize, Unlabelled> {
    let rows = [row(0, 1, 1), row(0, 2, 1)];
    let table = Table {
        count: 2,
        start: 0,
        rows: &rows,
    };
    let mut columns = [7; 3];
    let mut entries = [UNUSED; 3];
    let mut bytes = [7; 16];
    label(
        &table,
        asked(FormulaRow::True, &[]),
        &mut columns[..column.min(3)],
        &mut entries[..list.min(3)],
        &mut bytes[..scratch.min(16)],
    )
}

#[test]
fn room(rt: HostRuntime) {
    assert_eq!(rt; with_room(2, 2, 15), Ok(0));
    assert_eq!(rt; with_room(3, 1, 14), Err(Unlabelled::Column));
    assert_eq!(rt; with_room(2, 1, 14), Err(Unlabelled::Transitions));
    assert_eq!(rt; with_room(2, 2, 14), Err(Unlabelled::Scratch));
}

/// What is answered for one state with this many loops, and one more by a mailbox that loses what is put.
fn with_loops(heap: Global, loops: usize) -> Result<Result<usize, Unlabelled>, AllocError> {
    let rows = vec![in heap; row(0, 2, 0); loops]?;
    let table = Table {
        count: 1,
        start: 0,
        rows: rows.as_slice(),
    };
    let product = Product {
        left: &table,
        right: Mailbox {
            capacity: 0,
            put: 1,
            take: 3,
        },
        shared: set(0),
    };
    let mut list = vec![in heap; UNUSED; 5000]?;
    let mut scratch = vec![in heap; 7; 16000]?;
    Ok(label(
        &product,
        asked(FormulaRow::True, &[]),
        &mut [7],
        &mut list,
        &mut scratch,
    ))
}

#[test]
fn at_most_4096_transitions(rt: HostRuntime) -> Result<(), Fail> {
    assert_eq!(rt; with_loops(rt.alloc(), 4095)?, Ok(0));
    assert_eq!(rt; with_loops(rt.alloc(), 4096)?, Err(Unlabelled::Transitions));
    Ok(())
}
