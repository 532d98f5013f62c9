//! What is gathered of small tables.
use crate::census::Census;
use crate::gather::gather;
use compose::hiding::Hiding;
use rows::transition::Transition;
use systems::actions::ActionSet;
use systems::row::Row;
use systems::table::Table;

/// What a list holds before anything is gathered.
const BLANK: Transition = Transition {
    source: 9,
    action: 9,
    target: 9,
};

fn row(source: usize, action: u8, target: usize) -> Row {
    Row {
        source,
        action,
        target,
    }
}

fn transition(source: usize, action: u8, target: usize) -> Transition {
    Transition {
        source,
        action,
        target,
    }
}

#[test]
fn three_states(rt: HostRuntime) {
    let rows = [row(0, 1, 0), row(0, 2, 1), row(1, 3, 2), row(2, 1, 0)];
    let table = Table {
        count: 3,
        start: 0,
        rows: &rows,
    };
    let mut bytes = [0; 32];
    bytes[0] = 8;
    let system = Hiding {
        system: table,
        actions: ActionSet { bytes },
    };
    let mut list = [BLANK; 6];
    let census = Census {
        visible: 3,
        silent: 1,
        dead: false,
    };
    assert_eq!(rt; gather(&system, &mut list), Some(census));
    let gathered = [
        transition(0, 1, 0),
        transition(0, 2, 1),
        transition(2, 1, 0),
        transition(1, 0, 2),
        BLANK,
        BLANK,
    ];
    assert_eq!(rt; list, gathered);
}

#[test]
fn short_list_and_dead_state(rt: HostRuntime) {
    let rows = [row(0, 1, 0), row(0, 2, 0), row(0, 3, 0), row(0, 4, 0)];
    let table = Table {
        count: 1,
        start: 0,
        rows: &rows,
    };
    let mut list = [BLANK; 3];
    assert_eq!(rt; gather(&table, &mut list), None);
    assert_eq!(rt; list, [BLANK; 3]);
    let empty = Table {
        count: 1,
        start: 0,
        rows: &[],
    };
    let census = Census {
        visible: 0,
        silent: 0,
        dead: true,
    };
    assert_eq!(rt; gather(&empty, &mut list), Some(census));
}
