//! Systems that can be read off by hand, and what the check of a product refuses.
use crate::hiding::Hiding;
use crate::kept::Kept;
use crate::product::Product;
use faults::system::SystemFault;
use std::process::Abort;
use systems::actions::ActionSet;
use systems::mailbox::Mailbox;
use systems::row::Row;
use systems::system::System;
use systems::table::Table;

const LOOP: Row = Row {
    source: 0,
    action: 1,
    target: 0,
};

/// The set whose first byte is given.
fn set(first: u8) -> ActionSet {
    let mut bytes = [0; 32];
    bytes[0] = first;
    ActionSet { bytes }
}

/// Checks that the two states have the transitions (0, 1, 1), (1, 1, 1), (1, 2, 0) at the two places, and no other there.
fn check_mailbox<S: System>(rt: &impl Abort, system: &S, put: usize, take: usize) {
    assert_eq!(rt; system.step(0, put), Some((1, 1)));
    assert_eq!(rt; system.step(0, take), None);
    assert_eq!(rt; system.step(1, put), Some((1, 1)));
    assert_eq!(rt; system.step(1, take), Some((2, 0)));
    assert_eq!(rt; system.count(), 2);
    assert_eq!(rt; system.start(), 0);
}

#[test]
fn mailbox_of_one(rt: HostRuntime) {
    let mailbox = Mailbox {
        capacity: 1,
        put: 1,
        take: 2,
    };
    check_mailbox(&rt, &mailbox, 0, 1);
    assert_eq!(rt; mailbox.places(), 2);
}

#[test]
fn mailbox_beside_a_loop(rt: HostRuntime) {
    let rows = [LOOP];
    let left = Table {
        count: 1,
        start: 0,
        rows: &rows,
    };
    let right = Mailbox {
        capacity: 1,
        put: 1,
        take: 2,
    };
    let product = Kept::new(Product {
        left: &left,
        right,
        shared: set(2),
    });
    check_mailbox(&rt, &product, 3, 2);
    assert_eq!(rt; product.places(), 5);
    for state in 0..2 {
        assert_eq!(rt; product.step(state, 0), None);
        assert_eq!(rt; product.step(state, 1), None);
        assert_eq!(rt; product.step(state, 4), None);
    }
}

#[test]
fn hidden_action(rt: HostRuntime) {
    let rows = [
        LOOP,
        Row {
            source: 0,
            action: 2,
            target: 1,
        },
        Row {
            source: 1,
            action: 3,
            target: 2,
        },
    ];
    let table = Table {
        count: 3,
        start: 0,
        rows: &rows,
    };
    assert_eq!(rt; table.step(1, 2), Some((3, 2)));
    let hiding = Hiding {
        system: table,
        actions: set(8),
    };
    assert_eq!(rt; hiding.step(0, 1), Some((2, 1)));
    assert_eq!(rt; hiding.step(1, 2), Some((0, 2)));
}

/// What the check of the two side by side answers.
fn check_product<L: System + Drop, R: System + Drop>(left: L, right: R) -> Result<(), SystemFault> {
    Product {
        left,
        right,
        shared: set(0),
    }
    .check()
}

#[test]
fn product_faults(rt: HostRuntime) {
    let right = Mailbox {
        capacity: 255,
        put: 1,
        take: 2,
    };
    let left = Table {
        count: 256,
        start: 0,
        rows: &[],
    };
    assert_eq!(rt; check_product(left, right), Ok(()));
    let left = Table {
        count: 257,
        start: 0,
        rows: &[],
    };
    assert_eq!(rt; check_product(left, right), Err(SystemFault::TooLarge));
    let fewer = [LOOP; 1023];
    let rows = [LOOP; 1024];
    let left = Table {
        count: 1,
        start: 0,
        rows: &fewer,
    };
    let right = Table {
        count: 1,
        start: 0,
        rows: &rows,
    };
    assert_eq!(rt; check_product(left, left), Ok(()));
    assert_eq!(rt; check_product(left, right), Err(SystemFault::TooLarge));
}
