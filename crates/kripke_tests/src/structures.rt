//! Next and until on structures that can be read off by hand.
use columns::quantifier::Quantifier;
use columns::quantifier::Quantifier::{Always, Exists};
use faults::system::SystemFault;
use kripke::edge::Edge;
use kripke::next::next;
use kripke::structure::Structure;
use kripke::table::EdgeTable;
use kripke::until::until;

/// What a call answers, and the buffer after it.
type Labelled<const B: usize> = (Result<usize, SystemFault>, [u8; B]);

fn edge(source: usize, target: usize) -> Edge {
    Edge { source, target }
}

/// A call on a buffer.
fn labelled<const B: usize, F: FnOnce(&mut [u8]) -> Result<usize, SystemFault>>(
    buffer: [u8; B],
    call: F,
) -> Labelled<B>
    requires { F.IsAlwaysCallable call }
{
    let mut after = buffer;
    let rounds = call(&mut after);
    (rounds, after)
}

// The tests make the same calls on structures that differ: each is one to be read off by hand.

#[test]
fn stuck_node(rt: HostRuntime) {
    let table = EdgeTable {
        labels: &[0],
        edges: &[],
    };
    assert_eq!(rt;
        labelled([1, 1, 7], |columns| next(&table, Exists, columns)),
        (Ok(0), [1, 1, 0])
    );
    assert_eq!(rt;
        labelled([1, 1, 7], |columns| next(&table, Always, columns)),
        (Ok(0), [1, 1, 0])
    );
    assert_eq!(rt;
        labelled([1, 0, 7], |columns| until(&table, Exists, columns)),
        (Ok(0), [1, 0, 0])
    );
    assert_eq!(rt;
        labelled([1, 0, 7], |columns| until(&table, Always, columns)),
        (Ok(0), [1, 0, 0])
    );
    assert_eq!(rt;
        labelled([0, 1, 7], |columns| until(&table, Exists, columns)),
        (Ok(1), [0, 1, 1])
    );
    assert_eq!(rt;
        labelled([0, 1, 7], |columns| until(&table, Always, columns)),
        (Ok(1), [0, 1, 1])
    );
}

#[test]
fn self_loop(rt: HostRuntime) {
    let edges = [edge(0, 0)];
    let table = EdgeTable {
        labels: &[0],
        edges: &edges,
    };
    assert_eq!(rt;
        labelled([0, 1, 7], |columns| next(&table, Exists, columns)),
        (Ok(0), [0, 1, 1])
    );
    assert_eq!(rt;
        labelled([0, 1, 7], |columns| next(&table, Always, columns)),
        (Ok(0), [0, 1, 1])
    );
    assert_eq!(rt;
        labelled([1, 2, 7], |columns| next(&table, Always, columns)),
        (Ok(0), [1, 2, 0])
    );
    assert_eq!(rt;
        labelled([1, 0, 1], |columns| until(&table, Exists, columns)),
        (Ok(0), [1, 0, 0])
    );
    assert_eq!(rt;
        labelled([1, 0, 1], |columns| until(&table, Always, columns)),
        (Ok(0), [1, 0, 0])
    );
}

#[test]
fn no_labels_at_all(rt: HostRuntime) {
    let edges = [edge(0, 0), edge(0, 1)];
    let table = EdgeTable {
        labels: &[],
        edges: &edges,
    };
    assert_eq!(rt; table.nodes(), 1);
    assert_eq!(rt; table.label(0), 0);
    assert_eq!(rt; table.target(0, 0), Some(0));
    assert_eq!(rt; table.target(0, 1), None);
    assert_eq!(rt;
        labelled([0, 1, 7], |columns| next(&table, Exists, columns)),
        (Ok(0), [0, 1, 1])
    );
    assert_eq!(rt;
        labelled([0, 1, 7], |columns| next(&table, Always, columns)),
        (Ok(0), [0, 1, 1])
    );
    assert_eq!(rt;
        labelled([1, 0, 7], |columns| until(&table, Exists, columns)),
        (Ok(0), [1, 0, 0])
    );
    assert_eq!(rt;
        labelled([0, 1, 7], |columns| until(&table, Always, columns)),
        (Ok(1), [0, 1, 1])
    );
}

#[test]
fn edge_beyond_the_labels(rt: HostRuntime) {
    let edges = [edge(0, 2), edge(2, 0), edge(0, 1)];
    let table = EdgeTable {
        labels: &[0, 7],
        edges: &edges,
    };
    assert_eq!(rt; table.nodes(), 2);
    assert_eq!(rt; table.label(1), 7);
    assert_eq!(rt; table.target(0, 0), None);
    assert_eq!(rt; table.target(2, 1), None);
    assert_eq!(rt; table.target(0, 2), Some(1));
    let buffer = [1, 0, 0, 1, 7, 7];
    let ahead = [1, 0, 0, 1, 1, 0];
    assert_eq!(rt;
        labelled(buffer, |columns| next(&table, Exists, columns)),
        (Ok(0), ahead)
    );
    assert_eq!(rt;
        labelled(buffer, |columns| next(&table, Always, columns)),
        (Ok(0), ahead)
    );
    let both = [1, 0, 0, 1, 1, 1];
    assert_eq!(rt;
        labelled(buffer, |columns| until(&table, Exists, columns)),
        (Ok(2), both)
    );
    assert_eq!(rt;
        labelled(buffer, |columns| until(&table, Always, columns)),
        (Ok(2), both)
    );
}

#[test]
fn duplicate_edges(rt: HostRuntime) {
    let edges = [edge(0, 1), edge(0, 1)];
    let table = EdgeTable {
        labels: &[0, 0],
        edges: &edges,
    };
    let buffer = [1, 0, 0, 1, 7, 7];
    let ahead = [1, 0, 0, 1, 1, 0];
    assert_eq!(rt;
        labelled(buffer, |columns| next(&table, Exists, columns)),
        (Ok(0), ahead)
    );
    assert_eq!(rt;
        labelled(buffer, |columns| next(&table, Always, columns)),
        (Ok(0), ahead)
    );
    let both = [1, 0, 0, 1, 1, 1];
    assert_eq!(rt;
        labelled(buffer, |columns| until(&table, Exists, columns)),
        (Ok(2), both)
    );
    assert_eq!(rt;
        labelled(buffer, |columns| until(&table, Always, columns)),
        (Ok(2), both)
    );
}

#[test]
fn a_way_out_and_a_loop(rt: HostRuntime) {
    let edges = [edge(0, 1), edge(0, 0)];
    let table = EdgeTable {
        labels: &[0, 0],
        edges: &edges,
    };
    let buffer = [1, 0, 0, 1, 7, 7];
    let some = (Ok(2), [1, 0, 0, 1, 1, 1]);
    assert_eq!(rt;
        labelled(buffer, |columns| until(&table, Exists, columns)),
        some
    );
    let all = (Ok(1), [1, 0, 0, 1, 0, 1]);
    assert_eq!(rt;
        labelled(buffer, |columns| until(&table, Always, columns)),
        all
    );
}

#[test]
fn one_node_a_round(rt: HostRuntime) {
    let edges = [edge(2, 1), edge(1, 0)];
    let table = EdgeTable {
        labels: &[0; 3],
        edges: &edges,
    };
    let buffer = [1, 1, 1, 1, 0, 0, 7, 7, 7, 9];
    let after = [1, 1, 1, 1, 0, 0, 1, 1, 1, 9];
    assert_eq!(rt;
        labelled(buffer, |columns| until(&table, Exists, columns)),
        (Ok(3), after)
    );
    assert_eq!(rt;
        labelled(buffer, |columns| until(&table, Always, columns)),
        (Ok(3), after)
    );
}

#[test]
fn no_room(rt: HostRuntime) {
    let table = EdgeTable {
        labels: &[0, 0],
        edges: &[],
    };
    let short = (Err(SystemFault::Buffer), [1, 1, 1, 1, 7]);
    assert_eq!(rt;
        labelled([1, 1, 1, 1, 7], |columns| next(&table, Exists, columns)),
        short
    );
    assert_eq!(rt;
        labelled([1, 1, 1, 1, 7], |columns| until(&table, Exists, columns)),
        short
    );
}
