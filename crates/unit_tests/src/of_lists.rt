//! Lists in use.
ghost use Rattle.std.specs.Prelude.{◌<◌};

use lists::{ListId, NodeId, Table};
use std::process::Abort;

const LIST: ListId = ListId { number: 0 };

/// Puts a node that is in no list into the list, in order of values.
fn put(rt: &impl Abort, table: &mut Table<2, 8, 10>, node: NodeId, value: u32)
    requires { node.number < 8 }
{
    assert!(rt; table.place(node).is_none(), "node {} is free", node.number);
    table.insert_sorted(LIST, node, value);
}

/// Puts a node that is in no list after all others of the list.
fn put_last(rt: &impl Abort, table: &mut Table<2, 8, 10>, node: NodeId)
    requires { node.number < 8 }
{
    assert!(rt; table.place(node).is_none(), "node {} is free", node.number);
    table.push_back(LIST, node, 0);
}

/// Compares the nodes of the list, from the first to the last.
fn has_nodes(rt: &impl Abort, table: &Table<2, 8, 10>, expected: &[u16]) {
    let mut found = table.first(LIST);
    for number in expected {
        assert!(rt; found == NodeId::new(*number), "of {expected:?}");
        found = after(table, found);
    }
    assert!(rt; found.is_none(), "no more than {expected:?}");
}

/// The node after this one in its list.
fn after(table: &Table<2, 8, 10>, node: Option<NodeId>) -> Option<NodeId> {
    let node = node?;
    if node.number < 8 {
        table.next(node)
    } else {
        None
    }
}

/// Moves the first node to the end, and compares the order of the nodes. The call returns the new first node, if there are at least
/// two nodes.
fn rotate(rt: &impl Abort, table: &mut Table<2, 8, 10>, expected: &[u16]) {
    let first = table.rotate(LIST);
    if expected.len() < 2 {
        assert!(rt; first.is_none(), "no turn of {expected:?}");
    } else {
        assert!(rt; first == table.first(LIST));
    }
    has_nodes(rt, table, expected);
}

#[test]
fn equals_stand_in_the_order_in_which_they_came(rt: HostRuntime) {
    let mut table: Table<2, 8, 10> = Table::new();
    put(&rt, &mut table, NodeId { number: 3 }, 20);
    put(&rt, &mut table, NodeId { number: 5 }, 10);
    put(&rt, &mut table, NodeId { number: 2 }, 20);
    put(&rt, &mut table, NodeId { number: 7 }, 15);
    table.remove(NodeId { number: 7 });
    has_nodes(&rt, &table, &[5, 3, 2]);
    assert!(rt; table.value(NodeId { number: 2 }) == 20);
    assert!(rt; table.place(NodeId { number: 7 }).is_none());
    assert!(rt; table.is_empty(ListId { number: 1 }));
}

#[test]
fn a_node_goes_last(rt: HostRuntime) {
    let mut table: Table<2, 8, 10> = Table::new();
    put(&rt, &mut table, NodeId { number: 1 }, 9);
    put_last(&rt, &mut table, NodeId { number: 4 });
    has_nodes(&rt, &table, &[1, 4]);
    assert!(rt; table.place(NodeId { number: 4 }) == Some(LIST));
}

#[test]
fn the_first_goes_last(rt: HostRuntime) {
    let mut table: Table<2, 8, 10> = Table::new();
    rotate(&rt, &mut table, &[]);
    put(&rt, &mut table, NodeId { number: 6 }, 10);
    rotate(&rt, &mut table, &[6]);
    put(&rt, &mut table, NodeId { number: 3 }, 20);
    put(&rt, &mut table, NodeId { number: 5 }, 30);
    rotate(&rt, &mut table, &[3, 5, 6]);
    assert!(rt; table.value(NodeId { number: 6 }) == 10);
}

#[test]
fn the_first_goes_out(rt: HostRuntime) {
    let mut table: Table<2, 8, 10> = Table::new();
    assert!(rt; table.is_clear() && table.pop_front(LIST).is_none());
    put(&rt, &mut table, NodeId { number: 6 }, 10);
    put(&rt, &mut table, NodeId { number: 3 }, 20);
    assert!(rt; !table.is_clear());
    assert!(rt; table.pop_front(LIST) == NodeId::new(6));
    has_nodes(&rt, &table, &[3]);
    assert!(rt; table.place(NodeId { number: 6 }).is_none());
    assert!(rt; table.pop_front(LIST) == NodeId::new(3));
    has_nodes(&rt, &table, &[]);
    assert!(rt; table.is_clear());
}

#[test]
fn the_first_of_a_list_is_told_from_the_others(rt: HostRuntime) {
    let mut table: Table<2, 8, 10> = Table::new();
    put(&rt, &mut table, NodeId { number: 3 }, 20);
    put(&rt, &mut table, NodeId { number: 5 }, 10);
    assert!(rt; table.is_first(LIST, NodeId { number: 5 }));
    assert!(rt; !table.is_first(LIST, NodeId { number: 3 }));
    table.remove(NodeId { number: 5 });
    assert!(rt; table.is_first(LIST, NodeId { number: 3 }));
    assert!(rt; !table.is_first(LIST, NodeId { number: 5 }));
}

#[test]
fn what_a_removed_node_has_kept_makes_no_difference(rt: HostRuntime) {
    let mut table: Table<2, 8, 10> = Table::new();
    put(&rt, &mut table, NodeId { number: 3 }, 20);
    put(&rt, &mut table, NodeId { number: 5 }, 10);
    let mut other: Table<2, 8, 10> = Table::new();
    put(&rt, &mut other, NodeId { number: 5 }, 10);
    put(&rt, &mut other, NodeId { number: 7 }, 15);
    put(&rt, &mut other, NodeId { number: 3 }, 20);
    assert!(rt; !table.is_same(&other) && !other.is_same(&table));
    other.remove(NodeId { number: 7 });
    assert!(rt; table.is_same(&other) && other.is_same(&table));
    other.remove(NodeId { number: 3 });
    put(&rt, &mut other, NodeId { number: 3 }, 21);
    assert!(rt; !table.is_same(&other));
}
