//! The table: its lists, and their links.
ghost use Rattle.std.specs.Prelude.{◌≡◌, ◌≢◌, Some, ℕ, ◌+◌, ◌<◌, ◌≤◌, ◌↔◌, List, [], ◌∷◌, ◌++◌, drop, get_or, length, replicate, slice_set, map, option_map, true, IsTrue, IsNone};
ghost use Rattle.std.specs.Option.{ForSome};
ghost use Rattle.lists.specs.Links.{lists_of, links_of, ends_of, node_at, AreFree, IsRingTable, SplitsBefore, upper};
ghost use Rattle.lists.specs.Lists.{entries_of, first_of, has_node, insert_sorted, next_of, place_of, rotated, second_of, value_of, without, IsSorted, IsSound};

use crate::ids::{ListId, NodeId};
use crate::link::{Link, are_none};
use crate::words::{are_same, are_same_values};
use std::marker::Model;

/// The links of all lists, and the list and the value of each node. A table is copied as one run of bytes.
#[derive(Clone, Copy)]
struct Rings<const N: usize, const M: usize> {
    next: [u16; M],
    prev: [u16; M],
    place: [Link; N],
    values: [u32; N],
}

/// `L` lists over `N` nodes; both are 4096 at most. A node is in one list at most, and there once. In every call the list is
/// one below `L`, and the node one below `N`.
///
/// These are the lists of FreeRTOS's kernel, whose `vListInsert` also puts an entry after those of the same value. That the
/// nodes are in one table of a fixed size is profile.
///
/// Each list is a ring, which its end closes: there the link forth is to the first node, and the link back to the last, as at
/// `xListEnd`. So no node is a special case. A link is the number of a node, or `N` more than that of the list whose end it
/// leads to, and `M`, which is `N + L`, counts the links of a direction.
#[derive(Drop)]
pub struct Table<const L: usize, const N: usize, const M: usize> {
    rings: Rings<N, M>,
}

// Clauses see for each list its entries in order, each a node and its value.
impl<const L: usize, const N: usize, const M: usize> Model for Table<L, N, M> {
    ghost Value = { List (List (ℕ × ℕ)) };

    ghost view = { λ t. lists_of N (links_of N t.rings.next) t.rings.values (ends_of N t.rings.next) };

    ghost invariant = { λ t. IsRingTable L N M t.rings.next t.rings.prev t.rings.place t.rings.values };
}

/// Links that each lead to themselves, as a list's end does if the list is empty.
fn closed<const M: usize>() -> [u16; M]
    requires { M ≤ 8192 }
    ensures length { length result ≡ M }
    ensures closed { (at : ℕ) → at < M → get_or result at 0 ≡ at }
{
    let mut links = [0; M];
    for at in 0..M {
        links[at] = at as u16;
    }
    links
}

/// The node at a link of a table of `N` nodes; `None` at the end of a list.
#[inline(always)]
fn node_at<const N: usize>(link: u16) -> Option<NodeId>
    requires { N ≤ 4096 }
    ensures { option_map (λ node. node.number) result ≡ node_at N link }
{
    if (link as usize) < N {
        Some(NodeId { number: link })
    } else {
        None
    }
}

/// The list that a node's place names.
fn list_of(place: Link) -> Option<ListId>
    requires { ForSome place (λ list. list < 4096) }
    ensures list { option_map (λ list. list.number) result ≡ place }
{
    match place.number() {
        None => None,
        Some(number) => Some(ListId { number }),
    }
}

/// Whether there are four nodes from this one on, none of them in a list.
#[inline(always)]
fn are_free<const N: usize>(place: &[Link; N], node: usize) -> bool
    requires node { node < N }
    requires nodes { N ≤ 4096 }
    ensures free { result ≡ true → AreFree place.now node N }
{
    N - node >= 4
        && are_none(
            place[node],
            place[node + 1],
            place[node + 2],
            place[node + 3],
        )
}

impl<const L: usize, const N: usize, const M: usize> Table<L, N, M> {
    /// `L` empty lists over `N` nodes, which are in no list. Each of the two counts is 4096 at most, and `M` is their sum.
    pub fn new() -> Self
        requires lists { L ≤ 4096 }
        requires nodes { N ≤ 4096 }
        requires links { M ≡ N + L }
        ensures empty { result ≡ replicate L [] }
        ensures sound { IsSound L N result }
    {
        let links = closed();
        Table {
            rings: Rings {
                next: links,
                prev: links,
                place: [Link::none(); N],
                values: [0; N],
            },
        }
    }

    /// The end of a list, which is before its first node and after its last.
    #[inline(always)]
    fn end(&self, list: ListId) -> usize
        requires { list.number < L }
        ensures { result ≡ N + list.number }
    {
        N + list.number as usize
    }

    /// A copy. It takes no memory.
    #[inline(always)]
    pub fn copy(&self) -> Self
        ensures { result ≡ self.now }
    {
        Table { rings: self.rings }
    }

    /// Becomes a copy of the other, in place. It takes no memory.
    pub fn set_from(&mut self, other: &Self)
        ensures { self.new ≡ other.now }
    {
        self.rings = other.rings;
    }

    /// Whether the lists of the other table have the same entries in the same order. A node that is in no list keeps nothing of an
    /// earlier one (`forget`), so the numbers are the same then.
    pub fn is_same(&self, other: &Self) -> bool
        ensures { result ≡ true → self.now ≡ other.now }
    {
        are_same(&self.rings.next, &other.rings.next)
            && are_same_values(&self.rings.values, &other.rings.values)
    }

    /// The first node of a list below `L`; `None` if the list is empty.
    pub fn first(&self, list: ListId) -> Option<NodeId>
        requires { list.number < L }
        ensures first { option_map (λ node. node.number) result
            ≡ first_of (entries_of self.now list.number) }
        ensures sound { IsSound L N self.now }
    {
        node_at::<N>(self.rings.next[self.end(list)])
    }

    /// Whether a node below `N` is the first of a list below `L`.
    pub fn is_first(&self, list: ListId, node: NodeId) -> bool
        requires list { list.number < L }
        requires node { node.number < N }
        ensures first { IsTrue result
            ↔ (first_of (entries_of self.now list.number) ≡ Some node.number) }
        ensures sound { IsSound L N self.now }
    {
        self.rings.next[self.end(list)] == node.number
    }

    /// The first node of a list below `L` that isn't empty.
    pub fn front(&self, list: ListId) -> NodeId
        requires list { list.number < L }
        requires some { entries_of self.now list.number ≢ [] }
        ensures first { Some result.number ≡ first_of (entries_of self.now list.number) }
        ensures known { result.number < N }
        ensures sound { IsSound L N self.now }
    {
        NodeId {
            number: self.rings.next[self.end(list)],
        }
    }

    /// Whether a list below `L` has no node.
    pub fn is_empty(&self, list: ListId) -> bool
        requires { list.number < L }
        ensures empty { IsTrue result ↔ (entries_of self.now list.number ≡ []) }
    {
        self.first(list).is_none()
    }

    /// Whether no node is in a list. It may also return false for such a table if `N` is no multiple of 4.
    pub fn is_clear(&self) -> bool
        ensures { result ≡ true → (node : ℕ) → place_of self.now node ≡ None }
    {
        let mut node = 0;
        while node < N {
            if !are_free(&self.rings.place, node) {
                return false;
            }
            node += 4;
        }
        true
    }

    /// The list that a node below `N` is in; `None` if it is in no list.
    pub fn place(&self, node: NodeId) -> Option<ListId>
        requires { node.number < N }
        ensures place { option_map (λ list. list.number) result ≡ place_of self.now node.number }
        ensures sound { IsSound L N self.now }
    {
        list_of(self.rings.place[node.number as usize])
    }

    /// The value with which a node below `N` was put into its list, 0 to 4294967295. Of a node in no list, any number.
    pub fn value(&self, node: NodeId) -> u32
        requires { node.number < N }
        // Of a node in a list, it is the value there.
        ensures value { (list : ℕ) → IsTrue (has_node node.number (entries_of self.now list))
            → result ≡ value_of node.number (entries_of self.now list) }
        ensures sound { IsSound L N self.now }
    {
        self.rings.values[node.number as usize]
    }

    /// The node after this one, which is below `N`, in its list; `None` after the last, and for a node in no list.
    pub fn next(&self, node: NodeId) -> Option<NodeId>
        requires { node.number < N }
        // Of a node in a list, it is the one after it there.
        ensures next { (list : ℕ) → IsTrue (has_node node.number (entries_of self.now list))
            → option_map (λ node. node.number) result
            ≡ next_of node.number (entries_of self.now list) }
        ensures outside { place_of self.now node.number ≡ None → IsNone result }
        ensures known { ForSome (option_map (λ node. node.number) result) (λ node. node < N) }
        ensures sound { IsSound L N self.now }
    {
        if self.rings.place[node.number as usize].is_some() {
            self.next_in_list(node)
        } else {
            None
        }
    }

    /// As `next`, for a node below `N` that is in a list. Of a node in no list, any.
    // It doesn't check which list the node is in.
    pub fn next_in_list(&self, node: NodeId) -> Option<NodeId>
        requires { node.number < N }
        ensures next { (list : ℕ) → IsTrue (has_node node.number (entries_of self.now list))
            → option_map (λ node. node.number) result
            ≡ next_of node.number (entries_of self.now list) }
        ensures known { ForSome (option_map (λ node. node.number) result) (λ node. node < N) }
        ensures sound { IsSound L N self.now }
    {
        node_at::<N>(self.rings.next[node.number as usize])
    }

    /// Takes a node below `N` out of its list. One that is in no list stays so. The other entries keep their order.
    pub fn remove(&mut self, node: NodeId)
        requires { node.number < N }
        ensures removed { self.new ≡ map (without node.number) self.old }
        ensures sound { IsSound L N self.new }
    {
        if self.rings.place[node.number as usize].is_some() {
            let before = self.rings.prev[node.number as usize];
            let after = self.rings.next[node.number as usize];
            self.rings.next[before as usize] = after;
            self.rings.prev[after as usize] = before;
            self.rings.place[node.number as usize] = Link::none();
            self.forget(node);
        }
    }

    /// A node that is in no list keeps nothing of the one in which it was: its link leads to itself, and it has no value.
    #[inline(always)]
    fn forget(&mut self, node: NodeId)
        requires node { node.number < N }
        requires free { place_of self.old node.number ≡ None }
        ensures same { self.new ≡ self.old }
        ensures sound { IsSound L N self.new }
    {
        self.rings.next[node.number as usize] = node.number;
        self.rings.values[node.number as usize] = 0;
    }

    /// Takes the first node out of a list below `L`, and returns it; `None` if the list is empty. The other entries keep
    /// their order.
    // It reads no link back, so it waits for one link alone if another node was taken just before.
    pub fn pop_front(&mut self, list: ListId) -> Option<NodeId>
        requires { list.number < L }
        ensures first { option_map (λ node. node.number) result
            ≡ first_of (entries_of self.old list.number) }
        ensures rest { self.new ≡ slice_set self.old list.number
            (drop 1 (entries_of self.old list.number)) }
        ensures known { ForSome (option_map (λ node. node.number) result) (λ node. node < N) }
        ensures sound { IsSound L N self.new }
    {
        let end = self.end(list);
        let first = self.rings.next[end];
        if (first as usize) < N {
            let second = self.rings.next[first as usize];
            self.rings.next[end] = second;
            self.rings.prev[second as usize] = end as u16;
            self.rings.place[first as usize] = Link::none();
            let node = NodeId { number: first };
            self.forget(node);
            return Some(node);
        }
        None
    }

    /// Puts the first node of a list below `L` last, with the value that it has. Returns the second node, which is the
    /// first from then on; `None` if there is no second, and the list stays as it is.
    pub fn rotate(&mut self, list: ListId) -> Option<NodeId>
        requires { list.number < L }
        ensures rotated { self.new ≡ slice_set self.old list.number
            (rotated (entries_of self.old list.number)) }
        ensures second { option_map (λ node. node.number) result
            ≡ second_of (entries_of self.old list.number) }
        ensures known { ForSome (option_map (λ node. node.number) result) (λ node. node < N) }
        ensures sound { IsSound L N self.new }
    {
        let end = self.end(list);
        let first = self.rings.next[end];
        if (first as usize) < N {
            let second = self.rings.next[first as usize];
            if (second as usize) < N {
                self.rings.next[end] = second;
                self.rings.prev[second as usize] = end as u16;
                let last = self.rings.prev[end];
                self.rings.next[first as usize] = end as u16;
                self.rings.prev[first as usize] = last;
                self.rings.next[last as usize] = first;
                self.rings.prev[end] = first;
                return Some(NodeId { number: second });
            }
        }
        None
    }

    /// Puts a node below `N`, which is in no list (see `place`), last into a list below `L`, with a value of 0 to
    /// 4294967295.
    pub fn push_back(&mut self, list: ListId, node: NodeId, value: u32)
        requires list { list.number < L }
        requires node { node.number < N }
        requires free { place_of self.old node.number ≡ None }
        ensures put { self.new ≡ slice_set self.old list.number
            (entries_of self.old list.number ++ (node.number, value) ∷ []) }
        ensures sound { IsSound L N self.new }
    {
        self.put_before(list, self.end(list), node, value);
    }

    /// Puts a node below `N`, which is in no list (see `place`), into a list below `L`, with a value of 0 to
    /// 4294967295: before the first one of a greater value, or last if there is none.
    pub fn insert_sorted(&mut self, list: ListId, node: NodeId, value: u32)
        requires list { list.number < L }
        requires node { node.number < N }
        requires free { place_of self.old node.number ≡ None }
        ensures put { self.new ≡ slice_set self.old list.number
            (insert_sorted (node.number, value) (entries_of self.old list.number)) }
        ensures sound { IsSound L N self.new }
    {
        let after = self.first_greater(list, value);
        self.put_before(list, after, node, value);
    }

    /// As `insert_sorted`, into a list in which no value is smaller than one before it. It walks from the last node, so it
    /// takes constant time if no value is greater.
    ///
    /// FreeRTOS's `vListInsert` walks from the first. That this one doesn't is profile: it finds the same place.
    pub fn insert_sorted_from_back(&mut self, list: ListId, node: NodeId, value: u32)
        requires list { list.number < L }
        requires node { node.number < N }
        requires free { place_of self.old node.number ≡ None }
        requires sorted { IsSorted (entries_of self.old list.number) }
        ensures put { self.new ≡ slice_set self.old list.number
            (insert_sorted (node.number, value) (entries_of self.old list.number)) }
        ensures sound { IsSound L N self.new }
    {
        let after = self.first_greater_from_back(list, value);
        self.put_before(list, after, node, value);
    }

    /// Puts a node into a list before another, or last: `after` is the other, or the end of the list.
    #[inline(always)]
    fn put_before(&mut self, list: ListId, after: usize, node: NodeId, value: u32)
        requires list { list.number < L }
        requires node { node.number < N }
        requires free { place_of self.old node.number ≡ None }
        requires split { SplitsBefore (entries_of self.old list.number) (node_at N after) }
        requires end { N ≤ after → after ≡ N + list.number }
        // Wherever `after` splits the list, the node is in between.
        ensures put { (before rest : List (ℕ × ℕ))
            → entries_of self.old list.number ≡ before ++ rest → node_at N after ≡ first_of rest
            → self.new
            ≡ slice_set self.old list.number (before ++ (node.number, value) ∷ rest) }
        ensures sound { IsSound L N self.new }
    {
        let before = self.rings.prev[after];
        self.rings.next[node.number as usize] = after as u16;
        self.rings.prev[node.number as usize] = before;
        self.rings.place[node.number as usize] = Link::to(list.number);
        self.rings.values[node.number as usize] = value;
        self.rings.next[before as usize] = node.number;
        self.rings.prev[after] = node.number;
    }

    /// The first node of a list whose value is greater, or the end of the list.
    fn first_greater(&self, list: ListId, value: u32) -> usize
        requires { list.number < L }
        ensures found { node_at N result ≡ first_of (upper value (entries_of self.now list.number)) }
        ensures end { N ≤ result → result ≡ N + list.number }
    {
        let end = self.end(list);
        let mut at = self.rings.next[end] as usize;
        while at < N {
            if value < self.rings.values[at] {
                return at;
            }
            at = self.rings.next[at] as usize;
        }
        end
    }

    /// The same of a list in which no value is smaller than one before it, found from its last node.
    fn first_greater_from_back(&self, list: ListId, value: u32) -> usize
        requires list { list.number < L }
        requires sorted { IsSorted (entries_of self.now list.number) }
        ensures found { node_at N result ≡ first_of (upper value (entries_of self.now list.number)) }
        ensures end { N ≤ result → result ≡ N + list.number }
    {
        let mut after = self.end(list);
        let mut at = self.rings.prev[after] as usize;
        while at < N {
            if self.rings.values[at] <= value {
                return after;
            }
            after = at;
            at = self.rings.prev[at] as usize;
        }
        after
    }
}
