//! Typed numbers: which node, which list.
ghost use Rattle.std.specs.Prelude.{◌≡◌, ◌<◌, ◌↔◌, IsSome, IfSome};

/// The number of a node of a table, 0 to 4095.
#[derive(Clone, Copy, PartialEq, Eq)]
pub struct NodeId {
    pub number: u16,
    pub ghost known: { number < 4096 },
}

impl NodeId {
    /// The node of this number; `None` from 4096 on.
    pub fn new(number: u16) -> Option<Self>
        ensures known { IsSome result ↔ (number < 4096) }
        ensures value { IfSome result (λ node. node.number ≡ number) }
    {
        if number < 4096 {
            Some(NodeId { number })
        } else {
            None
        }
    }
}

/// The number of a list of a table, 0 to 4095.
#[derive(Clone, Copy, PartialEq, Eq)]
pub struct ListId {
    pub number: u16,
    pub ghost known: { number < 4096 },
}

impl ListId {
    /// The list of this number; `None` from 4096 on.
    pub fn new(number: u16) -> Option<Self>
        ensures known { IsSome result ↔ (number < 4096) }
        ensures value { IfSome result (λ list. list.number ≡ number) }
    {
        if number < 4096 {
            Some(ListId { number })
        } else {
            None
        }
    }
}
