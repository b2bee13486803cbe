//! The word that counts the blocks handed out, and the tickets of its table, each of which
//! represents a block.
ghost use Rattle.std.specs.Prelude.{◌≡◌, ◌+◌, ◌<◌, ◌≤◌, ◌^◌, ◌∷◌, [], ◌++◌, length};
ghost use Rattle.deal.specs.Marks.{mark, both_marks, IsShareOf, IsTicketOf, IsAmong};

use atomic_table::{Badge, Join, Play, Seat, Split, Table, TableRule};
use std::alloc::Global;
use std::collections::LinkedList;

/// What the table is given once: how many blocks there are, and how many lanes, and whether the blocks are dealt in rising order or in
/// falling order.
#[derive(Clone, Copy)]
pub struct Size {
    pub blocks: u64,
    pub lanes: u64,
    pub rising: bool,
}

// What a seat knows: the number of blocks and of lanes, how many lanes it represents, how many
// blocks it counted, the most it has
// seen of the count, and the blocks whose tickets it has. No value of it is made.
pub struct Mark {
    pub all: u64,
    pub lanes: u64,
    pub parts: u64,
    pub counted: u64,
    pub seen: u64,
    pub blocks: LinkedList<u64>,
}

/// A block, and the right to be its only owner.
#[derive(Drop)]
pub struct Ticket {
    pub number: usize,
    pub badge: Badge<Mark>,
}

pub struct Counted;

impl TableRule<(), Mark, Size> for Counted {
    ghost use Rattle.deal.specs.Marks.{IsCounted, first_mark};

    ghost holds = { IsCounted };

    ghost first = { first_mark };
}

pub struct Counts;

impl Play<(), Mark> for Counts {
    ghost use Rattle.deal.specs.Marks.{Counting};

    ghost then = { Counting };
}

pub struct Looks;

impl Play<(), Mark> for Looks {
    ghost use Rattle.deal.specs.Marks.{Looking};

    ghost then = { Looking };
}

// The first block of a seat gets a ticket.
pub struct Deals;

impl Split<Mark> for Deals {
    ghost use Rattle.deal.specs.Marks.{without_first, ticket_mark};

    ghost left = { without_first };

    ghost right = { ticket_mark };
}

// A lane's seat is cut off.
pub struct Cut;

impl Split<Mark> for Cut {
    ghost use Rattle.deal.specs.Marks.{less_a_lane, lane_mark};

    ghost left = { less_a_lane };

    ghost right = { lane_mark };
}

// Two seats are made one.
pub struct Both;

impl Join<Mark> for Both {
    ghost use Rattle.deal.specs.Marks.{both_marks, no_mark};

    ghost both = { both_marks };

    ghost spent = { no_mark };
}

pub type Count = Table<(), Mark, Size, Counted, Global>;

pub type Share = Seat<(), Mark>;

/// A block that a lane takes joins its seat, and is counted. Returns the count before.
pub fn hand_out(count: &Count, share: &mut Share, ticket: Ticket) -> u64
    requires share { IsShareOf count.now.shared.table_id share.old }
    requires ticket { IsTicketOf count.now.shared.table_id ticket }
    requires lane { (0 < share.old.me.0.parts) × (share.old.me.0.counted ≤ length share.old.me.0.blocks) }
    requires size { count.now.shared.key.blocks < 2 ^ 64 }
    ensures share { IsShareOf count.now.shared.table_id share.new }
    ensures counted { share.new.me.0 ≡ mark share.old.me.0.all share.old.me.0.lanes share.old.me.0.parts
        (share.old.me.0.counted + 1) (result + 1) (share.old.me.0.blocks ++ ticket.number ∷ []) }
    ensures seen { (share.old.me.0.seen ≤ result) × (result < share.old.me.0.all)
        × (share.old.me.0.counted ≤ result) }
    ensures among { IsAmong share.old.me.0.all (share.old.me.0.blocks ++ ticket.number ∷ []) }
{
    let Ticket { number: _, badge } = ticket;
    let seat: Share = badge.into_seat();
    count.shared.join_seat::<Both>(share, seat);
    count.shared.fetch_add::<Counts>(share, 0, 1)
}

/// The count. A seat that represents every lane has counted it whole.
pub fn look(count: &Count, share: &mut Share) -> u64
    requires { IsShareOf count.now.shared.table_id share.old × (0 < share.old.me.0.parts) }
    ensures share { IsShareOf count.now.shared.table_id share.new }
    ensures view { share.new.me.0
        ≡ mark share.old.me.0.all share.old.me.0.lanes share.old.me.0.parts
        share.old.me.0.counted result share.old.me.0.blocks }
    ensures seen { share.old.me.0.seen ≤ result }
    ensures whole { share.old.me.0.parts ≡ share.old.me.0.lanes → result ≡ share.old.me.0.counted }
    ensures among { IsAmong share.old.me.0.all share.old.me.0.blocks
        × (share.old.me.0.parts ≤ share.old.me.0.lanes) }
{
    count.shared.load::<Looks>(share, 0)
}

/// One seat represents the lanes of both, and has their blocks.
pub fn unite(count: &Count, share: &mut Share, other: Share)
    requires { IsShareOf count.now.shared.table_id share.old × IsShareOf count.now.shared.table_id other }
    ensures { IsShareOf count.now.shared.table_id share.new
        × (share.new.me.0 ≡ both_marks share.old.me.0 other.me.0) }
{
    count.shared.join_seat::<Both>(share, other);
}
