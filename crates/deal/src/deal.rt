//! A deal: the blocks of a division, handed out among lanes.
ghost use Rattle.std.specs.Prelude.{◌≡◌, ◌+◌, ◌<◌, ◌≤◌, ◌++◌, [], ℕ, false, length, replicate, vec_len, vec_capacity, IfOk};
ghost use Rattle.std.specs.List.{concat};
ghost use Rattle.deal.specs.Totals.{HasEachOnce, times, in_turn};
ghost use Rattle.deal.specs.Marks.{mark, IsAmong};
ghost use Rattle.deal.specs.Dealing.{AreHands};
ghost use Rattle.deal.specs.Lanes.{IsDealer, IsShared, game};
ghost use Rattle.deal.specs.Sharing.{AreLanesOf, SomeHasSeenAll, fresh_lanes, lists_of};
ghost use Rattle.deal.specs.Closing.{AreBackTo, IsMarked, Marks, items_of, unmarked};

use crate::count::{Share, Size};
use crate::division::Division;
use crate::hand::Hand;
use crate::hands::make_hands;
use crate::lane::Lane;
use crate::shared::Shared;
use atomic_table::Table;
use model::Memory;
use std::alloc::Global;
use std::marker::Model;
use std::sync::Arc;

/// The blocks of a closed deal.
#[derive(Drop)]
pub struct Closed {
    /// The numbers of the blocks that were returned to each lane, in order, for the lanes as they
    /// were handed back.
    pub lists: Vec<Vec<usize>>,
    /// The other blocks' numbers, rising.
    pub rest: Vec<usize>,
}

/// The blocks of a division, to be handed out among lanes. Contracts see which deal it is.
#[derive(Drop)]
pub struct Deal {
    shared: Arc<Shared>,
    dealer: Share,
    lists: Vec<Vec<usize>>,
    marks: Vec<bool>,
    rest: Vec<usize>,
}

impl Model for Deal {
    ghost use Rattle.deal.specs.Sharing.{Game};

    ghost Value = { Game };

    ghost use Rattle.deal.specs.Lanes.{game, IsDealer};
    ghost use Rattle.std.specs.Prelude.{◌≡◌, ◌≤◌, [], false, length, replicate, vec_capacity};

    ghost view = { λ d. game d.shared.value.count.shared.table_id d.shared.value.count.shared.key
        d.shared.value.division };

    ghost invariant = { λ d. (d.shared.value.count.shared.key.blocks ≡ length d.shared.value.division)
        × IsDealer d.shared.value.count.shared.key d.shared.value.count.shared.table_id 0 d.dealer
        × (d.lists.items ≡ []) × (d.shared.value.count.shared.key.lanes ≤ vec_capacity d.lists)
        × (d.marks.items ≡ replicate (length d.shared.value.division) false) × (d.rest.items ≡ [])
        × (length d.shared.value.division ≤ vec_capacity d.rest) };
}

impl Deal {
    /// Deals the blocks of a division among this many lanes, 1 to 64: block i to lane i modulo their
    /// number. Each lane has its blocks in rising order, or in falling order. All room is made here.
    pub fn new(
        alloc: Global,
        division: Division,
        workers: usize,
        rising: bool,
    ) -> Result<(Deal, Vec<Lane>), Memory>
        requires { (0 < workers) × (workers ≤ 64) }
        ensures deal { IfOk result (λ made. (made.0.lanes ≡ workers) × (made.0.lengths ≡ division) × (made.0.rising ≡ rising)) }
        ensures lanes { IfOk result (λ made. made.1.items ≡ fresh_lanes made.0) }
        ensures of { IfOk result (λ made. AreLanesOf made.0 made.1.items) }
        ensures many { IfOk result (λ made. vec_len made.1 ≡ workers) }
    {
        let blocks = division.count();
        let starts = division.starts(alloc)?;
        let size = Size {
            blocks: blocks as u64,
            lanes: workers as u64,
            rising,
        };
        let (count, mut dealer) = Table::of_words(alloc, &[0], &size)?;
        let hands = make_hands(alloc, &count, &mut dealer, blocks, workers, rising)?;
        let shared = Arc::new(
            alloc,
            Shared {
                count,
                division,
                starts,
            },
        )?;
        let lanes = lanes_of(alloc, &shared, &mut dealer, hands)?;
        let (lists, marks, rest) = make_room(alloc, workers, blocks)?;
        let deal = Deal {
            shared,
            dealer,
            lists,
            marks,
            rest,
        };
        Ok((deal, lanes))
    }

    /// The blocks that were returned to each lane, in order, and the others. Takes no memory.
    ///
    /// A lane may be missing; what was returned to it is then among the others. If all lanes are
    /// back, and one of them got `Empty`, there are no others.
    pub fn close(self, lanes: Vec<Lane>) -> Closed
        requires { AreLanesOf self lanes.items }
        ensures lists { items_of result.lists.items ≡ lists_of lanes.items }
        ensures once { HasEachOnce (length self.lengths) (concat (lists_of lanes.items) ++ result.rest.items) }
        ensures all { length lanes.items ≡ self.lanes → SomeHasSeenAll lanes.items → result.rest.items ≡ [] }
    {
        let Deal {
            shared: _shared,
            mut dealer,
            mut lists,
            mut marks,
            mut rest,
        } = self;
        take_back(&mut dealer, lanes, &mut lists);
        let marks: &mut [bool] = &mut marks;
        mark_all(&lists, marks);
        keep_unmarked(marks, &mut rest);
        Closed { lists, rest }
    }
}

// Room for the lists of this many lanes, and for the marks and the numbers of this many blocks; none is marked.
fn make_room(
    alloc: Global,
    workers: usize,
    blocks: usize,
) -> Result<(Vec<Vec<usize>>, Vec<bool>, Vec<usize>), Memory>
    ensures { IfOk result (λ room. (room.0.items ≡ []) × (workers ≤ vec_capacity room.0)
        × (room.1.items ≡ replicate blocks false) × (room.2.items ≡ [])
        × (blocks ≤ vec_capacity room.2)) }
{
    let lists = Vec::with_capacity(alloc, workers)?;
    let marks = vec![in alloc; false; blocks]?;
    let rest = Vec::with_capacity(alloc, blocks)?;
    Ok((lists, marks, rest))
}

// The lanes come back, and with each the list of its blocks. The deal's seat then has the blocks of
// all.
fn take_back(dealer: &mut Share, mut lanes: Vec<Lane>, lists: &mut Vec<Vec<usize>>)
    requires dealer { (dealer.old.me.0 ≡ mark dealer.old.me.0.all dealer.old.me.0.lanes 0 0 0 [])
        × (dealer.old.me.1 ≡ []) × (dealer.old.table_id.words ≡ 1) }
    requires lanes { AreBackTo dealer.old.table_id dealer.old.me.0 lanes.items }
    requires lists { (lists.old.items ≡ []) × (dealer.old.me.0.lanes ≤ vec_capacity lists.old) }
    ensures lists { items_of lists.new.items ≡ lists_of lanes.items }
    ensures among { IsAmong dealer.old.me.0.all (concat (lists_of lanes.items)) }
    ensures all { length lanes.items ≡ dealer.old.me.0.lanes → SomeHasSeenAll lanes.items
        → dealer.old.me.0.all ≤ length (concat (lists_of lanes.items)) }
{
    lanes.reverse();
    while let Some(lane) = lanes.pop() {
        let list = lane.hand_back(dealer);
        lists.push_reserved(list);
    }
}

// Marks the numbers of a list.
fn mark_list(list: &[usize], marks: &mut [bool])
    requires { (x : ℕ) → 0 < times x list.now → x < length marks.old }
    ensures { Marks list.now marks.old marks.new }
{
    for number in list {
        marks[*number] = true;
    }
}

// Marks the numbers of all lists.
fn mark_all(lists: &[Vec<usize>], marks: &mut [bool])
    requires { IsAmong (length marks.old) (concat (items_of lists.now))
        × (marks.old ≡ replicate (length marks.old) false) }
    ensures { (length marks.new ≡ length marks.old) × IsMarked (concat (items_of lists.now)) marks.new }
{
    for list in lists {
        mark_list(list, marks);
    }
}

// Keeps the numbers without a mark.
fn keep_unmarked(marks: &[bool], rest: &mut Vec<usize>)
    requires { (rest.old.items ≡ []) × (length marks.now ≤ vec_capacity rest.old) }
    ensures { rest.new.items ≡ unmarked (length marks.now) marks.now }
{
    for (number, is_marked) in marks.iter().enumerate() {
        if !*is_marked {
            rest.push_reserved(number);
        }
    }
}

// A lane of each hand, the last one first.
fn lanes_of(
    alloc: Global,
    shared: &Arc<Shared>,
    dealer: &mut Share,
    mut hands: Vec<Hand>,
) -> Result<Vec<Lane>, Memory>
    requires shared { IsShared shared.now.value.count.shared.key shared.now.value.division
        shared.now.value.starts.items }
    requires dealer { IsDealer shared.now.value.count.shared.key shared.now.value.count.shared.table_id
        shared.now.value.count.shared.key.lanes dealer.old }
    requires hands { (vec_len hands ≡ shared.now.value.count.shared.key.lanes)
        × AreHands shared.now.value.count.shared.table_id shared.now.value.count.shared.key.lanes
        (in_turn shared.now.value.count.shared.key.rising (length shared.now.value.division)) 4096 hands.items }
    ensures lanes { IfOk result (λ lanes. lanes.items ≡ fresh_lanes
        (game shared.now.value.count.shared.table_id shared.now.value.count.shared.key
        shared.now.value.division)) }
    ensures dealer { IfOk result
        (λ _. IsDealer shared.now.value.count.shared.key shared.now.value.count.shared.table_id
        0 dealer.new) }
{
    let mut lanes = Vec::with_capacity(alloc, hands.len())?;
    while let Some(hand) = hands.pop() {
        let own = Arc::try_clone(shared)?;
        let lane = Lane::new(alloc, own, dealer, hand)?;
        lanes.insert(0, lane)?;
    }
    Ok(lanes)
}
