//! Dealing, before any lane is handed out.
ghost use Rattle.std.specs.Prelude.{◌≡◌, ℕ, List, ◌+◌, ◌*◌, ◌<◌, ◌≤◌, ◌++◌, ◌∷◌, [], vec_len, IfOk};
ghost use Rattle.crossbeam_deque.specs.Handles.{SameWorker, worker_view};
ghost use Rattle.atomic_table.specs.Seated.{TableId};
ghost use Rattle.deal.specs.Totals.{in_turn};
ghost use Rattle.deal.specs.Logs.{log};
ghost use Rattle.deal.specs.Marks.{mark, IsShareOf, others_of, without_first};
ghost use Rattle.deal.specs.Logs.{HasTicketsOf};
ghost use Rattle.deal.specs.Dealing.{AreDealt, AreHands, HasHands, KeepsHands, number_at};

use crate::count::{Count, Deals, Share, Ticket};
use crate::dealt::{Own, Puts};
use crate::hand::Hand;
use crate::reach::way_to;
use crossbeam_deque::Worker;
use model::Memory;
use std::alloc::Global;

// An empty deque for each lane, with room for its blocks.
fn empty_hands(alloc: Global, workers: usize, room: usize) -> Result<Vec<Hand>, Memory>
    ensures { IfOk result (λ hands. (vec_len hands ≡ workers)
        × ((z : TableId) (n : List ℕ) → AreDealt z workers n n hands.items)) }
{
    let mut hands = Vec::with_capacity(alloc, workers)?;
    for _ in 0..workers {
        hands.push(Hand {
            own: Worker::fifo_as(alloc, room)?,
            others: Vec::with_capacity(alloc, workers)?,
        })?;
    }
    Ok(hands)
}

// Deals the first block of the dealer's seat.
fn deal_one(count: &Count, dealer: &mut Share, own: &mut Own, number: usize) -> Result<(), Memory>
    requires dealer { IsShareOf count.now.shared.table_id dealer.old × (dealer.old.me.0.counted ≡ 0)
        × (dealer.old.me.0.blocks ≡ number ∷ others_of dealer.old.me.0.blocks) }
    requires own { ((worker_view own.old).parts ≡ 8192)
        × HasTicketsOf count.now.shared.table_id (worker_view own.old) }
    ensures dealer { IfOk result (λ _. IsShareOf count.now.shared.table_id dealer.new
        × (dealer.new.me.0 ≡ without_first dealer.old.me.0)) }
    ensures own { IfOk result (λ _. SameWorker own.old own.new
        × (worker_view own.new ≡ log 8192 ((worker_view own.old).dealt ++ number ∷ [])
        (worker_view own.old).got count.now.shared.table_id)) }
{
    let badge = count.shared.split_seat::<Deals>(dealer).into_badge();
    match own.push_as::<Puts>(Ticket { number, badge }) {
        Ok(()) => Ok(()),
        Err(_) => Err(Memory),
    }
}

// The block that is dealt at this turn.
fn number_at(rising: bool, blocks: usize, turn: usize) -> usize
    requires { turn < blocks }
    ensures { result ≡ number_at rising blocks turn }
{
    if rising { turn } else { blocks - 1 - turn }
}

// Deals every block, each to the lane of its number modulo theirs, in rising order or in falling order.
fn deal_all(
    count: &Count,
    dealer: &mut Share,
    hands: &mut Vec<Hand>,
    blocks: usize,
    rising: bool,
) -> Result<(), Memory>
    requires dealer { IsShareOf count.now.shared.table_id dealer.old
        × (dealer.old.me.0 ≡ mark blocks dealer.old.me.0.lanes dealer.old.me.0.parts 0 0
        (in_turn rising blocks)) }
    requires hands { (0 < vec_len hands.old)
        × AreDealt count.now.shared.table_id (vec_len hands.old)
        (in_turn rising blocks) (in_turn rising blocks) hands.old.items }
    ensures dealer { IfOk result (λ _. IsShareOf count.now.shared.table_id dealer.new
        × (dealer.new.me.0 ≡ mark blocks dealer.old.me.0.lanes dealer.old.me.0.parts 0 0 [])) }
    ensures hands { IfOk result (λ _. (vec_len hands.new ≡ vec_len hands.old)
        × AreDealt count.now.shared.table_id (vec_len hands.old)
        (in_turn rising blocks) [] hands.new.items) }
{
    let workers = hands.len();
    for turn in 0..blocks {
        let number = number_at(rising, blocks, turn);
        let hand = &mut hands[number % workers];
        deal_one(count, dealer, &mut hand.own, number)?;
    }
    Ok(())
}

// A lane gets a way to each other's deque, upwards from its own number and round.
fn give_others(hands: &mut Vec<Hand>, lane: usize) -> Result<(), Memory>
    requires lane { (lane < vec_len hands.old) × (vec_len hands.old ≤ 64) }
    requires hands { HasHands (vec_len hands.old) (64 * lane) hands.old.items }
    ensures { IfOk result (λ _. (vec_len hands.new ≡ vec_len hands.old)
        × KeepsHands (vec_len hands.old) (64 * lane)
        (64 * lane + 64) hands.old.items hands.new.items) }
{
    let workers = hands.len();
    for step in 1..workers {
        let hand = &mut hands[(lane + step) % workers];
        let other = way_to(&mut hand.own)?;
        let hand = &mut hands[lane];
        hand.others.push(other)?;
    }
    Ok(())
}

// Each lane gets a way to each other's deque.
fn give_all_others(hands: &mut Vec<Hand>) -> Result<(), Memory>
    requires { (vec_len hands.old ≤ 64) × HasHands (vec_len hands.old) 0 hands.old.items }
    ensures { IfOk result (λ _. (vec_len hands.new ≡ vec_len hands.old)
        × KeepsHands (vec_len hands.old) 0 4096 hands.old.items hands.new.items) }
{
    for lane in 0..hands.len() {
        give_others(hands, lane)?;
    }
    Ok(())
}

/// Deals the blocks of the dealer's seat, lane by lane in turn, in rising order or in falling order.
pub fn make_hands(
    alloc: Global,
    count: &Count,
    dealer: &mut Share,
    blocks: usize,
    workers: usize,
    rising: bool,
) -> Result<Vec<Hand>, Memory>
    requires workers { (0 < workers) × (workers ≤ 64) }
    requires dealer { IsShareOf count.now.shared.table_id dealer.old
        × (dealer.old.me.0 ≡ mark blocks dealer.old.me.0.lanes dealer.old.me.0.parts 0 0
        (in_turn rising blocks)) }
    ensures dealer { IfOk result (λ _. IsShareOf count.now.shared.table_id dealer.new
        × (dealer.new.me.0 ≡ mark blocks dealer.old.me.0.lanes dealer.old.me.0.parts 0 0 [])) }
    ensures hands { IfOk result (λ hands. (vec_len hands ≡ workers)
        × AreHands count.now.shared.table_id workers (in_turn rising blocks) 4096 hands.items) }
{
    let room = blocks.div_ceil(workers);
    let mut hands = empty_hands(alloc, workers, room)?;
    deal_all(count, dealer, &mut hands, blocks, rising)?;
    give_all_others(&mut hands)?;
    Ok(hands)
}
