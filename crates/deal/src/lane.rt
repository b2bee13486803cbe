//! A lane, which takes blocks from its own deque, and then from the others'.
ghost use Rattle.std.specs.Prelude.{◌≡◌, ◌<◌, ◌-◌, IfOk, MatchOption, [], ◌∷◌, length};
ghost use Rattle.crossbeam_deque.specs.Handles.{SameWorker, worker_flavor, worker_view};
ghost use Rattle.deal.specs.Logs.{Taking, IsAllTaken};
ghost use Rattle.deal.specs.Lanes.{MayTake, Took, Collects, IsDealer, IsSomeHand, IsShared, game, opened};
ghost use Rattle.deal.specs.Marks.{IsShareOf};
ghost use Rattle.deal.specs.Sharing.{Goes, MatchNext};

use crate::count::{Count, Cut, Share, Ticket, hand_out, look, unite};
use crate::dealt::{Own, Takes};
use crate::hand::Hand;
use crate::next::Next;
use crate::reach::{Reach, steal_any};
use crate::shared::Shared;
use model::Memory;
use std::alloc::Global;
use std::marker::Model;
use std::sync::Arc;

// Takes the first block of a lane's own deque.
fn pop(own: &mut Own) -> Option<Ticket>
    requires { (worker_flavor own.old ≡ 0) × (0 < (worker_view own.old).parts) }
    ensures same { SameWorker own.old own.new }
    ensures taken { MatchOption result ((worker_view own.new ≡ worker_view own.old) × IsAllTaken
        (worker_view own.old)) (λ t. Taking (worker_view own.old) (t ∷ [])
        (worker_view own.new)) }
{
    own.pop_as::<Takes>()
}

// Takes the first block of a lane's own deque, or of another. The count names the tickets' table.
fn take(own: &mut Own, others: &mut Vec<Reach>, count: &Count) -> Option<Ticket>
    requires { (worker_flavor own.old ≡ 0)
        × MayTake count.now.shared.table_id (worker_view own.old) others.old.items }
    ensures same { SameWorker own.old own.new }
    ensures taken { MatchOption result ((worker_view own.new ≡ worker_view own.old) × (others.new.items
        ≡ others.old.items) × IsAllTaken (worker_view own.old))
        (Took count.now.shared.table_id (worker_view own.old) others.old.items
        (worker_view own.new) others.new.items) }
{
    match pop(own) {
        Some(ticket) => Some(ticket),
        None => steal_any(others),
    }
}

/// One of the lanes of a deal, for one thread. Contracts see what it has seen.
#[derive(Drop)]
pub struct Lane {
    shared: Arc<Shared>,
    share: Share,
    own: Own,
    others: Vec<Reach>,
    got: Vec<usize>,
}

impl Model for Lane {
    ghost use Rattle.deal.specs.Sharing.{Sight};

    ghost Value = { Sight };

    ghost use Rattle.deal.specs.Divisions.{AreStarts};
    ghost use Rattle.deal.specs.Lanes.{game, sight, IsLane};
    ghost use Rattle.crossbeam_deque.specs.Handles.{worker_view, worker_flavor};
    ghost use Rattle.std.specs.Prelude.{◌≡◌, ◌≤◌, vec_capacity, length};

    ghost view = { λ s. sight
        (game s.shared.value.count.shared.table_id s.shared.value.count.shared.key
        s.shared.value.division) s.share.me.0 (worker_view s.own) s.got.items };

    ghost invariant = { λ s. (worker_flavor s.own ≡ 0) × (length s.shared.value.division ≤ vec_capacity s.got)
        × AreStarts s.shared.value.division s.shared.value.starts.items
        × IsLane s.shared.value.count.shared.key s.shared.value.division s.share
        (worker_view s.own) s.others.items s.got.items s.shared.value.count.shared.table_id };
}

impl Lane {
    // The lane of a hand.
    pub(crate) fn new(
        alloc: Global,
        shared: Arc<Shared>,
        dealer: &mut Share,
        hand: Hand,
    ) -> Result<Lane, Memory>
        requires shared { IsShared shared.value.count.shared.key shared.value.division shared.value.starts.items }
        requires dealer { IsDealer shared.value.count.shared.key shared.value.count.shared.table_id
            dealer.old.me.0.parts dealer.old × (0 < dealer.old.me.0.parts) }
        requires hand { IsSomeHand shared.value.count.shared.table_id shared.value.count.shared.key
            shared.value.division hand }
        ensures lane { IfOk result (λ lane. lane ≡ opened
            (game shared.value.count.shared.table_id shared.value.count.shared.key
            shared.value.division) (worker_view hand.own).dealt) }
        ensures dealer { IfOk result
            (λ _. IsDealer shared.value.count.shared.key shared.value.count.shared.table_id
            (dealer.old.me.0.parts - 1) dealer.new) }
    {
        let got = Vec::with_capacity(alloc, shared.division.count())?;
        let share = shared.count.shared.split_seat::<Cut>(dealer);
        let Hand { own, others } = hand;
        Ok(Lane {
            shared,
            share,
            own,
            others,
            got,
        })
    }

    // The lane's seat joins its deal's. Returns the blocks that were returned to the lane, in
    // order.
    pub(crate) fn hand_back(self, dealer: &mut Share) -> Vec<usize>
        requires { IsShareOf self.game.table dealer.old × (dealer.old.me.0.all ≡ length self.game.lengths)
            × (dealer.old.me.0.lanes ≡ self.game.lanes) }
        ensures list { result.items ≡ self.answered }
        ensures dealer { IsShareOf self.game.table dealer.new × Collects self dealer.old.me.0 dealer.new.me.0 }
    {
        let Lane {
            shared,
            share,
            own,
            others,
            got,
        } = self;
        drop(own);
        drop(others);
        unite(&shared.count, dealer, share);
        look(&shared.count, dealer);
        got
    }

    /// The next block: the first of the lane's own deque, otherwise of the first other lane's that
    /// gives one, upwards from its own number
    /// and round, each tried once.
    ///
    /// Waits for nobody and takes no memory. A lane alone never has to ask again.
    pub fn next(&mut self) -> Next
        ensures goes { Goes self.old self.new }
        ensures next { MatchNext result self.old self.new }
    {
        let shared: &Shared = &self.shared;
        match take(&mut self.own, &mut self.others, &shared.count) {
            Some(ticket) => {
                let number = ticket.number;
                hand_out(&shared.count, &mut self.share, ticket);
                self.got.push_reserved(number);
                shared.block(number)
            }
            None => {
                if look(&shared.count, &mut self.share) == shared.blocks() {
                    Next::Empty
                } else {
                    Next::Again
                }
            }
        }
    }
}
