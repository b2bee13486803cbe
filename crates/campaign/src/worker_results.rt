//! The jobs of a campaign's workers, and what they bring.
ghost use Rattle.std.specs.Prelude.{◌≡◌, ℕ, vec_len, IfOk, OnOk, ◌++◌, ◌∷◌, []};
ghost use Rattle.std.specs.List.{list_any};
ghost use Rattle.deal.specs.Sharing.{Game};
ghost use Rattle.deal.specs.Tallies.{Sheet, added_in};
ghost use Rattle.campaign.specs.declared.worker.Done as worker;
ghost use Rattle.campaign.specs.Working.{AreIdle, AreJobs, AreReady, lanes_in, parts_in, seats_in, seats_of};

use crate::worker::{Done, Job};
use deal::{Lane, TallySeat};
use model::Memory;
use rows::{KeptRows, Part};
use std::alloc::Global;

/// What all workers brought, in the order of the jobs.
#[derive(Drop)]
pub(crate) struct Apart {
    pub(crate) lanes: Vec<Lane>,
    pub(crate) seats: Vec<TallySeat>,
    pub(crate) parts: Vec<Part>,
}

/// A job for each lane and seat, the last one first, so that the calling thread gets the first lane. Each has room for this many
/// rows, as far as there is memory for it.
pub(crate) fn jobs_of(
    alloc: Global,
    mut lanes: Vec<Lane>,
    mut seats: Vec<TallySeat>,
    rows: usize,
) -> Result<Vec<Job>, Memory>
    requires { vec_len lanes ≡ vec_len seats }
    ensures jobs { IfOk result (λ jobs. (deal : Game) (tally : Sheet) (count : ℕ) → AreIdle deal lanes.items
        → AreReady tally count seats.items → AreJobs deal tally count jobs.items) }
    ensures count { IfOk result (λ jobs. vec_len jobs ≡ vec_len lanes) }
    ensures added { IfOk result (λ jobs. (kind : ℕ) → added_in kind (seats_of jobs.items) ≡ added_in kind seats.items) }
{
    let mut jobs = Vec::new(alloc);
    while let (Some(lane), Some(seat)) = (lanes.pop(), seats.pop()) {
        let number = lanes.len();
        let kept = KeptRows::with_room(alloc, rows);
        let job = Job {
            number,
            lane,
            seat,
            kept,
        };
        if jobs.push(job).is_err() {
            return Err(Memory);
        }
    }
    Ok(jobs)
}

/// Whether memory was refused to a worker.
pub(crate) fn is_refused(dones: &[Done]) -> bool
    ensures { result ≡ list_any (λ (done : worker.Done). done.refused) dones.now }
{
    dones.iter().any(|done| done.refused)
}

/// What each worker brought, by kind.
pub(crate) fn take_apart(alloc: Global, dones: Vec<Done>) -> Result<Apart, Memory>
    ensures lanes { IfOk result (λ apart. apart.lanes.items ≡ lanes_in dones.items) }
    ensures seats { IfOk result (λ apart. apart.seats.items ≡ seats_in dones.items) }
    ensures parts { IfOk result (λ apart. apart.parts.items ≡ parts_in dones.items) }
{
    let mut apart = Apart {
        lanes: Vec::new(alloc),
        seats: Vec::new(alloc),
        parts: Vec::new(alloc),
    };
    for done in dones {
        apart.add(done)?;
    }
    Ok(apart)
}

impl Apart {
    // What one worker brought.
    fn add(&mut self, done: Done) -> Result<(), Memory>
        ensures lanes { OnOk result (self.new.lanes.items ≡ self.old.lanes.items ++ done.lane ∷ []) }
        ensures seats { OnOk result (self.new.seats.items ≡ self.old.seats.items ++ done.seat ∷ []) }
        ensures parts { OnOk result (self.new.parts.items ≡ self.old.parts.items ++ done.part ∷ []) }
    {
        let Done {
            lane,
            seat,
            part,
            refused: _,
        } = done;
        self.lanes.push(lane)?;
        self.seats.push(seat)?;
        self.parts.push(part)?;
        Ok(())
    }
}
