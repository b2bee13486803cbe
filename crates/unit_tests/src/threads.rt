//! Lanes in threads of their own.
ghost use Rattle.std.specs.Prelude.{◌≡◌, ◌<◌, ◌≤◌, IfOk};
ghost use Rattle.deal.specs.Sharing.{AreLanesOf, Game, HasSeenAll};

use deal::{Closed, Deal, Division, Lane, Next};
use model::Memory;
use std::alloc::{AllocError, Global};
use std::sync::Wait;
use std::test::Fail;
use std::thread;
use std::thread::Threads;

// Takes blocks until all have been handed out.
fn run<R: Wait>(rt: &R, mut lane: Lane) -> Lane
    ensures { (result.game ≡ lane.game) × HasSeenAll result }
{
    for _ in rt.forever() {
        match lane.next() {
            Next::Block { .. } => {}
            Next::Again => thread::yield_now(),
            Next::Empty => break,
        }
    }
    lane
}

// Runs each lane in a thread of its own, if one can be started.
fn run_all<R: Threads + Wait + Sync>(rt: &R, lanes: Vec<Lane>) -> Result<Vec<Lane>, AllocError>
    ensures { IfOk result (λ back. (g : Game) → AreLanesOf g lanes.items → AreLanesOf g back.items) }
{
    thread::map_vec(
        rt,
        lanes,
        &|lane: Lane| -> Lane
            ensures { (result.game ≡ lane.game) × HasSeenAll result }
        { run(rt, lane) },
    )
}

// Deals blocks of one point among lanes in threads, and closes the deal.
fn share<R: Threads + Wait + Sync>(
    rt: &R,
    alloc: Global,
    blocks: usize,
    workers: usize,
) -> Result<Closed, Memory>
    requires { (0 < workers) × (workers ≤ 64) }
{
    let division = Division::even(alloc, blocks, 1)?;
    let (deal, lanes) = Deal::new(alloc, division, workers, true)?;
    let lanes = run_all(rt, lanes)?;
    Ok(deal.close(lanes))
}

// Whether each number below the length is in the lists, and nothing else is. No number is marked twice.
fn are_each_once(alloc: Global, closed: &Closed, blocks: usize) -> Result<bool, AllocError> {
    let mut marks = vec![in alloc; false; blocks]?;
    for list in &closed.lists {
        for number in list {
            match marks.get_mut(*number) {
                Some(mark) if !*mark => *mark = true,
                _ => return Ok(false),
            }
        }
    }
    Ok(marks.iter().all(|mark| *mark))
}

#[test]
fn each_block_goes_to_one_lane(rt: HostRuntime) -> Result<(), Fail> {
    for workers in [1, 2, 4, 64] {
        let closed = share(&rt, rt.alloc(), 1000, workers)?;
        assert!(rt; closed.lists.len() == workers);
        assert!(rt; closed.rest.len() == 0);
        assert!(rt; are_each_once(rt.alloc(), &closed, 1000)?);
    }
    Ok(())
}

#[test]
fn no_blocks_are_handed_out_at_once(rt: HostRuntime) -> Result<(), Fail> {
    let closed = share(&rt, rt.alloc(), 0, 4)?;
    assert!(rt; closed.lists.len() == 4);
    assert!(rt; closed.rest.len() == 0);
    Ok(())
}
