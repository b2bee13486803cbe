//! Lanes in turn, on one thread.
ghost use Rattle.std.specs.Prelude.{◌<◌};
ghost use Rattle.deal.specs.Sharing.{Game, AreLanesOf};

use deal::{Closed, Deal, Division, Lane, Next};
use std::alloc::Global;
use std::process::Abort;
use std::test::Fail;

// What the lane of this number is given, if there is one.
fn turn(lanes: &mut Vec<Lane>, lane: usize) -> Next
    ensures { (g : Game) → AreLanesOf g lanes.old.items → AreLanesOf g lanes.new.items }
{
    if lane >= lanes.len() {
        return Next::Again;
    }
    let lane = &mut lanes[lane];
    lane.next()
}

// Compares what the lane of this number is given.
fn is_answered(rt: &impl Abort, lanes: &mut Vec<Lane>, lane: usize, next: Next)
    ensures { (g : Game) → AreLanesOf g lanes.old.items → AreLanesOf g lanes.new.items }
{
    assert!(rt; turn(lanes, lane) == next, "lane {lane}");
}

// Compares the blocks in the list of the lane of this number.
fn has_list(rt: &impl Abort, closed: &Closed, lane: usize, blocks: &[usize]) {
    match closed.lists.get(lane) {
        Some(list) => assert!(rt; list.as_slice() == blocks, "lane {lane}"),
        None => panic!(rt; "no list of lane {lane}"),
    }
}

// Compares the number of lanes that have lists, and which blocks are left.
fn has_rest(rt: &impl Abort, closed: &Closed, lanes: usize, rest: &[usize]) {
    assert!(rt; closed.lists.len() == lanes);
    assert!(rt; closed.rest.as_slice() == rest);
}

// The last lane never comes back.
fn lose_last(lanes: &mut Vec<Lane>)
    ensures { (g : Game) → AreLanesOf g lanes.old.items → AreLanesOf g lanes.new.items }
{
    let _ = lanes.pop();
}

// A block of one point.
fn block(number: usize) -> Next {
    Next::Block {
        number,
        first: number,
        length: 1,
    }
}

// This many blocks of one point.
fn ones(alloc: Global, blocks: usize) -> Result<Division, Fail> {
    Ok(Division::even(alloc, blocks, 1)?)
}

#[test]
fn a_lane_steals(rt: HostRuntime) -> Result<(), Fail> {
    let division = ones(rt.alloc(), 3)?;
    let (deal, mut lanes) = Deal::new(rt.alloc(), division, 2, true)?;
    for number in [0, 2, 1] {
        is_answered(&rt, &mut lanes, 0, block(number));
    }
    is_answered(&rt, &mut lanes, 0, Next::Empty);
    is_answered(&rt, &mut lanes, 1, Next::Empty);
    let closed = deal.close(lanes);
    has_list(&rt, &closed, 0, &[0, 2, 1]);
    has_list(&rt, &closed, 1, &[]);
    has_rest(&rt, &closed, 2, &[]);
    Ok(())
}

#[test]
fn other_lanes_are_tried_upwards_and_round(rt: HostRuntime) -> Result<(), Fail> {
    let division = ones(rt.alloc(), 3)?;
    let (_deal, mut lanes) = Deal::new(rt.alloc(), division, 3, true)?;
    for number in [1, 2, 0] {
        is_answered(&rt, &mut lanes, 1, block(number));
    }
    Ok(())
}

#[test]
fn what_a_missing_lane_took_is_in_the_rest(rt: HostRuntime) -> Result<(), Fail> {
    let division = ones(rt.alloc(), 4)?;
    let (deal, mut lanes) = Deal::new(rt.alloc(), division, 2, true)?;
    is_answered(&rt, &mut lanes, 0, block(0));
    is_answered(&rt, &mut lanes, 1, block(1));
    lose_last(&mut lanes);
    let closed = deal.close(lanes);
    has_list(&rt, &closed, 0, &[0]);
    has_rest(&rt, &closed, 1, &[1, 2, 3]);
    Ok(())
}

#[test]
fn the_last_block_is_dealt_first(rt: HostRuntime) -> Result<(), Fail> {
    let division = ones(rt.alloc(), 5)?;
    let (_deal, mut lanes) = Deal::new(rt.alloc(), division, 2, false)?;
    is_answered(&rt, &mut lanes, 1, block(3));
    for number in [4, 2, 0, 1] {
        is_answered(&rt, &mut lanes, 0, block(number));
    }
    is_answered(&rt, &mut lanes, 1, Next::Empty);
    Ok(())
}
