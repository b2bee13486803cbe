//! A tally of two seats.
use deal::{Counts, Tally};
use std::test::Fail;

#[test]
fn seats_share_the_words(rt: HostRuntime) -> Result<(), Fail> {
    let (tally, mut seats) = Tally::make(rt.alloc(), 2)?;
    let one = &mut seats[0];
    tally.add(one, 0, 3);
    assert!(rt; tally.read(one).kinds[0] >= 3);
    assert!(rt; one.room(0) == (1 << 40) - 3);
    assert!(rt; one.room(1) == 1 << 40);
    let other = &mut seats[1];
    let three = Counts {
        kinds: [3, 0, 0, 0, 0, 0, 0],
    };
    assert!(rt; tally.read(other) == three);
    tally.add(other, 0, 2);
    let five = Counts {
        kinds: [5, 0, 0, 0, 0, 0, 0],
    };
    assert!(rt; tally.close(seats).ok() == Some(five));
    Ok(())
}

#[test]
fn a_seat_is_missing(rt: HostRuntime) -> Result<(), Fail> {
    let (tally, mut seats) = Tally::make(rt.alloc(), 2)?;
    let one = seats.pop();
    assert!(rt; one.is_some());
    match tally.close(seats) {
        Ok(_) => assert!(rt; false),
        Err(missing) => assert!(rt; missing.seats.len() == 1),
    }
    Ok(())
}
