//! Which lengths form a division.
use deal::{BadDivision, Division};
use std::alloc::Global;
use std::test::Fail;

fn fault(alloc: Global, total: usize, lengths: &[usize]) -> Result<Option<BadDivision>, Fail> {
    Ok(Division::new(total, Vec::from_slice(alloc, lengths)?).err())
}

#[test]
fn the_first_fault_is_named(rt: HostRuntime) -> Result<(), Fail> {
    let cases: [(usize, &[usize], Option<BadDivision>); 7] = [
        (7, &[3, 4], None),
        (0, &[], None),
        (7, &[7, 0], Some(BadDivision::ZeroLength(1))),
        (3, &[0, 4], Some(BadDivision::ZeroLength(0))),
        (7, &[3, 3], Some(BadDivision::WrongSum)),
        (0, &[1], Some(BadDivision::WrongSum)),
        (0, &[usize::MAX, 1], Some(BadDivision::WrongSum)),
    ];
    for (total, lengths, wanted) in cases {
        assert!(rt; fault(rt.alloc(), total, lengths)? == wanted, "of {total}");
    }
    Ok(())
}

#[test]
fn the_last_block_may_be_shorter(rt: HostRuntime) -> Result<(), Fail> {
    let division = Division::even(rt.alloc(), 7, 3)?;
    assert!(rt; division.count() == 3);
    let exact = Division::even(rt.alloc(), 6, 3)?;
    assert!(rt; exact.count() == 2);
    let none = Division::even(rt.alloc(), 0, 3)?;
    assert!(rt; none.count() == 0);
    Ok(())
}
