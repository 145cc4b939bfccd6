use crate::Register;
use std::alloc::{AllocError, Global};
use std::test::Fail;
use wh_base::seq::Seq;

fn tables(alloc: Global, numbers: &[u32]) -> Result<Seq<u32>, AllocError> {
    Seq::from_vec(Vec::from_slice(alloc, numbers)?)
}

/// The purge points of tables 0, 1 and 2 at SCN 99.
fn purge_points(register: &Register) -> [u64; 3] {
    [
        register.purge_point(0, 99),
        register.purge_point(1, 99),
        register.purge_point(2, 99),
    ]
}

/// Two views are registered, refreshed and taken off, and room is made again for one of them.
#[test]
#[tactic(auto, using(crate::proofs::Rooms::found))]
fn keeps_the_points_of_views(rt: HostRuntime) -> Result<(), Fail> {
    let alloc = rt.alloc();
    let mut register = Register::new(alloc);
    assert_eq!(rt; purge_points(&register), [99, 99, 99], "no views");
    register.add(1, &tables(alloc, [0, 1].as_slice())?)?;
    assert_eq!(rt; purge_points(&register), [99, 99, 99], "none registered");
    register.set(1, 5);
    assert_eq!(rt; purge_points(&register), [5, 5, 99], "one registered");
    register.add(2, &tables(alloc, [1].as_slice())?)?;
    register.set(2, 3);
    assert_eq!(rt; purge_points(&register), [5, 3, 99], "the least of two");
    register.set(2, 8);
    assert_eq!(rt; purge_points(&register), [5, 5, 99], "refreshed");
    register.take_off(1);
    assert_eq!(rt; purge_points(&register), [99, 8, 99], "taken off");
    register.take_off(3);
    register.set(1, 9);
    assert_eq!(rt; purge_points(&register), [9, 8, 99], "registered again");
    register.add(2, &tables(alloc, [2].as_slice())?)?;
    assert_eq!(rt; purge_points(&register), [9, 9, 99], "room made again");
    Ok(())
}
