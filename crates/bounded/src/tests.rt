// A list is made, filled, changed and emptied.
// Loops over numbers make or try cases by number: there are no elements to go over.
use crate::{BoundedVec, TooMany};
use std::test::Fail;

#[test]
fn list_fills_up(rt: HostRuntime) -> Result<(), Fail> {
    let mut list = BoundedVec::<u16, 3>::new(rt.alloc())?;
    assert!(rt; list.is_empty());
    for item in [5, 6, 7] {
        assert_eq!(rt; list.push(item), Ok(()));
    }
    assert!(rt; list.is_full());
    assert_eq!(rt; list.push(8), Err(8));
    assert_eq!(rt; list.as_slice(), [5, 6, 7].as_slice());
    list.clear();
    assert_eq!(rt; list.len(), 0);
    Ok(())
}

#[test]
fn list_is_changed(rt: HostRuntime) -> Result<(), Fail> {
    let mut list = BoundedVec::<u16, 3>::new(rt.alloc())?;
    assert_eq!(rt; list.replace(&[1, 2]), Ok(()));
    assert_eq!(rt; list.replace(&[1, 2, 3, 4]), Err(TooMany));
    assert_eq!(rt; list.push(3), Ok(()));
    list[1] = 9;
    assert_eq!(rt; list.as_slice(), [1, 9, 3].as_slice());
    assert_eq!(rt; list[2], 3);
    assert_eq!(rt; list.remove(3), None);
    assert_eq!(rt; list.remove(0), Some(1));
    assert_eq!(rt; list.as_slice(), [9, 3].as_slice());
    Ok(())
}

// A list as long as the longest of the repository.
#[test]
fn long_list(rt: HostRuntime) -> Result<(), Fail> {
    let mut list = BoundedVec::<u64, 8193>::new(rt.alloc())?;
    for item in 0..8193 {
        assert_eq!(rt; list.push(item), Ok(()));
    }
    assert_eq!(rt; list.push(8193), Err(8193));
    Ok(())
}
