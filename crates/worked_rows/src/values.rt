//! Values that don't fit.
use avl_values::{Io, NxList, Width};
use std::test::Fail;

#[test]
fn a_value_fits_its_width(rt: HostRuntime) -> Result<(), Fail> {
    for (width, most) in [
        (Width::W1, 0xff),
        (Width::W2, 0xffff),
        (Width::W4, 0xffff_ffff),
    ] {
        assert!(rt; Io::new(1, width, most).is_some());
        assert!(rt; Io::new(1, width, most + 1).is_none());
    }
    assert!(rt; Io::new(1, Width::W8, u64::MAX).is_some());
    Ok(())
}

// Whether an element of N bytes fits, after one of 100.
fn fits_after_one(bytes: &[u8]) -> (bool, usize) {
    let mut list = NxList::new();
    let _added = list.push(1, &[0; 100]);
    (list.push(2, bytes), list.len())
}

// 4 and 100 bytes leave 113, of which 4 are the head's.
#[test]
fn elements_fit_into_217_bytes(rt: HostRuntime) -> Result<(), Fail> {
    assert!(rt; fits_after_one(&[0; 109]) == (true, 2));
    assert!(rt; fits_after_one(&[0; 110]) == (false, 1));
    Ok(())
}
