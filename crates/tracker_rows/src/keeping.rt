//! Records kept, and records given up.
use crate::samples::{Listing, held, keep, tracker_of};
use avl_values::Codec;
use std::alloc::Global;
use std::test::Fail;
use tracker_session::Kept;

// What three records in a ring of two slots come to, and how many were listed and are held then.
fn three_in_two(alloc: Global, fails: bool) -> Option<([Option<Kept>; 3], u64, u16)> {
    let mut tracker = tracker_of(alloc, 2)?;
    let mut losses = Listing::new(fails);
    let first = keep(&mut tracker, Codec::C8, &mut losses);
    let second = keep(&mut tracker, Codec::C8E, &mut losses);
    let third = keep(&mut tracker, Codec::C16, &mut losses);
    Some(([first, second, third], losses.listed, held(&tracker)))
}

#[test]
fn a_full_ring_gives_up_its_oldest(rt: HostRuntime) -> Result<(), Fail> {
    let stored = Some(Kept::Stored);
    let over = Some(Kept::StoredOver);
    assert!(rt; three_in_two(rt.alloc(), false) == Some(([stored, stored, over], 1, 2)));
    assert!(rt; three_in_two(rt.alloc(), true) == Some(([stored, stored, None], 0, 2)));
    Ok(())
}
