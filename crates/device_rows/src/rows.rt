//! Rings that are full, and power losses inside a store.
use crate::device::{Counts, Step, play};
use medium_model::Tear;
use std::test::Fail;

const T0: u64 = 1_560_161_086_000;

const T1: u64 = 1_560_161_087_000;

const T2: u64 = 1_560_161_088_000;

fn counts(acquired: usize, cut: usize, overwritten: usize, flash: usize) -> Option<Counts> {
    Some(Counts {
        acquired,
        cut,
        overwritten,
        flash,
    })
}

#[test]
fn a_full_ring_gives_up_its_oldest(rt: HostRuntime) -> Result<(), Fail> {
    let fixes = [Step::Fix(T0), Step::Fix(T1), Step::Fix(T2)];
    assert!(rt; play(rt.alloc(), 2, &fixes) == counts(3, 0, 1, 2));
    let again = [Step::Fix(T0), Step::Fix(T0), Step::Power, Step::Fix(T0)];
    assert!(rt; play(rt.alloc(), 2, &again) == counts(1, 0, 0, 1));
    Ok(())
}

#[test]
fn a_power_loss_cuts_a_store(rt: HostRuntime) -> Result<(), Fail> {
    let keep = [Step::Fuse(2, Tear::Keep), Step::Fix(T0)];
    assert!(rt; play(rt.alloc(), 16, &keep) == counts(1, 1, 0, 0));
    let new = [Step::Fuse(2, Tear::New), Step::Fix(T0)];
    assert!(rt; play(rt.alloc(), 16, &new) == counts(1, 1, 0, 1));
    let after = [Step::Fuse(4, Tear::Keep), Step::Fix(T0)];
    assert!(rt; play(rt.alloc(), 16, &after) == counts(1, 0, 0, 1));
    Ok(())
}
