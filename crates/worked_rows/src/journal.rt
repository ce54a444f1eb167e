//! A journal alone, over a bench whose power is lost.
use archive_journal::{ArchiveFault, Journal};
use medium::{Bench, MemoryBench, ReserveError, Tear};
use std::alloc::Global;
use std::test::Fail;

// A journal over an empty bench whose power is lost once it was opened, by four calls.
fn opened(alloc: Global) -> Option<Journal<MemoryBench>> {
    let mut bench = MemoryBench::new(alloc).ok()?;
    bench.arm(4, Tear::Keep);
    match Journal::open(alloc, bench) {
        Ok((journal, _)) => Some(journal),
        Err(_) => None,
    }
}

// Whether there is room for a body of nine bytes once it was asked for, and not before or for ten.
fn has_its_room(journal: &mut Journal<MemoryBench>) -> bool {
    let before = journal.has_room(9);
    !before && journal.room(9).is_ok() && journal.has_room(9) && !journal.has_room(10)
}

// What room and opening again answer while the power is lost.
fn answers(
    alloc: Global,
    journal: &mut Journal<MemoryBench>,
) -> (Option<ArchiveFault>, Option<ReserveError>) {
    (journal.reopen(alloc).err(), journal.room(9).err())
}

// Whether it opens again without entries.
fn opens_empty(alloc: Global, journal: &mut Journal<MemoryBench>) -> bool {
    match journal.reopen(alloc) {
        Ok(entries) => entries.len() == 0 && !journal.is_down(),
        Err(_) => false,
    }
}

#[test]
fn a_journal_without_power_has_no_room(rt: HostRuntime) -> Result<(), Fail> {
    let alloc = rt.alloc();
    let mut journal = opened(alloc).ok_or("a journal")?;
    let lost = (Some(ArchiveFault::MediumFault), Some(ReserveError::Failed));
    assert!(rt; answers(alloc, &mut journal) == lost);
    assert!(rt; journal.is_down());
    journal.restart();
    assert!(rt; opens_empty(alloc, &mut journal));
    assert!(rt; has_its_room(&mut journal));
    Ok(())
}
