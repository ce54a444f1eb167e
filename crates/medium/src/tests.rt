use crate::{Bench, FileMedium, Medium, MemoryBench, MemoryMedium, ReserveError, Tear};
use std::fs;
use std::fs::OpenOptions;
use std::os::unix::fs::symlink;
use std::test::Fail;

#[test]
fn a_medium_of_three_bytes_has_length_three(rt: HostRuntime) -> Result<(), Fail> {
    let mut medium = MemoryMedium::new(rt.alloc(), &[1, 2, 3], &[])?;
    assert_eq!(&rt; medium.len()?, 3);
    Ok(())
}

// Room above 2^62 is refused and counted.
fn refuses_room<M: Medium>(medium: &mut M) -> bool {
    let before = medium.faults();
    medium.reserve((1 << 62) + 1) == Err(ReserveError::Failed) && medium.faults() > before
}

#[test]
fn room_has_an_end(rt: HostRuntime) -> Result<(), Fail> {
    let mut medium = MemoryMedium::new(rt.alloc(), &[1], &[])?;
    assert!(&rt; refuses_room(&mut medium));
    assert_eq!(&rt; medium.content(), [1].as_slice());
    let mut bench = MemoryBench::new(rt.alloc())?;
    assert!(&rt; refuses_room(&mut bench));
    bench.arm(0, Tear::Keep);
    assert!(&rt; bench.sync().is_err());
    assert!(&rt; bench.reserve(1) == Err(ReserveError::Failed));
    Ok(())
}

// Four bytes 9 are durable, and the power loss meets a write of 1, 2, 3, 4 at place 6, after the end.
#[test]
fn each_tear_leaves_its_image(rt: HostRuntime) -> Result<(), Fail> {
    let rows: [(Tear, &[u8]); 5] = [
        (Tear::Keep, &[9, 9, 9, 9]),
        (Tear::New, &[9, 9, 9, 9, 0, 0, 1, 2, 3, 4]),
        (Tear::Zero, &[9, 9, 9, 9, 0, 0, 0, 0, 0, 0]),
        (Tear::AllOpen, &[9, 9, 9, 9, 0, 0, 0xA5, 0xA5, 0xA5, 0xA5]),
        (Tear::Half, &[9, 9, 9, 9, 0, 0, 1, 2]),
    ];
    for (tear, left) in rows {
        let mut bench = MemoryBench::new(rt.alloc())?;
        bench.reserve(10)?;
        bench.write(0, &[9; 4])?;
        bench.sync()?;
        bench.arm(0, tear);
        assert!(&rt; bench.write(6, &[1, 2, 3, 4]).is_err());
        assert!(&rt; bench.ran_out());
        bench.restart();
        assert_eq!(&rt; bench.content(), left);
    }
    Ok(())
}

// A real file keeps what was written over a reopening, and a gap after its end reads as zero bytes.
#[test]
fn a_file_keeps_what_was_written(rt: HostRuntime) -> Result<(), Fail> {
    let path = "medium_test_file";
    let _ = fs::remove_file(&rt, path);
    let mut medium = FileMedium::open(&rt, path)?;
    assert!(&rt; refuses_room(&mut medium));
    medium.reserve(5)?;
    medium.write(3, &[7, 8])?;
    medium.sync()?;
    drop(medium);
    let mut medium = FileMedium::open(&rt, path)?;
    assert_eq!(&rt; medium.len()?, 5);
    let mut bytes = [1; 6];
    assert_eq!(&rt; medium.read(1, &mut bytes)?, 4);
    assert_eq!(&rt; bytes, [0, 0, 7, 8, 1, 1]);
    fs::remove_file(&rt, path)?;
    Ok(())
}

// A folder, a device, a link, and a file that another handle holds, as one that appends to it: none is opened or changed.
#[test]
fn no_other_file_is_opened(rt: HostRuntime) -> Result<(), Fail> {
    let folder = "medium_test_folder";
    let _ = fs::remove_dir_all(&rt, folder);
    fs::create_dir(&rt, folder)?;
    fs::write(&rt, "medium_test_folder/file", b"kept".as_slice())?;
    symlink(&rt, "file", "medium_test_folder/link")?;
    for path in [folder, "/dev/null", "medium_test_folder/link"] {
        assert!(&rt; FileMedium::open(&rt, path).is_err());
    }
    let path = "medium_test_folder/file";
    let other = OpenOptions::new().append(true).open(&rt, path)?;
    assert!(&rt; other.try_lock().is_ok());
    assert!(&rt; FileMedium::open(&rt, path).is_err());
    drop(other);
    let held = FileMedium::open(&rt, path)?;
    assert!(&rt; FileMedium::open(&rt, path).is_err());
    drop(held);
    assert_eq!(&rt; fs::metadata(&rt, path)?.len(), 4);
    fs::remove_dir_all(&rt, folder)?;
    Ok(())
}
