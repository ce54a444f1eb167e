//! Two workers at the same time.
ghost use Rattle.std.specs.Prelude.{◌≡◌};
ghost use Rattle.std.specs.Thread.{IsSync};

use crate::device::two_answers;
use crate::server::{QuietDoor, Report, door, served_two};
use avl_values::Imei;
use std::alloc::Global;
use std::net::{SocketAddr, TcpListener};
use std::sync::Wait;
use std::test::Fail;
use std::thread::{Threads, join};

// What two workers report of one session each, and what both sessions' devices heard before either ended.
fn both<R: Threads + Wait + Sync>(
    rt: &R,
    own: HostRuntime,
    first: QuietDoor,
    second: QuietDoor,
    address: SocketAddr,
) -> Option<(Report, [u8; 2])>
    requires first { first.link_faults ≡ 0 }
    requires second { second.link_faults ≡ 0 }
{
    let alloc: Global = own.alloc();
    let imei = Imei::from_number(350_000_000_000_000)?;
    let (report, heard) = join(
        rt,
        move || -> Option<Report>
            requires { IsSync R.row × (first.link_faults ≡ 0) × (second.link_faults ≡ 0) }
        { served_two(rt, alloc, first, second, 1) },
        move || two_answers(&own, address, imei),
    );
    Some((report?, heard?))
}

// Workers that serve one after the other would answer the second login only after the end of the first session, which waits for it.
#[test]
fn both_workers_answer_before_either_session_ends(rt: HostRuntime) -> Result<(), Fail> {
    let listener = TcpListener::bind(&rt, "127.0.0.1:0")?;
    let address = listener.local_addr()?;
    let (first, second) = (door(listener.try_clone()?), door(listener));
    let (report, heard) = both(&rt, rt.clone()?, first, second, address).ok_or(
        "a report and two answers",
    )?;
    assert_eq!(rt; heard, [1, 1]);
    assert_eq!(rt; report.workers.len(), 2);
    Ok(())
}
