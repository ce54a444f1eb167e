//! The doors of all workers, opened at an address and given back.
ghost use Rattle.std.specs.Prelude.{◌≡◌, ◌≢◌, ◌<◌, ◌≤◌, ◌+◌, ◌^◌, IfOk, Err, length, map, All};
ghost use Rattle.fmb_host.specs.Host.{AreSmall};
ghost use Rattle.fmb_serve.specs.Doors.{HandsOutDoors, OpensNoDoors, TakesBackDoors};

use fmb_host::Host;
use fmb_io::Missing;
use std::alloc::Global;

/// Gives the doors back, in their order.
pub(crate) fn give_back<H: Host>(host: &mut H, doors: Vec<H::Gate>)
    requires room { (H.view host.old).counts.doors + length doors.items < 2 ^ 64 }
    ensures { TakesBackDoors H.Gate.L.state (H.view host.old) (map H.Gate.state doors.items) (H.view host.new) }
{
    for door in doors {
        host.door_back(door);
    }
}

/// Opens a door for each worker, in order. Where that fails, those that were opened are given back.
pub(crate) fn open_doors<H: Host>(
    alloc: Global,
    host: &mut H,
    address: &str,
    workers: u32,
) -> Result<Vec<H::Gate>, Missing>
    requires small { AreSmall (H.view host.old).counts }
    requires few { workers ≤ 64 }
    ensures opened { IfOk result (λ doors. HandsOutDoors H.Gate.L.state (H.view host.old) address.now (map H.Gate.state doors.items) (H.view host.new)) }
    ensures count { IfOk result (λ doors. length doors.items ≡ workers) }
    ensures links { IfOk result (λ doors. All (λ d. (H.Gate.state d).link_faults < 2 ^ 63) doors.items) }
    ensures host_fault { result ≡ Err Missing.Host → OpensNoDoors H.Gate.L.state address.now 1 (H.view host.old) (H.view host.new) }
    ensures no_memory { result ≡ Err Missing.NoMemory → H.view host.new ≡ H.view host.old }
    ensures among { result ≢ Err Missing.Source }
{
    let Ok(mut doors) = Vec::with_capacity(alloc, workers as usize) else {
        return Err(Missing::NoMemory);
    };
    'workers: for worker in 0..workers {
        match host.door(address, worker + 1) {
            Ok(door) => doors.push_reserved(door),
            Err(_) => {
                give_back(host, doors);
                return Err(Missing::Host);
            }
        }
    }
    Ok(doors)
}
