ghost use Rattle.std.specs.Prelude.{[], OnOk, OnErr};
ghost use Rattle.avl_values.specs.Causes.{HasCause};
ghost use Rattle.links.specs.Links.{Moves, WritesPart};

use crate::link::Link;
use avl_values::Failed;

/// Writes all the bytes. `Failed` leaves a part of them written, the first ones and not all, and the link has counted.
pub fn send<L: Link>(link: &mut L, bytes: &[u8]) -> Result<(), Failed>
    ensures whole { OnOk result (Moves [] bytes.now (L.state link.old).told (L.state link.new).told) }
    ensures part { OnErr result (WritesPart bytes.now (L.state link.old).told (L.state link.new).told) }
    ensures cause { HasCause (L.state link.old).faults (L.state link.new).faults result }
    ensures follows { L.follows link.old link.new }
{
    let mut done = 0;
    while done < bytes.len() {
        done += link.write(&bytes[done..])?;
    }
    Ok(())
}
