//! A device's records in the list.
ghost use Rattle.std.specs.Prelude.{◌≡◌, IfOk};
ghost use Rattle.shelf.specs.Archive.{places_of};

use crate::stored::Stored;
use avl_values::{Imei, NoMemory};
use std::alloc::Global;

/// The places of a device's records, rising.
pub fn places(alloc: Global, list: &[Stored], imei: Imei) -> Result<Vec<u64>, NoMemory>
    ensures { IfOk result (λ v. v.items ≡ places_of list.now imei) }
{
    let mut places = Vec::new(alloc);
    for place in 0..list.len() {
        if list[place].imei() == imei {
            places.push(place as u64)?;
        }
    }
    Ok(places)
}
