//! The device's side of a trial: what each line of a script does to it, on plain data; that each line keeps what is true of it, power
//! losses at any call of its medium included; and one device over the product's own acquirer, tracker, ring and bench.
#![tactic(auto)]

mod device_side;
mod digest;
mod ends;
mod flash;
mod laws;
mod lost;
mod once_list;

pub use device_side::{DeviceParts, DeviceSide};
pub use ends::end_of;
pub use laws::each_line_keeps_a_side_sound;
pub use once_list::OnceList;
