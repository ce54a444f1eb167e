//! What a trial's script says and what its outcome must say: the lines of a script, the outcome with its devices and
//! connections, and (in `specs/`) the whole statement of what every trial keeps, one file for each notion.
#![tactic(auto)]

mod got;
mod outcome;
mod script;

pub use acquisition::Fix;
pub use avl_values::Order;
pub use got::Got;
pub use io_operands::{IoSetting, Operand};
pub use medium_model::Tear;
pub use outcome::{ConnectionOutcome, DeviceEnd, DeviceOutcome, Outcome, ServerEnd};
pub use script::{ScriptLine, Who};
