//! A ring of record slots on a flash: each record that was stored stays in every image that a power loss may leave, until
//! its slot is closed. Contracts see what each slot holds, the next sequence and the medium, and no bytes.
#![tactic(auto)]

mod close;
mod format;
mod held;
mod laws;
mod listing;
mod load;
mod queue;
mod rank;
mod ring;
mod store;

pub use avl_values::Order;
pub use laws::{
    closing_some_leaves_a_part, closing_takes_out, next_is_above_all,
    nothing_is_selected_where_nothing_is_held, put_goes_last, room_drops_the_oldest,
    selection_is_a_batch, selection_is_a_front, sequences_stay_distinct,
};
pub use load::{OpenFault, ReopenFault};
pub use ring::{PutFault, Ring};
