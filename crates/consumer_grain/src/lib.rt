//! What a partition keeps of its consumers: how far each subscription is, and each grain's mailbox and
//! turn (Orleans: *Streaming*, subscriptions and sequence tokens; *Grains*, turns of one grain).
//!
//! A subscription goes by the number of its record, and an event by its position in the log. What is kept is
//! in the memory of one process: nothing is claimed of what is lost when the process ends.
#![tactic(auto)]

mod activation;
mod handled;
mod mailbox;
mod sub_state;
mod told;

pub use activation::{Activation, RunningTurn};
pub use handled::Handled;
pub use mailbox::Delivery;
pub use sub_state::SubState;
pub use told::{Begun, Ended, Offered};
