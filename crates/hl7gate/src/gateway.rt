//! The gateway that keeps what it accepts on the disk, and goes on for ever.
//!
//! Its log is its journal. A sender's message is appended to it, and answered once it is on the disk. For each receiver a forwarder reads the log on,
//! and sends what the plan of each message makes of it, over connections that it makes anew.
mod command;
mod control;
mod folder;
mod forwarders;
mod hub;
mod late;
mod lines;
mod links;
mod opening;
mod overlong;
mod page;
mod plans;
mod refusals;
mod resend;
mod senders;
mod sent;
mod watch;

pub(crate) use command::gateway;
pub(crate) use control::control_path;
pub(crate) use hub::Hub;
pub(crate) use lines::{Line, Over};
