//! What is known of a journal: when its messages were on their way, the exchanges that they make, and what is reported of it.
#![tactic(auto)]

mod account;
mod crossing;
mod line;
mod line_history;
mod now;
mod stations;

pub use account::Account;
pub use crossing::{Arrival, Beginning, Crossing, Legs};
pub use line::{Line, Total};
pub use now::Now;
pub use stations::{directed_lines, station, stations_of};
