//! One terminal of the line: what it sends, what it hears, what it places and judges, and which alarms are on.
#![tactic(auto)]

mod answers;
mod apply;
mod call;
mod calm;
mod decider;
pub mod laws;
mod listener;
mod peer;
mod receipt;
mod talker;
mod terminal;

pub use answers::{Answer, Change, Changes, Heard, Judged, News, Outgoing, Sampled, Slotted};
pub use call::Call;
pub use terminal::Terminal;

#[cfg(test)]
mod tests;
