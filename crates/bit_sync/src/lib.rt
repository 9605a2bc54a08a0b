//! The receiver of a C37.94 line: from bits in chunks of any size to frames, with lock and loss of lock.
#![tactic(auto)]

mod holding;
mod hunting;
pub mod laws;
mod lock;
mod profile;
mod receiver;
mod register;
mod told;

pub use receiver::Receiver;
pub use told::{Fed, Got, SyncState};

#[cfg(test)]
mod tests;
