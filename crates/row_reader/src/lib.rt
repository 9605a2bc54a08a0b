//! Rows and numbers of texts that commands read, and the first row with a fault.
#![tactic(auto)]

mod fault;
pub mod laws;
mod numbers;
mod row_fields;
mod row_numbers;
mod rows;

pub use fault::Fault;
pub use numbers::{number, word_number};
pub use row_fields::field;
pub use row_numbers::numbers_of;
pub use rows::Rows;
