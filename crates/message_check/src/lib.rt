//! The 32-bit check of a message, as division of polynomials over the numbers 0 and 1. Elsewhere it is known as
//! CRC-32/BZIP2: the polynomial 0x04C11DB7, the highest bit first, start and end complemented.
#![tactic(auto)]

mod fast;
pub mod laws;
mod slow;
mod table;

pub use fast::check_fast;
pub use slow::check;

#[cfg(test)]
mod tests;
