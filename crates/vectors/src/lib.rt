//! Vectors and whole runs as tests.
#![tactic(auto)]

#[cfg(test)]
mod tests;
