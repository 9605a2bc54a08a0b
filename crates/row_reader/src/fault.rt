use ld_base::Reason;

/// What is wrong with an input: the first row, counted from 1, that breaks a rule, and the least rule that it breaks. Row 0
/// stands for the input as a whole.
#[derive(Clone, Copy, Debug, PartialEq, Eq)]
pub struct Fault {
    pub row: u64,
    pub reason: Reason,
}
