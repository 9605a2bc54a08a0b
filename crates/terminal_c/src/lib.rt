//! The calls of a terminal for programs in C. `include/linediff.h` at the top of the repository declares them.
#![tactic(auto)]

mod calls;
mod checks;
mod codes;
mod flat;
mod handle;
mod heard;
mod held;
mod layout;
mod loose;
mod making;
mod messages;
mod sampled;
mod settings;
mod slotted;
mod status;
