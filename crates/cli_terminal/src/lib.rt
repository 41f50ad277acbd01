// The words of the command line and its options, what is said, and how a command ends: for both programs, the bank's `lentilpot` and the
// customer's `bureau`.
#![tactic(auto)]

pub mod options;
pub mod program;
pub mod say;
pub mod status;
