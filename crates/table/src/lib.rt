// The table of answers: its lines as verdicts, and lines 64 and 65; the machine's numbers.
#![tactic(auto)]

pub mod answers;
pub mod numbers;
