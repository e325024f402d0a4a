// Condition 3: the parties' lists of requests, their turns in any order. No code: definitions in specs/, laws in proofs/.
#![tactic(auto)]
