// No code: Definitions 7 to 10 are in specs/, their theorems are in proofs/.
#![tactic(auto)]
