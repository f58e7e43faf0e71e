// No code: the calls that opening a call reaches are in specs/, their theorems are in proofs/.
#![tactic(auto)]
