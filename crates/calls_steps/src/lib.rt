// No code: the candidates of calls opened with all that they reach are in specs/, their theorems are in proofs/.
#![tactic(auto)]
