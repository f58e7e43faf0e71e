// The fewest pairs of names to hold apart: definitions and theorems.
#![tactic(auto)]
