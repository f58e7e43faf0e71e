// The steps of a part and their list: definitions and theorems.
#![tactic(auto)]
