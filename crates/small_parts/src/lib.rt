// The census of small parts (document 02, request 2026-14): definitions and theorems.
#![tactic(auto)]
