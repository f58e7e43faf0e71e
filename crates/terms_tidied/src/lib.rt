// A question whose bodies are tidied (request 2026-04).
#![tactic(auto)]

pub mod question;
