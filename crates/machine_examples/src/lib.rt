//! Worked runs of the machine as tables in `proofs`, by computation: what the run of a text writes, and that its lines
//! meet the laws of a trace and each of its block lines stands at a quiet and sound state.
#![tactic(auto)]
