//! Tests of the call that the program makes, some of them over native threads: of two that do their jobs at one time, of
//! some whose results are told in the order of a script, and of a server whose requests they answer.
#![tactic(auto)]

#[cfg(test)]
mod calls;
#[cfg(test)]
mod client_tests;
#[cfg(test)]
mod connection_tests;
#[cfg(test)]
mod fault_tests;
#[cfg(test)]
mod gate_tests;
#[cfg(test)]
mod held_gate;
#[cfg(test)]
mod job_tests;
#[cfg(test)]
mod limit_tests;
#[cfg(test)]
mod native_tests;
#[cfg(test)]
mod net_tests;
#[cfg(test)]
mod nets;
#[cfg(test)]
mod order_tests;
#[cfg(test)]
mod serve_tests;
#[cfg(test)]
mod served;
#[cfg(test)]
mod words_tests;
