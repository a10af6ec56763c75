//! Tests of the public calls of the crates that everything stands on: values, streams, jobs, and the
//! lines of a trace.
#![tactic(auto)]

#[cfg(test)]
mod jobs;
#[cfg(test)]
mod lines;
#[cfg(test)]
mod readings;
#[cfg(test)]
mod streams;
#[cfg(test)]
mod values;
