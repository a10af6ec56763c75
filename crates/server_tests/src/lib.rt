//! Tests of the server by its public calls.
#![tactic(auto)]

#[cfg(test)]
mod dialling;
#[cfg(test)]
mod jobs;
#[cfg(test)]
mod loopback;
#[cfg(test)]
mod relaying;
#[cfg(test)]
mod scripted;
