//! Tests of the crates on HTTP by their public calls.
#![tactic(auto)]

#[cfg(test)]
mod connections;
#[cfg(test)]
mod messages;
#[cfg(test)]
mod relaying;
#[cfg(test)]
mod scgi;
#[cfg(test)]
mod sequences;
#[cfg(test)]
mod sessions;
