//! Tests of bodies and of the hub by their public calls alone.
#![tactic(auto)]

#[cfg(test)]
mod chains;
#[cfg(test)]
mod frames;
#[cfg(test)]
mod held;
#[cfg(test)]
mod numbers;
#[cfg(test)]
mod timers;
