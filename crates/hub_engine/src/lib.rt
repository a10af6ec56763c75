//! The engine: the steps of the machine over the state of the hub, and the run whose trace is given out step by step.
//!
//! The hub settles after every move. Where there is nothing to settle, moves that stay in their body change nothing but
//! the count of moves, so that the engine hands a body as many of them as it makes, and counts them at once. The body
//! under way stands with the step and not in the hub, so that it may look at the hub. It is stepped where it stands, and
//! the calls by which one that was woken comes there are made in place (`#[inline(always)]`), so that it is moved once.
//!
//! Of its world the engine knows the trait alone; over one that may wait it flushes its sink before each question. Where
//! a run breaks off, a job may have been posted whose line was not written. Where a budget of moves is spent, the last
//! state is like the run's in its counts and its moment alone (`AreLike`).
#![tactic(auto)]

mod broken;
mod deliver;
mod legs;
mod life;
mod moves;
mod run;
mod stand;
mod turns;

pub use run::{Budgets, Engine, EngineEnd, EngineRefusal, Ran, compile};
