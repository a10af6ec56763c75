//! Tests of the worlds through their public calls: `world`, `native_board` and `native_pool`.
#![tactic(auto)]

#[cfg(test)]
mod board;
#[cfg(test)]
mod pool;
#[cfg(test)]
mod scripts;
