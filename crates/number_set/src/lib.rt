//! A set of numbers below a bound that is raised where memory allows. A number is put in, in constant time, and takes no
//! memory; those that are in it are listed in the order in which they came.
#![tactic(auto)]

mod set;

pub use set::NumberSet;
