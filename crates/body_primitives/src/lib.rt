//! Primitives: expressions of integers and truth values alone, evaluated with no copy and no allocation.
//!
//! What is had so is the meaning of the expression. Of the others nothing is said: `Code::meaning` evaluates them.
//!
//! They are tried once a move, at its top: a second try inside an expression would make its cost grow with its depth.
//! So both operands of `and` and `or` are evaluated; an expression has no effect. Results that hold a request or a
//! value are large, and a function pays at its entry for the size of what it holds, so the general way stays a call of
//! its own (`#[inline(never)]`).
#![tactic(auto)]

mod primitive;

pub use primitive::{Primitive, bind_primitive, primitive_of, primitive_truth};
