//! The abstract machine of hub, greenlets, items, waits, turns and trace.
//!
//! The definitions stand in `specs/`; here are the types of the parts of its state.
//!
//! Every part of the state is a type of the code, or exists in proofs alone; only the record of the whole is of
//! `specs/`. So a step's contract is one equation on that record, and an engine may keep a part in another way behind
//! it. When a job is due is no part of the state: it belongs to the script. In place of a greenlet that was never made
//! there is one that has ended, so nothing comes of a handle that no greenlet has.
#![tactic(auto)]

pub mod arguments;
pub mod deed;
pub mod items;
pub mod laws;
pub mod limits;
pub mod queued;
pub mod ready;
pub mod request;
pub mod state;
