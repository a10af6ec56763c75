//! What the items stand over: all of the state but them.
use crate::greenlets::Greenlets;
use crate::moment::Moment;
use body_values::Code;
use hub_objects::{Objects, Posted};
use machine::state::Post;
use trace_text::Line;

/// The state but for its items. Whether an item holds is read here, and from those that wait before it.
#[derive(Drop)]
pub struct Base {
    pub(crate) code: Code,
    pub(crate) moment: Moment,
    pub(crate) turns: u64,
    pub(crate) moves: u64,
    pub(crate) timeouts: u32,
    pub(crate) links: u32,
    pub(crate) objects: Objects,
    pub(crate) greenlets: Greenlets,
    pub(crate) jobs: Vec<Posted>,
    pub(crate) lines: Vec<Line>,
    pub(crate) posts: Vec<Post>,
}
