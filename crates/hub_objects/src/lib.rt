//! The objects of the hub in order of declaration: what a step does to one, what is read of one, and the conditions of
//! the waits at one. Beside them the jobs of the native pools, in order of posting.
//!
//! Nothing here knows who waits: a condition is told how many wait already.
#![tactic(auto)]

mod additions;
mod conditions;
mod crews;
mod jobs;
mod memberships;
mod objects;
mod offers;
mod queues;
mod reads;
mod releases;

pub use additions::Addition;
pub use conditions::{
    all_finished, has_item, has_offer, has_place, has_result, has_room, has_set_since, has_slot,
    has_unit, is_deserted, is_flagged, is_free, is_owner, is_taken,
};
pub use jobs::{Posted, any_outstanding, arrive_at, job_at};
pub use memberships::Membership;
pub use objects::{Change, Objects};
pub use queues::{is_left, is_shut, item_of};
pub use reads::{
    has_member, has_offer_by, is_set_object, name_at, size_of_object, unfinished_of_object,
};
pub use releases::{Release, has_task, release_of};
