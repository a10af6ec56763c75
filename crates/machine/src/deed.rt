//! What is done at an object at once. It stands here since `body_frames` asks for it and `hub_requests` does it, and
//! neither of these stands on the other.

/// What is done at an object at once, whatever the hub is.
#[derive(Clone, Copy)]
pub enum Deed {
    Set,
    Clear,
    Release,
    QueueDone,
}
