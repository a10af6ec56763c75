//! Native threads that take the hub's jobs from a board: the worker's loop, what starts it, and the edges to the system.
//!
//! `ThreadSpawner` is for the shipped bell and gate. It takes how a task is started on a thread: the caller makes that
//! box, where its handle may go to another thread. `Desk` and `History` are public, since the contracts of
//! `ThreadWorld` speak of them.
#![tactic(auto)]

mod clock;
mod clock_edge;
mod desk;
mod ear;
mod history;
mod pool;
mod spawner;
mod spawner_edge;
mod task;
mod wake_edge;

pub use clock::Clock;
pub use clock_edge::SteadyClock;
pub use desk::Desk;
pub use ear::Ear;
pub use history::History;
pub use pool::{Parts, ThreadWorld, thread_worlds_wait};
pub use spawner::{NoThreads, NotStarted, Spawner};
pub use spawner_edge::{StartThread, Thread, ThreadSpawner, spawn_worker};
pub use task::{Gate, OpenGate, WorkerTask, worker};
pub use wake_edge::{PollEar, WakerBell};
