//! A net over the sockets of the system, by `mio`, which does not tell what is ready, and streams that are opened there.
#![tactic(auto)]

mod annals;
mod dial_edge;
mod endpoint;
mod linger_edge;
mod mio_dial;
mod mio_sockets_edge;
mod sockets_edge;
mod tape;

pub use dial_edge::Upstream;
pub use endpoint::Endpoint;
pub use mio_dial::MioDial;
pub use mio_sockets_edge::MioNet;
