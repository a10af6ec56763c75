//! What a connection is sent: the HTTP sessions of a server, as a function of all its bytes.
//!
//! The law of `Session` is `sessions_join_their_pieces`: new, fed any pieces, and with any bytes taken from it, what was
//! taken and what is pending are what `session` (`specs/Session`) says of the pieces joined.
//!
//! A reply's names and values are tested by `httparse`'s `is_token` and `is_header_value`, since `http_header`'s names
//! end at 65535 bytes. A reply keeps its names as they are spelt; a request's are in lower case.
#![tactic(auto)]

mod answer;
mod answered;
mod gateway;
mod laws;
mod reply;
mod session;
mod shipped;
mod talk;

pub use answer::{
    Ending, Stated, all_or_nothing, ending_of, is_faulty, push_answer, push_body, push_headers,
};
pub use gateway::{
    WSGI_MULTIPROCESS, WSGI_MULTITHREAD, WSGI_RUN_ONCE, WSGI_URL_SCHEME, WSGI_VERSION,
};
pub use http_messages::{Bytes, Environ, Headers};
pub use laws::{sessions_join_their_pieces, sessions_never_take_back};
pub use reply::{Application, Pieces, Reply, Response};
pub use session::{Session, SessionPhase, SessionStage};
pub use shipped::{Route, ShippedApp, path_of, whole_reply};
pub use talk::Talk;
