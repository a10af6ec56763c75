//! A session that may wait for the reply of an application server.
ghost use Rattle.std.specs.Prelude.{◌≡◌, ◌≤◌, None};
ghost use Rattle.wsgi_core.specs.Steps.{asked_of};
ghost use Rattle.wsgi_relay.specs.Asking.{IsAskedFor};
ghost use Rattle.wsgi_relay.specs.Talks.{deadline_in};

use relay_core::can_be_handed;
use stream_server::Client;
use wsgi_core::Session;

/// A session, and what its connection is held for, if it is held.
#[derive(Drop)]
pub struct RelayTalk {
    /// The session.
    pub session: Session,
    /// Where it is held for a reply, the deadline that it had before.
    pub held: Option<u64>,
}

/// What a session asks for.
#[derive(Clone, Copy, Debug, PartialEq, Eq)]
pub enum Request {
    /// Nothing.
    Nothing,
    /// To be handed on.
    Handed,
    /// What can't be handed on, since a pair has a NUL.
    Refused,
}

/// What the session asks for.
pub fn asked_for(session: &Session) -> Request
    ensures { IsAskedFor (asked_of session.now) result }
{
    match session.asked() {
        None => Request::Nothing,
        Some((environ, _)) => {
            if can_be_handed(environ) {
                Request::Handed
            } else {
                Request::Refused
            }
        }
    }
}

/// The client, held no longer. Its deadline is this one, but not before the one that it had.
pub fn freed(client: Client<RelayTalk>, deadline: u64) -> Client<RelayTalk>
    ensures conn { result.conn ≡ client.conn }
    ensures session { result.talk.session ≡ client.talk.session }
    ensures free { result.talk.held ≡ None }
    ensures ended { result.ended ≡ client.ended }
    ensures later { deadline_in client.talk.held ≤ result.deadline }
    ensures again { deadline ≤ result.deadline }
{
    let Client {
        conn,
        talk,
        ended,
        ..
    } = client;
    let kept = match talk.held {
        Some(held) => held,
        None => 0,
    };
    Client {
        conn,
        talk: RelayTalk {
            session: talk.session,
            held: None,
        },
        ended,
        deadline: deadline.max(kept),
    }
}
