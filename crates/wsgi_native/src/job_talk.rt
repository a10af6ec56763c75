//! A session that may wait for the result of a job.
ghost use Rattle.std.specs.Prelude.{◌≡◌, ◌≤◌, None, IfOk};
ghost use Rattle.wsgi_core.specs.Steps.{asked_of};
ghost use Rattle.wsgi_native.specs.Asking.{IsAskedFor};
ghost use Rattle.wsgi_native.specs.Talks.{deadline_in};

use crate::job_app::job_asked;
use gv_values::Job;
use std::alloc::{AllocError, Global};
use stream_server::Client;
use wsgi_core::{Application, Reply, Session, ShippedApp};

/// For what a connection is held.
#[derive(Clone, Copy, Debug, PartialEq, Eq)]
pub struct HeldFor {
    /// The number of the job whose result it waits for.
    pub job: u32,
    /// The deadline that it had before.
    pub deadline: u64,
}

/// A session, and what its connection is held for, if it is held.
#[derive(Drop)]
pub struct JobTalk {
    /// The session.
    pub session: Session,
    /// What it waits for.
    pub held: Option<HeldFor>,
}

/// What a session asks for.
#[derive(Drop)]
pub enum Asked {
    /// Nothing.
    Nothing,
    /// This job.
    AJob(Job),
    /// To be given this reply.
    AReply(Reply),
}

/// What the session asks for.
pub fn asked_for(alloc: Global, session: &Session) -> Result<Asked, AllocError>
    ensures { IfOk result (IsAskedFor (asked_of session.now)) }
{
    match session.asked() {
        None => Ok(Asked::Nothing),
        Some((environ, body)) => match job_asked(environ) {
            Some(job) => Ok(Asked::AJob(job)),
            None => Ok(Asked::AReply(ShippedApp.call(alloc, environ, body)?)),
        },
    }
}

/// The client, held no longer. Its deadline is this one, but not before the one that it had.
pub fn freed(client: Client<JobTalk>, deadline: u64) -> Client<JobTalk>
    ensures conn { result.conn ≡ client.conn }
    ensures session { result.talk.session ≡ client.talk.session }
    ensures free { result.talk.held ≡ None }
    ensures ended { result.ended ≡ client.ended }
    ensures later { deadline_in client.talk.held ≤ result.deadline }
    ensures again { deadline ≤ result.deadline }
{
    let Client {
        conn,
        talk,
        ended,
        ..
    } = client;
    let kept = match talk.held {
        Some(held) => held.deadline,
        None => 0,
    };
    Client {
        conn,
        talk: JobTalk {
            session: talk.session,
            held: None,
        },
        ended,
        deadline: deadline.max(kept),
    }
}
