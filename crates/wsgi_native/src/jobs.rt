//! The jobs that requests ask for, posted to a world, and the connections that wait for their results.
ghost use Rattle.std.specs.Prelude.{◌≡◌, ◌≢◌, ℕ, ◌+◌, ◌<◌, ◌≤◌, true, false, List, Option, Some, None, nat_eq, IfOk, OnOk, OnErr};
ghost use Rattle.std.specs.HashMap.{get};
ghost use Rattle.wsgi_core.specs.Applications.{App};
ghost use Rattle.wsgi_core.specs.Steps.{asked_of};
ghost use Rattle.stream_server.specs.Owning.{OwnOnce};
ghost use Rattle.stream_server.specs.Protocols.{Apps};
ghost use Rattle.world_rules.specs.Legal.{is_posted};
ghost use Rattle.stream_server.specs.Services.{BeginsAgain};
ghost use Rattle.stream_server.specs.Tables.{IsListed, SeenTable};
ghost use Rattle.stream_server.specs.declared.client.Client.{Client};
ghost use Rattle.wsgi_native.specs.declared.job_talk.JobTalk.{JobTalk};
ghost use Rattle.wsgi_native.specs.declared.jobs.TheConstants.{LAST_JOB};
ghost use Rattle.wsgi_native.specs.Agreeing.{IsPosted};
ghost use Rattle.wsgi_native.specs.Asking.{AsksForJob, HasAsked, WantsJob};
ghost use Rattle.wsgi_native.specs.Giving.{Gives};
ghost use Rattle.wsgi_native.specs.JobApp.{job_app};
ghost use Rattle.wsgi_native.specs.Owning.{AllAgree, owner_in};
ghost use Rattle.wsgi_native.specs.Talks.{job_protocol, rank_of};
ghost use Rattle.wsgi_native.specs.Tied.{HasPosted, HasPostedTo, HaveOwners, HaveOwnersBut, IsInOrder, IsTied, IsTiedBut};

use crate::job_app::{job_asked, job_reply};
use crate::job_talk::{Asked, HeldFor, JobTalk, asked_for, freed};
use crate::owners::{OwnedJob, Owners};
use gv_values::{Answer, Job, JobOutcome};
use std::alloc::{AllocError, Global};
use std::collections::HashMap;
use stream_server::{Client, ClientTable, HoldRefusal, NEVER, Polled, Replied, Service};
use world::{Question, World};
use wsgi_core::{Session, SessionPhase};

/// How long a net is waited for at most that is woken by what a world gives, in milliseconds.
const REST: u64 = 1000;

/// The greatest number of a job.
pub const LAST_JOB: u32 = u32::MAX;

/// The connections that wait for a job, by the numbers of the jobs. Jobs are numbered from 1 in the order of their
/// posts, up to `LAST_JOB`.
#[derive(Drop)]
pub struct Jobs {
    alloc: Global,
    // How many were posted.
    posted: u32,
    // The connection of each that was not answered.
    waiting: HashMap<u32, u32>,
    // For whom each was posted.
    owners: Owners,
    // Whether the world may have a result of which nothing will be heard: a job was posted, or a result came, since
    // it was last asked in vain.
    stirred: bool,
}

impl Jobs {
    /// No jobs.
    pub fn new(alloc: Global) -> Jobs
        ensures none { result.posted ≡ 0 }
        ensures nobody { (number : ℕ) → get nat_eq result.waiting number ≡ None }
    {
        Jobs {
            alloc,
            posted: 0,
            waiting: HashMap::new(alloc),
            owners: Owners::none(),
            stirred: false,
        }
    }
}

/// Gives a client the result of the job that it waits for.
fn give(
    alloc: Global,
    client: Client<JobTalk>,
    outcome: JobOutcome,
    deadline: u64,
) -> Polled<JobTalk>
    requires { HasAsked client.talk }
    ensures gives { Gives result outcome client }
    ensures again { BeginsAgain result deadline }
{
    let Ok(reply) = job_reply(alloc, outcome) else {
        return Polled::Memory;
    };
    let mut client = client;
    if client.talk.session.answer(reply).is_err() {
        return Polled::Memory;
    }
    Polled::Released(freed(client, deadline))
}

/// The job for which the request that waits asks.
fn wanted_job(talk: &JobTalk) -> Job
    requires { AsksForJob talk.now }
    ensures { WantsJob talk.now result }
{
    match talk.session.asked() {
        // The requires says that a request waits.
        None => unreachable!(),
        Some((environ, _)) => match job_asked(environ) {
            // The requires says that it asks for a job.
            None => unreachable!(),
            Some(job) => job,
        },
    }
}

/// Whether the answer is the result of a job.
fn is_result(answer: &Answer) -> bool {
    matches!(answer, Answer::Done { .. })
}

impl<W: World> Service<JobTalk, W> for Jobs {
    ghost protocol = { job_protocol };

    ghost rank = { rank_of };

    ghost fits = { λ jobs world apps. AllAgree (owner_in jobs.owners.list) (W.meaning world) apps };

    ghost one = { λ jobs world conn. job_app };

    ghost tied = { λ jobs world table accepted. IsTied (W.meaning world) (owner_in jobs.owners.list) jobs.posted (get nat_eq jobs.waiting) (IsListed table) accepted × HasPostedTo jobs.posted (W.meaning world) (W.stands_for world) × HaveOwners (W.meaning world).posts (owner_in jobs.owners.list) (IsListed table) accepted };

    ghost tied_but = { λ jobs world table accepted conn low. IsTiedBut (W.meaning world) (owner_in jobs.owners.list) jobs.posted (get nat_eq jobs.waiting) (IsListed table) accepted conn × HasPostedTo jobs.posted (W.meaning world) (W.stands_for world) × HaveOwnersBut (W.meaning world).posts (owner_in jobs.owners.list) (IsListed table) accepted conn low };

    ghost sound = { λ jobs world. IsInOrder (W.meaning world) × HasPosted (W.meaning world) (W.stands_for world) × OwnOnce (IsPosted (W.meaning world).posts) (owner_in jobs.owners.list) };

    ghost wants = { AsksForJob };

    ghost spent = { λ jobs world. is_posted LAST_JOB (W.meaning world).posts ≡ true };

    ghost lasting = { λ world. ((W.meaning world).workers, None) };

    fn begin(&self, port: u16) -> JobTalk {
        JobTalk {
            session: Session::new(self.alloc, port),
            held: None,
        }
    }

    fn pending<'a>(&self, talk: &'a JobTalk) -> &'a [u8] {
        talk.session.pending()
    }

    fn took(&self, talk: &mut JobTalk, count: usize) {
        talk.session.took(count)
    }

    fn end(&self, talk: &mut JobTalk) {
        talk.session.end()
    }

    fn phase(&self, talk: &JobTalk) -> SessionPhase {
        talk.session.phase()
    }

    fn feed(&self, talk: &mut JobTalk, piece: &[u8]) -> Result<(), AllocError> {
        match talk.session.take_in(piece) {
            Ok(()) => Ok(()),
            Err(refusal) => Err(refusal),
        }
    }

    fn reply(&self, talk: &mut JobTalk) -> Replied {
        let Ok(asked) = asked_for(self.alloc, &talk.session) else {
            return Replied::Memory;
        };
        match asked {
            Asked::Nothing => Replied::NoRequest,
            Asked::AJob(_) => Replied::Asks,
            Asked::AReply(reply) => match talk.session.answer(reply) {
                Ok(()) => Replied::Given,
                Err(_) => Replied::Memory,
            },
        }
    }

    /// Posts the job that the client asks for under the next number.
    fn hold(&mut self, world: &mut W, client: &mut Client<JobTalk>) -> Result<(), HoldRefusal> {
        if self.posted == LAST_JOB {
            return Err(HoldRefusal::Spent);
        }
        let job = wanted_job(&client.talk);
        let number = self.posted + 1;
        if self.waiting.insert(number, client.conn).is_err() {
            return Err(HoldRefusal::Memory);
        }
        if world.post(number, job, 0).is_err() {
            return Err(HoldRefusal::Memory);
        }
        self.posted = number;
        self.stirred = true;
        self.owners = self.owners.and(&OwnedJob {
            number,
            conn: client.conn,
            session: &client.talk.session,
        });
        client.talk.held = Some(HeldFor {
            job: number,
            deadline: client.deadline,
        });
        client.deadline = NEVER;
        Ok(())
    }

    fn poll(
        &mut self,
        world: &mut W,
        table: &mut ClientTable<JobTalk>,
        deadline: u64,
    ) -> Polled<JobTalk> {
        let Ok(answer) = world.ask(Question::Poll) else {
            return Polled::Memory;
        };
        self.stirred = is_result(&answer);
        match answer {
            Answer::Done {
                number,
                outcome,
                ..
            } => {
                let Some(conn) = self.waiting.remove(&number) else {
                    // Each posted job that has no answer has its connection here.
                    unreachable!()
                };
                let Some(client) = table.remove(conn) else {
                    // A connection that waits for a job is listed.
                    unreachable!()
                };
                give(self.alloc, client, outcome, deadline)
            }
            Answer::Elapsed { .. } => Polled::Nobody,
            Answer::Nothing { .. } => Polled::Nobody,
        }
    }

    fn is_held(&self, talk: &JobTalk) -> bool {
        talk.held.is_some()
    }

    fn is_idle(&self) -> bool {
        self.waiting.is_empty()
    }

    /// A millisecond where the net is not woken by the world; and not at all where there may be more at once.
    fn until(&self, now: u64, is_woken: bool) -> u64 {
        if !is_woken {
            return now.saturating_add(1);
        }
        if self.stirred {
            return now;
        }
        now.saturating_add(REST)
    }

    ghost use Rattle.wsgi_native.specs.Laws as laws;

    ghost lawful = { laws.job_lawful };

    ghost fits_one = { λ jobs world. laws.job_agrees (owner_in jobs.owners.list) (W.meaning world) };

    ghost tied_new = { λ jobs world table now accepted tied same. (laws.tied_new (W.meaning world) (owner_in jobs.owners.list) jobs.posted (get nat_eq jobs.waiting) (IsListed table) (IsListed now) accepted tied.0 same, tied.1, laws.owners_new (W.meaning world).posts (owner_in jobs.owners.list) (IsListed table) (IsListed now) accepted tied.2 same) };

    ghost tied_again = { λ jobs world table now accepted conn low tied beside from. (laws.tied_again (W.meaning world) (owner_in jobs.owners.list) jobs.posted (get nat_eq jobs.waiting) (IsListed table) (IsListed now) accepted conn tied.0 beside, tied.1, laws.owners_again (W.meaning world).posts (owner_in jobs.owners.list) (IsListed table) (IsListed now) accepted conn low tied.2 beside from) };

    ghost tied_out = { λ jobs world table now accepted conn client tied listed free beside. (laws.tied_out (W.meaning world) (owner_in jobs.owners.list) jobs.posted (get nat_eq jobs.waiting) (IsListed table) (IsListed now) accepted conn client tied.0 listed free beside, tied.1, laws.owners_out (W.meaning world).posts (owner_in jobs.owners.list) (IsListed table) (IsListed now) accepted conn client tied.2 listed free beside) };
}
