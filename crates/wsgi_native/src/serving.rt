//! A server whose requests for jobs are answered by a world.
ghost use Rattle.std.specs.Prelude.{◌≡◌, ◌≢◌, ◌⊎◌, ◌≤◌, true, false, List, [], length, IsSome};
ghost use Rattle.std.specs.List.{All};
ghost use Rattle.gv_values.specs.Counts.{HasRisen};
ghost use Rattle.stream_net.specs.Net.{IsAtRest, IsFresh};
ghost use Rattle.stream_server.specs.Serving.{AllBut, BeginsSo, Cause, EachTold, IsAllServed, IsClosedWell, WaitsToRead};
ghost use Rattle.stream_server.specs.Ranges.{IsInRange};
ghost use Rattle.wsgi_core.specs.Session.{session};
ghost use Rattle.wsgi_native.specs.Agreeing.{HasEarned};
ghost use Rattle.wsgi_native.specs.Ends.{IsOutOfJobs};
ghost use Rattle.wsgi_native.specs.JobApp.{job_app};
ghost use Rattle.wsgi_native.specs.Tied.{HasPosted, IsInOrder};

use crate::job_talk::JobTalk;
use crate::jobs::Jobs;
use std::alloc::Global;
use std::sync::Wait;
use stream_net::Net;
use stream_server::{Limits, ServiceEnd, Terms, serve_on};
use world::World;

/// How a server with jobs ended.
#[derive(Clone, Copy, Debug, PartialEq, Eq)]
pub enum JobsEnd {
    /// So many connections as it was to serve were accepted and closed.
    Finished,
    /// The listener failed.
    Listener,
    /// One more job is asked for than have numbers. The live connections stay open.
    NoJobs,
    /// Memory ran out. The live connections stay open.
    Memory,
}

/// The same end of a server with jobs.
fn end_of(end: ServiceEnd) -> JobsEnd
    ensures finished { result ≡ JobsEnd.Finished → end ≡ ServiceEnd.Finished }
    ensures listener { result ≡ JobsEnd.Listener → end ≡ ServiceEnd.Listener }
    ensures no_jobs { result ≡ JobsEnd.NoJobs → end ≡ ServiceEnd.Spent }
    ensures other { result ≢ JobsEnd.Listener → end ≢ ServiceEnd.Listener }
{
    match end {
        ServiceEnd::Finished => JobsEnd::Finished,
        ServiceEnd::Listener => JobsEnd::Listener,
        ServiceEnd::Spent => JobsEnd::NoJobs,
        ServiceEnd::Memory => JobsEnd::Memory,
    }
}

/// Serves connections, each with an HTTP session of its own (RFC 9112), as `stream_server::serve` does, but that the
/// requests for `/job/KIND/INTEGER` are answered by jobs of the world: each is posted under the next number, from 1, and
/// its connection is held until the world answers that number. The others go on meanwhile. Every other request is
/// answered as the shipped application answers it.
///
/// After `Listener`, `NoJobs` and `Memory` the connections that are open stay open. Nothing is promised of a world that
/// never answers.
pub fn serve_jobs<N: Net, W: World, H: Wait>(
    rt: &H,
    alloc: Global,
    net: &mut N,
    world: &mut W,
    port: u16,
    limits: Limits,
) -> JobsEnd
    requires listens { IsSome (N.meaning net.old).listens }
    requires fresh { IsFresh (N.meaning net.old) }
    requires in_range { IsInRange limits }
    requires runs { (W.meaning world.old).runs ≡ true }
    requires no_posts { (W.meaning world.old).posts ≡ [] }
    requires no_answers { (W.meaning world.old).answers ≡ [] }
    requires log { W.stands_for world.old [] }
    // Each connection by itself, in whichever order the world answers: what was written begins what the session of what
    // was read from it sends.
    ensures own { EachTold (N.meaning net.new).connections (λ c bytes out. BeginsSo (session job_app port bytes c.ended).bytes out) }
    // It is all of it where the connection was closed without a fault of its own and no write of it is waited for.
    ensures whole { EachTold (N.meaning net.new).connections (λ c bytes out. IsClosedWell c → out ≡ (session job_app port bytes c.ended).bytes) }
    // An open connection was left to wait for bytes only after all that was due had been written.
    ensures answered { EachTold (N.meaning net.new).connections (λ c bytes out. WaitsToRead c → out ≡ (session job_app port bytes c.ended).bytes) }
    // Each request for a job that was answered has a posted job of its own, which the world had answered.
    ensures earned { HasEarned port (N.meaning net.new).connections (W.meaning world.new) }
    ensures most { (N.meaning net.new).most ≤ limits.pool }
    // At any end so many were accepted at most.
    ensures within { length (N.meaning net.new).connections ≤ limits.conns }
    ensures cause { EachTold (N.meaning net.new).connections (λ c bytes out. c.closed ≡ true → Cause (session job_app port bytes c.ended) out limits.idle c) }
    ensures finished { result ≡ JobsEnd.Finished → IsAllServed (N.meaning net.new) limits.conns }
    // At any end all open connections but one wait, by a read or by a write, or are held for a job; where the listener
    // failed, all do.
    ensures rest_but { AllBut IsAtRest (N.meaning net.new).connections }
    ensures resting { result ≡ JobsEnd.Listener → All IsAtRest (N.meaning net.new).connections }
    ensures listener { result ≡ JobsEnd.Listener → HasRisen (N.meaning net.old).faults (N.meaning net.new).faults }
    ensures unfailed { result ≢ JobsEnd.Listener → (N.meaning net.new).faults ≡ (N.meaning net.old).faults }
    ensures listens { (N.meaning net.new).listens ≡ (N.meaning net.old).listens }
    ensures never_falls { (N.meaning net.old).faults ≤ (N.meaning net.new).faults }
    // `NoJobs` comes exactly where the last job that has a number was posted and the request of a live connection asks
    // for one more, but that memory may run out at that.
    ensures no_jobs { result ≡ JobsEnd.NoJobs → IsOutOfJobs port (N.meaning net.new) (W.meaning world.new) }
    ensures out_of_jobs { IsOutOfJobs port (N.meaning net.new) (W.meaning world.new) → (result ≡ JobsEnd.NoJobs) ⊎ (result ≡ JobsEnd.Memory) }
    // The world still runs, with as many workers, and each job that it answered was posted.
    ensures in_order { IsInOrder (W.meaning world.new) }
    // What was posted has the numbers from 1, in order, and takes none of the world's own time.
    ensures posted { HasPosted (W.meaning world.new) (W.stands_for world.new) }
    ensures workers { (W.meaning world.new).workers ≡ (W.meaning world.old).workers }
{
    let mut jobs = Jobs::new(alloc);
    let terms = Terms { port, limits };
    let end = serve_on::<JobTalk, W, Jobs, N, H>(rt, alloc, net, &mut jobs, world, terms);
    end_of(end)
}
