//! The same, where native workers answer the requests for jobs.
ghost use Rattle.std.specs.Prelude.{◌≡◌, ◌≢◌, ◌⊎◌, ◌≤◌, true, []};
ghost use Rattle.gv_values.specs.Counts.{HasRisen};
ghost use Rattle.stream_net.specs.Net.{IsFresh};
ghost use Rattle.stream_server.specs.Ranges.{IsInRange};
ghost use Rattle.serve_command.specs.Serving.{IsToldFirst};
ghost use Rattle.serve_command.specs.Jobs.{ServesJobsAt};
ghost use Rattle.wsgi_native.specs.Tied.{HasPosted, IsInOrder};

use crate::serving::Served;
use crate::telling::{open_port, tell_end};
use gv_io::Sink;
use std::alloc::Global;
use std::sync::Wait;
use stream_net::Net;
use stream_server::Terms;
use world::World;
use wsgi_native::{JobsEnd, serve_jobs};

/// The end of a server with jobs.
fn served_end(end: JobsEnd) -> Served
    ensures finished { result ≡ Served.Finished → end ≡ JobsEnd.Finished }
    ensures listener { result ≡ Served.Listener → end ≡ JobsEnd.Listener }
    ensures other { result ≢ Served.Listener → end ≢ JobsEnd.Listener }
    ensures no_line { result ≢ Served.WriteFault }
    ensures no_jobs { result ≡ Served.NoJobs → end ≡ JobsEnd.NoJobs }
    ensures spent { (end ≡ JobsEnd.NoJobs) ⊎ (end ≡ JobsEnd.Memory) → (result ≡ Served.NoJobs) ⊎ (result ≡ Served.Memory) }
{
    match end {
        JobsEnd::Finished => Served::Finished,
        JobsEnd::Listener => Served::Listener,
        JobsEnd::NoJobs => Served::NoJobs,
        JobsEnd::Memory => Served::Memory,
    }
}

/// Does as `serve_command` does over HTTP, but that the requests for `/job/KIND/INTEGER` are answered by jobs of the
/// world, as `wsgi_native::serve_jobs` says, and all others as the shipped application answers them.
///
/// After every end but `Finished` the connections that are open stay open. The world still runs.
pub fn serve_jobs_command<K: Sink, N: Net, W: World, H: Wait>(
    rt: &H,
    alloc: Global,
    terms: Terms,
    out: &mut K,
    net: &mut N,
    world: &mut W,
) -> Served
    requires fresh { IsFresh (N.meaning net.old) }
    requires in_range { IsInRange terms.limits }
    requires runs { (W.meaning world.old).runs ≡ true }
    requires no_posts { (W.meaning world.old).posts ≡ [] }
    requires no_answers { (W.meaning world.old).answers ≡ [] }
    requires log { W.stands_for world.old [] }
    ensures serves { ServesJobsAt result terms.port terms.limits (N.meaning net.new) (W.meaning world.new) (K.written out.old) (K.written out.new) }
    ensures told { IsToldFirst terms.port (N.meaning net.new) (K.written out.old) (K.handed out.new) }
    ensures handed { K.handed out.old ≡ K.written out.old → result ≢ Served.WriteFault → result ≢ Served.Memory → K.handed out.new ≡ K.written out.new }
    ensures listener { result ≡ Served.Listener → HasRisen (N.meaning net.old).faults (N.meaning net.new).faults }
    ensures write_fault { result ≡ Served.WriteFault → HasRisen (K.faults out.old) (K.faults out.new) }
    ensures net_unfailed { result ≢ Served.Listener → (N.meaning net.new).faults ≡ (N.meaning net.old).faults }
    ensures out_unfailed { result ≢ Served.WriteFault → K.faults out.new ≡ K.faults out.old }
    ensures net_never_falls { (N.meaning net.old).faults ≤ (N.meaning net.new).faults }
    ensures out_never_falls { K.faults out.old ≤ K.faults out.new }
    // The world still runs, with as many workers, and each job that it answered was posted.
    ensures in_order { IsInOrder (W.meaning world.new) }
    // What was posted has the numbers from 1, in order, and takes none of the world's own time.
    ensures posted { HasPosted (W.meaning world.new) (W.stands_for world.new) }
    ensures workers { (W.meaning world.new).workers ≡ (W.meaning world.old).workers }
{
    let limits = terms.limits;
    let port = match open_port(alloc, terms.port, out, net) {
        Ok(port) => port,
        Err(end) => return end,
    };
    let end = served_end(serve_jobs(rt, alloc, net, world, port, limits));
    tell_end(alloc, end, limits.conns, out)
}
