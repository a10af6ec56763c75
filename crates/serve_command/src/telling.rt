//! What a server tells before the first connection and after the last.
ghost use Rattle.std.specs.Prelude.{◌≡◌, ◌≢◌, ◌≤◌, Err, IfErr, IfOk, IsErrOf, OnOk};
ghost use Rattle.gv_io.specs.Streams.{AppendsPrefix, Extends, appended};
ghost use Rattle.gv_values.specs.Counts.{HasRisen};
ghost use Rattle.stream_net.specs.Net.{IsFresh, listens_at};
ghost use Rattle.serve_command.specs.Endings.{IsUnopened, Stays};
ghost use Rattle.serve_command.specs.Serving.{listening, served};

use crate::lines::{Unwritten, write_line};
use crate::serving::Served;
use gv_io::Sink;
use std::alloc::Global;
use stream_net::Net;

/// The end of a line that isn't out.
fn unwritten(refusal: Unwritten) -> Served
    ensures fault { result ≡ Served.WriteFault → refusal ≡ Unwritten.Fault }
    ensures memory { result ≢ Served.WriteFault → refusal ≡ Unwritten.Memory }
    ensures unfinished { result ≡ Served.Finished → ⊥ }
    ensures not_listener { result ≡ Served.Listener → ⊥ }
    ensures not_jobs { result ≡ Served.NoJobs → ⊥ }
{
    match refusal {
        Unwritten::Fault => Served::WriteFault,
        Unwritten::Memory => Served::Memory,
    }
}

/// Listens at the port, or at any for 0, and tells the one that it took. After an `Err` nobody was accepted.
pub fn open_port<K: Sink, N: Net>(
    alloc: Global,
    port: u16,
    out: &mut K,
    net: &mut N,
) -> Result<u16, Served>
    requires fresh { IsFresh (N.meaning net.old) }
    ensures listens { IfOk result (λ taken. (N.meaning net.new).listens ≡ listens_at port taken) }
    ensures told { IfOk result (λ taken. K.written out.new ≡ appended (K.written out.old) (listening taken)) }
    ensures handed { OnOk result (K.handed out.new ≡ K.written out.new) }
    ensures fresh { IsFresh (N.meaning net.new) }
    ensures unopened { IfErr result (λ end. IsUnopened end port (N.meaning net.new) (K.written out.old) (K.written out.new)) }
    ensures unhanded { IfErr result (λ end. K.handed out.old ≡ K.written out.old → end ≢ Served.WriteFault → end ≢ Served.Memory → K.handed out.new ≡ K.written out.new) }
    ensures listener { IsErrOf result Served.Listener → HasRisen (N.meaning net.old).faults (N.meaning net.new).faults }
    ensures net_unfailed { result ≢ Err Served.Listener → (N.meaning net.new).faults ≡ (N.meaning net.old).faults }
    ensures write_fault { IsErrOf result Served.WriteFault → HasRisen (K.faults out.old) (K.faults out.new) }
    ensures out_unfailed { result ≢ Err Served.WriteFault → K.faults out.new ≡ K.faults out.old }
    ensures net_never_falls { (N.meaning net.old).faults ≤ (N.meaning net.new).faults }
    ensures out_never_falls { K.faults out.old ≤ K.faults out.new }
{
    let Ok(port) = net.listen(port) else {
        return Err(Served::Listener);
    };
    match write_line(alloc, b"listening", u64::from(port), out) {
        Ok(()) => Ok(port),
        Err(refusal) => Err(unwritten(refusal)),
    }
}

/// Tells how many were served, where the server finished. Every other end stays.
pub fn tell_end<K: Sink>(alloc: Global, end: Served, conns: u32, out: &mut K) -> Served
    ensures told { result ≡ Served.Finished → K.written out.new ≡ appended (K.written out.old) (served conns) }
    ensures begins { AppendsPrefix (K.written out.old) (K.written out.new) (served conns) }
    ensures silent { result ≢ Served.Finished → result ≢ Served.WriteFault → K.written out.new ≡ K.written out.old }
    ensures stays { Stays end result }
    ensures handed { K.handed out.old ≡ K.written out.old → result ≢ Served.WriteFault → result ≢ Served.Memory → K.handed out.new ≡ K.written out.new }
    ensures never_taken_back { Extends (K.handed out.old) (K.handed out.new) }
    ensures write_fault { result ≡ Served.WriteFault → end ≢ Served.WriteFault → HasRisen (K.faults out.old) (K.faults out.new) }
    ensures unfailed { result ≢ Served.WriteFault → K.faults out.new ≡ K.faults out.old }
    ensures never_falls { K.faults out.old ≤ K.faults out.new }
{
    match end {
        Served::Finished => match write_line(alloc, b"served", u64::from(conns), out) {
            Ok(()) => Served::Finished,
            Err(refusal) => unwritten(refusal),
        },
        _ => end,
    }
}
