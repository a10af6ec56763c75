//! What a park line says is waited for.
ghost use Rattle.std.specs.Prelude.{◌≡◌, IfSome};
ghost use Rattle.hub_requests.specs.Awaited.{awaited_of, object_of};
ghost use Rattle.hub_requests.specs.Naming.{IsObject};

use gv_values::Whom;
use hub_state::Hub;
use machine::items::Waiting;
use trace_text::Awaited;

/// What the park line of the wait says, but where one greenlet or the members of a group or pool were killed.
#[tactic(auto, using(crate::proofs::Named::waits_there))]
pub fn awaited_of(hub: &Hub, waiting: &Waiting) -> Awaited
    requires named { IfSome (object_of waiting.now) (IsObject hub.now.scenario) }
    ensures { result ≡ awaited_of waiting.now hub.now }
{
    match waiting {
        Waiting::Sleep(_) => Awaited::Sleep,
        Waiting::Join(g) => Awaited::Join(Whom::Greenlet(*g)),
        Waiting::Get(whom) => Awaited::Get(*whom),
        Waiting::Kill(_) => Awaited::KillAll,
        Waiting::JoinAll(_, _) => Awaited::JoinAll,
        Waiting::Event(o, _) => Awaited::Wait(hub.name_of_object(*o)),
        Waiting::ResultGet(o) => Awaited::ResultGet(hub.name_of_object(*o)),
        Waiting::ResultWait(o) => Awaited::ResultWait(hub.name_of_object(*o)),
        Waiting::Acquire(o) => Awaited::Acquire(hub.name_of_object(*o)),
        Waiting::Lock(o) => Awaited::Acquire(hub.name_of_object(*o)),
        Waiting::Put(o, _) => Awaited::QueuePut(hub.name_of_object(*o)),
        Waiting::Take(o) => Awaited::QueueGet(hub.name_of_object(*o)),
        Waiting::Peek(o) => Awaited::QueuePeek(hub.name_of_object(*o)),
        Waiting::Tasks(o) => Awaited::QueueJoin(hub.name_of_object(*o)),
        Waiting::Place(o, _, _) => Awaited::GroupSpawn(hub.name_of_object(*o)),
        Waiting::MapPlace(o, _, _, _) => Awaited::Map(hub.name_of_object(*o)),
        Waiting::MapEnd(o, _) => Awaited::Map(hub.name_of_object(*o)),
        Waiting::Members(o) => Awaited::GroupJoin(hub.name_of_object(*o)),
        Waiting::Slot(o, _, _) => Awaited::NativeSpawn(hub.name_of_object(*o)),
        Waiting::Offered(o) => Awaited::ChannelPut(hub.name_of_object(*o)),
        Waiting::TakeOffer(o) => Awaited::ChannelGet(hub.name_of_object(*o)),
    }
}
