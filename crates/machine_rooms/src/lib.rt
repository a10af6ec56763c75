//! What is counted of a state of the machine, what pays for it, and what room for more small steps is. Requests take no
//! more steps than their moves pay for. A law of the machine's definitions, as the contract of a function without a body
//! of its own; the laws of whole runs are those of `machine_reached`.
#![tactic(auto)]

ghost use Rattle.machine_rooms.specs.Rooms.{RoomIsAmple};

/// Where there is room for steps, in the midst of a step too, each count is far below what its type holds.
pub fn room_is_ample()
    ensures { RoomIsAmple }
{}
