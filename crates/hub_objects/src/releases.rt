//! What a release and the end of a task come to.
ghost use Rattle.std.specs.Prelude.{◌≡◌};
ghost use Rattle.std.specs.Option.{option_copied};
ghost use Rattle.machine.specs.Objects.{at_bound};
ghost use Rattle.hub_objects.specs.Releases.{has_task, release_of};

use gv_values::FaultKind;
use machine::state::Object;

/// What a release comes to.
pub enum Release {
    /// This fault; the object stays as it is.
    Refused(FaultKind),
    /// Nothing, at an object that is neither.
    Nothing,
    /// A unit more.
    Unit,
    /// The owner once less.
    Owner,
}

/// What a release by this greenlet comes to.
pub fn release_of(object: Option<&Object>, g: u32) -> Release
    ensures { result ≡ release_of g (option_copied object.entry) }
{
    match object {
        Some(Object::Semaphore(counter, bound)) => {
            if is_at_bound(*counter, *bound) {
                Release::Refused(FaultKind::ValueError)
            } else {
                Release::Unit
            }
        }
        Some(Object::Lock(Some(h), _)) => {
            if g == *h {
                Release::Owner
            } else {
                Release::Refused(FaultKind::RuntimeError)
            }
        }
        Some(Object::Lock(None, _)) => Release::Refused(FaultKind::RuntimeError),
        _ => Release::Nothing,
    }
}

/// Whether a semaphore with this bound takes no unit more.
fn is_at_bound(counter: u64, bound: Option<u64>) -> bool
    ensures { result ≡ at_bound counter bound }
{
    match bound {
        None => false,
        Some(bound) => counter == bound,
    }
}

/// Whether a task of the queue is unfinished.
pub fn has_task(object: Option<&Object>) -> bool
    ensures { result ≡ has_task (option_copied object.entry) }
{
    match object {
        Some(Object::Queue(_, _, _, unfinished, _)) => *unfinished > 0,
        _ => false,
    }
}
