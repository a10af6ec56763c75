//! Why a word is refused.
ghost use Rattle.std.specs.Prelude.{◌≡◌};
ghost use Rattle.std.specs.Option.{is_some};
ghost use Rattle.scenario_rules.specs.Declarations.{is_kind};
ghost use Rattle.name_table.specs.Tables.{found};
ghost use Rattle.scenario_check.specs.Words.{call_reason, give_reason, object_reason, run_reason, use_reason, word_reason};

use name_table::Names;
use scenario_grammar::RuleReason;
use scenario_rules::{Declared, Says, Wanted};
use scenario_tree::{Object, QueueKind};

fn is_kind(kind: Wanted, object: Object) -> bool
    ensures { result ≡ is_kind kind object }
{
    match kind {
        Wanted::Event => matches!(object, Object::Event),
        Wanted::Result => matches!(object, Object::Result),
        Wanted::EventOrResult => matches!(object, Object::Event | Object::Result),
        Wanted::Semaphore => {
            matches!(object, Object::Semaphore(_) | Object::BoundedSemaphore(_))
        }
        Wanted::SemaphoreOrLock => matches!(
            object,
            Object::Semaphore(_) | Object::BoundedSemaphore(_) | Object::Lock
        ),
        Wanted::Queue => matches!(object, Object::Queue(_, _)),
        Wanted::JoinQueue => matches!(object, Object::Queue(QueueKind::Join, _)),
        Wanted::GroupOrPool => matches!(object, Object::Group | Object::Pool(_)),
        Wanted::NativePool => matches!(object, Object::Native(_)),
        Wanted::Channel => matches!(object, Object::Channel),
    }
}

fn use_reason(declared: Option<Declared>, is_local: bool) -> Option<RuleReason>
    ensures { result ≡ use_reason declared is_local }
{
    match declared {
        Some(_) => Some(RuleReason::WrongKind),
        None => {
            if is_local {
                None
            } else {
                Some(RuleReason::Undeclared)
            }
        }
    }
}

fn give_reason(declared: Option<Declared>) -> Option<RuleReason>
    ensures { result ≡ give_reason declared }
{
    match declared {
        Some(_) => Some(RuleReason::WrongKind),
        None => None,
    }
}

fn object_reason(kind: Wanted, declared: Option<Declared>) -> Option<RuleReason>
    ensures { result ≡ object_reason kind declared }
{
    match declared {
        None => Some(RuleReason::Undeclared),
        Some(Declared::Object(object)) => {
            if is_kind(kind, object) {
                None
            } else {
                Some(RuleReason::WrongKind)
            }
        }
        Some(_) => Some(RuleReason::WrongKind),
    }
}

fn call_reason(count: usize, declared: Option<Declared>) -> Option<RuleReason>
    ensures { result ≡ call_reason count declared }
{
    match declared {
        None => Some(RuleReason::Undeclared),
        Some(Declared::Function(parameters)) => {
            if count == parameters {
                None
            } else {
                Some(RuleReason::WrongCount)
            }
        }
        Some(_) => Some(RuleReason::WrongKind),
    }
}

fn run_reason(declared: Option<Declared>) -> Option<RuleReason>
    ensures { result ≡ run_reason declared }
{
    match declared {
        None => Some(RuleReason::Undeclared),
        Some(Declared::RawBody) => None,
        Some(_) => Some(RuleReason::WrongKind),
    }
}

/// Why a word of a function is refused, whose local names these are.
pub(crate) fn word_reason(
    names: &Names<Declared>,
    locals: &Names<u32>,
    is_raw: bool,
    says: Says,
) -> Option<RuleReason>
    ensures { result ≡ word_reason (found names.now) (λ x. is_some (found locals.now x)) is_raw says }
{
    match says {
        Says::Uses(name) => use_reason(
            names.find(name.bytes()),
            locals.find(name.bytes()).is_some(),
        ),
        Says::Gives(name) => give_reason(names.find(name.bytes())),
        Says::Object(kind, name) => object_reason(kind, names.find(name.bytes())),
        Says::Calls(count, name) => call_reason(count, names.find(name.bytes())),
        Says::Runs(name) => run_reason(names.find(name.bytes())),
        Says::AsksHub => {
            if is_raw {
                Some(RuleReason::HubInRawBody)
            } else {
                None
            }
        }
        Says::NestsTooDeep => Some(RuleReason::TimeoutsTooDeep),
    }
}
