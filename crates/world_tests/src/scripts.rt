ghost use Rattle.std.specs.Prelude.{◌≡◌, true, false};
ghost use Rattle.world_rules.specs.Legal.{MayAsk};

use gv_values::{Answer, FaultKind, Job, JobOutcome};
use std::alloc::{AllocError, Global};
use std::process::Abort;
use std::test::Fail;
use world::{Held, ListWorld, Question, ScriptWorld, World};

/// Whether the world answers the question, and by this.
fn answers<W: World>(world: &mut W, question: Question, expected: Answer) -> bool
    requires runs { (W.meaning world.old).runs ≡ true }
    requires asks { MayAsk (W.meaning world.old).posts (W.meaning world.old).answers question }
    ensures runs { (W.meaning world.new).runs ≡ true }
    ensures posts { (W.meaning world.new).posts ≡ (W.meaning world.old).posts }
{
    match world.ask(question) {
        Ok(answer) => answer == expected,
        Err(_) => false,
    }
}

/// Asserts what a script whose moment grows by 5 at each Poll answers. `AllocError`: memory is wanting.
fn assert_due_first<A: Abort, W: World>(rt: &A, world: &mut W) -> Result<(), AllocError>
    requires { (W.meaning world.old).runs ≡ false }
{
    world.begin(2)?;
    world.post(1, Job::Sum(3), 20)?;
    world.post(2, Job::Fail(7), 8)?;
    assert!(rt; answers(world, Question::Poll, Answer::Nothing { at: 5 }));
    let second = Answer::Done {
        number: 2,
        outcome: JobOutcome::Fault(FaultKind::Error(7)),
        at: 10,
    };
    assert!(rt; answers(world, Question::Poll, second));
    assert!(rt; answers(world, Question::Wait(Some(15)), Answer::Elapsed { at: 15 }));
    let first = Answer::Done {
        number: 1,
        outcome: JobOutcome::Int(6),
        at: 20,
    };
    assert!(rt; answers(world, Question::Wait(Some(30)), first));
    world.finish();
    Ok(())
}

#[test]
fn a_script_answers_what_is_due_first(rt: HostRuntime) {
    let mut world = ScriptWorld::new(rt.alloc(), 5);
    assert!(rt; assert_due_first(&rt, &mut world).is_ok());
    drop(world);
}

/// An answer that is legal once job 2 was posted.
const LISTED: Answer = Answer::Done {
    number: 2,
    outcome: JobOutcome::Int(4),
    at: 3,
};

/// Asserts what a world with that list answers. `AllocError`: memory is wanting.
fn assert_listed<A: Abort, W: World>(rt: &A, world: &mut W) -> Result<(), AllocError>
    requires { (W.meaning world.old).runs ≡ false }
{
    world.begin(1)?;
    world.post(1, Job::Sum(3), 0)?;
    let first = Answer::Done {
        number: 1,
        outcome: JobOutcome::Int(6),
        at: 0,
    };
    assert!(rt; answers(world, Question::Wait(Some(9)), first));
    world.post(2, Job::Echo(4), 0)?;
    assert!(rt; answers(world, Question::Poll, LISTED));
    assert!(rt; answers(world, Question::Poll, Answer::Nothing { at: 3 }));
    world.finish();
    Ok(())
}

#[test]
fn a_list_gives_its_first_answer_where_that_is_legal(rt: HostRuntime) -> Result<(), Fail> {
    let mut world = ListWorld::new(rt.alloc(), vec![in rt.alloc(); LISTED]?);
    assert!(rt; assert_listed(&rt, &mut world).is_ok());
    drop(world);
    Ok(())
}

/// Asserts what a world that holds the results of another answers. `AllocError`: memory is wanting.
fn assert_held<A: Abort, W: World>(rt: &A, world: &mut W) -> Result<(), AllocError>
    requires { (W.meaning world.old).runs ≡ false }
{
    world.begin(2)?;
    world.post(1, Job::Sum(3), 20)?;
    world.post(2, Job::Fail(7), 30)?;
    assert!(rt; answers(world, Question::Poll, Answer::Nothing { at: 0 }));
    let first = Answer::Done {
        number: 1,
        outcome: JobOutcome::Int(6),
        at: 20,
    };
    assert!(rt; answers(world, Question::Wait(Some(25)), first));
    assert!(rt; answers(world, Question::Wait(Some(25)), Answer::Elapsed { at: 25 }));
    let second = Answer::Done {
        number: 2,
        outcome: JobOutcome::Fault(FaultKind::Error(7)),
        at: 30,
    };
    assert!(rt; answers(world, Question::Wait(Some(60)), second));
    world.finish();
    Ok(())
}

/// Asserts the same where this is the other.
fn assert_held_of<A: Abort, W: World>(rt: &A, alloc: Global, inner: &mut W)
    requires { (W.meaning inner.old).runs ≡ false }
{
    let mut world = Held::new(alloc, inner);
    assert!(rt; assert_held(rt, &mut world).is_ok());
    drop(world);
}

/// What the other world answers first.
const ANSWERED: Answer = Answer::Done {
    number: 2,
    outcome: JobOutcome::Fault(FaultKind::Error(7)),
    at: 40,
};

#[test]
fn held_answers_as_a_script_whose_jobs_another_world_does(rt: HostRuntime) -> Result<(), Fail> {
    let mut inner = ListWorld::new(rt.alloc(), vec![in rt.alloc(); ANSWERED]?);
    assert_held_of(&rt, rt.alloc(), &mut inner);
    drop(inner);
    Ok(())
}
