//! The optional parts of a line.
#![tactic(auto, using(crate::proofs::Words::through))]

ghost use Rattle.std.specs.Prelude.{◌≡◌, ℕ};
ghost use Rattle.scenario_grammar.specs.Token.{◌▹◌, perhaps};
ghost use Rattle.scenario_grammar.specs.Token.{number as in_range};
ghost use Rattle.scenario_grammar.specs.Phrase.{count_tokens, flag, marked, takes_tokens, timed_tokens, wait_tokens, within};
ghost use Rattle.scenario_print.specs.Written.{Wrote};

use crate::expression::push_expression;
use crate::word::{push_fixed, push_number};
use scenario_grammar::Keyword;
use scenario_tree::{Expression, Timed, Wait};
use std::alloc::AllocError;

/// A fixed word and a number, where there is one.
fn push_numbered(word: Keyword, number: Option<u64>, out: &mut Vec<u8>) -> Result<(), AllocError>
    ensures { (least greatest : ℕ) → Wrote out.old.items out.new.items result (perhaps (λ n. word ▹ in_range least greatest n) number) }
{
    match number {
        None => Ok(()),
        Some(number) => {
            push_fixed(word, out)?;
            push_number(number, out)
        }
    }
}

/// `within` and the time, where there is one.
pub(crate) fn push_timed(time: Timed, out: &mut Vec<u8>) -> Result<(), AllocError>
    ensures { Wrote out.old.items out.new.items result (timed_tokens time) }
{
    match time {
        None => Ok(()),
        Some(time) => push_within(time, out),
    }
}

/// `within` and the time.
fn push_within(time: u32, out: &mut Vec<u8>) -> Result<(), AllocError>
    ensures { Wrote out.old.items out.new.items result (within time) }
{
    push_fixed(Keyword::Within, out)?;
    push_number(u64::from(time), out)
}

/// `count` and the number, where there is one.
pub(crate) fn push_count(count: Option<u64>, out: &mut Vec<u8>) -> Result<(), AllocError>
    ensures { Wrote out.old.items out.new.items result (count_tokens count) }
{
    push_numbered(Keyword::Count, count, out)
}

/// `takes` and the time, where there is one.
pub(crate) fn push_takes(time: Option<u64>, out: &mut Vec<u8>) -> Result<(), AllocError>
    ensures { Wrote out.old.items out.new.items result (takes_tokens time) }
{
    push_numbered(Keyword::Takes, time, out)
}

/// A fixed word and an expression, where there is one.
pub(crate) fn push_marked(
    word: Keyword,
    e: &Option<Expression>,
    out: &mut Vec<u8>,
) -> Result<(), AllocError>
    ensures { Wrote out.old.items out.new.items result (marked word e.now) }
{
    match e {
        None => Ok(()),
        Some(e) => {
            push_fixed(word, out)?;
            push_expression(e, out)
        }
    }
}

/// `within` and the time, `now`, or nothing.
pub(crate) fn push_wait(wait: Wait, out: &mut Vec<u8>) -> Result<(), AllocError>
    ensures { Wrote out.old.items out.new.items result (wait_tokens wait) }
{
    match wait {
        Wait::Block => Ok(()),
        Wait::Within(time) => push_within(time, out),
        Wait::Now => push_fixed(Keyword::Now, out),
    }
}

/// A fixed word, where it is to stand there.
pub(crate) fn push_flag(word: Keyword, is_set: bool, out: &mut Vec<u8>) -> Result<(), AllocError>
    ensures { Wrote out.old.items out.new.items result (flag word is_set) }
{
    if is_set {
        push_fixed(word, out)
    } else {
        Ok(())
    }
}
