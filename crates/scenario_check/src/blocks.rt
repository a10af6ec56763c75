//! Blocks, and the whole of a function.
ghost use Rattle.std.specs.Prelude.{◌≡◌, [], ◌∷◌, ◌++◌, OnOk, IfOk, map};
ghost use Rattle.scenario_tree.specs.declared.tree.Except.{out-Except};
ghost use Rattle.scenario_rules.specs.Mention.{block_mentions, giving_says, target_says, mentions, on, statement_mentions, timeout_says};
ghost use Rattle.scenario_rules.specs.declared.limits.TheConstants.{MOST_TIMEOUTS};
ghost use Rattle.scenario_rules.specs.Layers.{action_mentions, except_mentions, handler_mentions};
ghost use Rattle.scenario_rules.specs.declared.mention.Says.{Says as Word};

use crate::commands::say_command;
use crate::expressions::{say, say_expression};
use crate::givings::say_giving;
use crate::parts::say_target;
use gv_values::Name;
use scenario_rules::{MOST_TIMEOUTS, Mention, Says};
use scenario_tree::{Action, Except, Function, Giving, Items, Statement};
use std::alloc::{AllocError, Global};

fn say_timeout(said: &mut Items<Mention>, line: u32, left: u32) -> Result<(), AllocError>
    ensures { OnOk result (said.new ≡ said.old ++ on line (timeout_says left)) }
{
    say(said, line, Says::AsksHub)?;
    if left == 0 {
        return Ok(say(said, line, Says::NestsTooDeep)?);
    }
    Ok(())
}

fn say_given(
    said: &mut Items<Mention>,
    line: u32,
    target: &Option<Name>,
    giving: &Giving,
) -> Result<(), AllocError>
    ensures { OnOk result (said.new ≡ said.old ++ on line (target_says target.now ++ giving_says giving.now)) }
{
    say_target(said, line, target)?;
    Ok(say_giving(said, line, giving)?)
}

/// The statements of a block in which so many timeout blocks more may be opened.
#[cycle(block)]
fn say_block(
    said: &mut Items<Mention>,
    left: u32,
    block: &Items<Statement>,
) -> Result<(), AllocError>
    ensures { OnOk result (said.new ≡ said.old ++ block_mentions left block.now) }
{
    let statements = block.as_slice();
    for statement in statements {
        say_statement(said, left, statement)?;
    }
    Ok(())
}

#[cycle(block)]
#[tactic(auto, using(scenario_rules::proofs::Layers::statement_out))]
fn say_statement(
    said: &mut Items<Mention>,
    left: u32,
    statement: &Statement,
) -> Result<(), AllocError>
    ensures { OnOk result (said.new ≡ said.old ++ statement_mentions statement.now left) }
{
    Ok(say_action(said, left, statement.line, &statement.action)?)
}

#[cycle(block)]
#[tactic(auto, using(scenario_rules::proofs::Layers::command_mentions, scenario_rules::proofs::Layers::giving_mentions, scenario_rules::proofs::Layers::if_mentions, scenario_rules::proofs::Layers::while_mentions, scenario_rules::proofs::Layers::else_mentions, scenario_rules::proofs::Layers::try_mentions, scenario_rules::proofs::Layers::finally_mentions, scenario_rules::proofs::Layers::timeout_mentions))]
fn say_action(
    said: &mut Items<Mention>,
    left: u32,
    line: u32,
    action: &Action,
) -> Result<(), AllocError>
    ensures { OnOk result (said.new ≡ said.old ++ action_mentions action.now line left) }
{
    match action {
        Action::Command(command) => Ok(say_command(said, line, command)?),
        Action::Giving(target, giving) => Ok(say_given(said, line, target, giving)?),
        Action::If(condition, then_part, else_part) => {
            say_expression(said, line, condition)?;
            say_block(said, left, then_part)?;
            match else_part {
                None => Ok(()),
                Some(other) => Ok(say_block(said, left, other)?),
            }
        }
        Action::While(condition, body) => {
            say_expression(said, line, condition)?;
            Ok(say_block(said, left, body)?)
        }
        Action::Try(body, excepts, finally) => {
            say_block(said, left, body)?;
            say_excepts(said, left, excepts)?;
            match finally {
                None => Ok(()),
                Some(last) => Ok(say_block(said, left, last)?),
            }
        }
        Action::Timeout(_, _, body) => {
            say_timeout(said, line, left)?;
            Ok(say_block(said, left.saturating_sub(1), body)?)
        }
    }
}

#[cycle(block)]
fn say_excepts(
    said: &mut Items<Mention>,
    left: u32,
    handlers: &Items<Except>,
) -> Result<(), AllocError>
    ensures { OnOk result (said.new ≡ said.old ++ handler_mentions left handlers.now) }
{
    let excepts = handlers.as_slice();
    for except in excepts {
        say_except(said, left, except)?;
    }
    Ok(())
}

#[cycle(block)]
#[tactic(auto, using(scenario_rules::proofs::Layers::except_out))]
fn say_except(said: &mut Items<Mention>, left: u32, except: &Except) -> Result<(), AllocError>
    ensures { OnOk result (said.new ≡ said.old ++ except_mentions except.now left) }
{
    say_target(said, except.line, &except.name)?;
    Ok(say_block(said, left, &except.body)?)
}

fn say_parameters(
    said: &mut Items<Mention>,
    line: u32,
    parameters: &[Name],
) -> Result<(), AllocError>
    ensures { OnOk result (said.new ≡ said.old ++ on line (map (λ x. Word.Gives x) parameters.now)) }
{
    for parameter in parameters {
        say(said, line, Says::Gives(*parameter))?;
    }
    Ok(())
}

/// What the lines of the function say, one after another.
pub(crate) fn function_mentions(
    alloc: Global,
    function: &Function,
) -> Result<Items<Mention>, AllocError>
    ensures { IfOk result (λ said. said ≡ mentions function.now) }
{
    let mut said = Items::new(alloc);
    say_parameters(&mut said, function.line, function.parameters.as_slice())?;
    say_block(&mut said, MOST_TIMEOUTS, &function.body)?;
    Ok(said)
}
