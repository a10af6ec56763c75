//! The functions of some code, whose bodies are blocks of it.
ghost use Rattle.std.specs.Prelude.{◌≡◌, ◌<◌, map, length, IfOk, slice_get, unwrap_or};
ghost use Rattle.body_names.specs.Naming.{name_of};
ghost use Rattle.body_blocks.specs.Making.{IsMaking, made};
ghost use Rattle.body_blocks.specs.Trees.{Coded, Grows, joined};
ghost use Rattle.machine.specs.Greenlets.{no_function};
ghost use Rattle.body_values.specs.Codes.{function_of};

use body_blocks::{Making, add_block, turned};
use gv_values::Name;
use scenario_tree::{Function, Items};
use std::alloc::{AllocError, Global};

/// A function whose body is a block of the code, by its number, as its parameters are.
#[derive(Drop)]
pub struct FlatFunction {
    pub line: u32,
    pub is_raw: bool,
    pub name: Name,
    pub parameters: Items<u32>,
    pub body: usize,
}

/// The functions, with their blocks put to the code.
pub fn add_functions(
    alloc: Global,
    making: &mut Making,
    functions: Items<Function>,
) -> Result<Items<FlatFunction>, AllocError>
    requires { IsMaking making.old }
    ensures kept { IfOk result (λ _. IsMaking making.new) }
    ensures same { IfOk result (λ flat. map (function_of (made making.new)) flat ≡ functions) }
{
    let mut left = functions;
    let mut flat = Vec::with_capacity(alloc, left.len())?;
    while let Some(function) = left.pop() {
        let one = add_function(alloc, making, function)?;
        flat.push(one)?;
    }
    Ok(turned(flat))
}

fn add_function(
    alloc: Global,
    making: &mut Making,
    function: Function,
) -> Result<FlatFunction, AllocError>
    requires { IsMaking making.old }
    ensures kept { IfOk result (λ _. IsMaking making.new) }
    ensures grows { IfOk result (λ _. Grows (made making.old) (made making.new)) }
    ensures same { IfOk result (λ f. (more : Coded) → function_of (joined (made making.new) more) f ≡ function) }
{
    making.enter(alloc, &function)?;
    let Function {
        line,
        is_raw,
        name,
        parameters,
        body,
    } = function;
    let parameters = number_names(alloc, making, parameters.as_slice())?;
    let body = add_block(alloc, making, body)?;
    Ok(FlatFunction {
        line,
        is_raw,
        name,
        parameters,
        body,
    })
}

/// The numbers of the names.
fn number_names(
    alloc: Global,
    making: &mut Making,
    names: &[Name],
) -> Result<Items<u32>, AllocError>
    requires { IsMaking making.old }
    ensures kept { IfOk result (λ _. IsMaking making.new) }
    ensures grows { IfOk result (λ _. Grows (made making.old) (made making.new)) }
    ensures same { IfOk result (λ ns. (more : Coded) → map (name_of (joined (made making.new) more).names) ns ≡ names.now) }
{
    let mut numbers = Items::from_vec(Vec::with_capacity(alloc, names.len())?);
    for name in names {
        let number = making.number(alloc, name)?;
        numbers.push(number)?;
    }
    Ok(numbers)
}

/// The function of this number.
#[tactic(auto, using(crate::proofs::Codes::function_there))]
pub fn function_of_number(functions: &[FlatFunction], number: u32) -> &FlatFunction
    requires { number < length functions.now }
    ensures { (t : Coded) → unwrap_or (slice_get (map (function_of t) functions.now) number) no_function ≡ function_of t result.now }
{
    &functions[number as usize]
}
