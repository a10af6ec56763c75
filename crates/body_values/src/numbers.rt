//! The numbers of objects and functions by their names.
ghost use Rattle.std.specs.Prelude.{◌≤◌, length, map, IfOk};
ghost use Rattle.scenario_tree.specs.declared.limits.TheConstants.{MOST_DECLARED};
ghost use Rattle.body_values.specs.Numbers.{AreNames, NumbersFunctions, NumbersObjects};

use gv_values::Name;
use name_table::Names;
use scenario_tree::{Declaration, Function};
use std::alloc::{AllocError, Global};

/// A name, with the number of the object and of the function that has it, each past the last where there is none.
#[derive(Drop)]
pub struct NameNumbers {
    pub name: Name,
    pub object: u32,
    pub function: u32,
}

/// The number of the first object of each name.
pub fn number_objects(alloc: Global, objects: &[Declaration]) -> Result<Names<u32>, AllocError>
    requires small { length objects.now ≤ MOST_DECLARED }
    ensures { IfOk result (λ numbers. NumbersObjects numbers objects.now) }
{
    let mut numbers = Names::new(alloc);
    for i in 0..objects.len() {
        numbers.give(alloc, objects[i].name.bytes(), i as u32)?;
    }
    Ok(numbers)
}

/// The number of the first function of each name.
pub fn number_functions(alloc: Global, functions: &[Function]) -> Result<Names<u32>, AllocError>
    requires small { length functions.now ≤ MOST_DECLARED }
    ensures { IfOk result (λ numbers. NumbersFunctions numbers functions.now) }
{
    let mut numbers = Names::new(alloc);
    for i in 0..functions.len() {
        numbers.give(alloc, functions[i].name.bytes(), i as u32)?;
    }
    Ok(numbers)
}

/// The objects have names.
pub fn tell_object_names(objects: &[Declaration])
    ensures { AreNames (map (λ d. d.name) objects.now) }
{
    for i in 0..objects.len() {
        // That it is a name is known of one whose bytes are looked at.
        let _name = objects[i].name.bytes();
    }
}

/// The functions have names.
pub fn tell_function_names(functions: &[Function])
    ensures { AreNames (map (λ f. f.name) functions.now) }
{
    for i in 0..functions.len() {
        // That it is a name is known of one whose bytes are looked at.
        let _name = functions[i].name.bytes();
    }
}
