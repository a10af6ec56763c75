//! What bodies are run from.
ghost use Rattle.std.specs.Prelude.{◌≡◌, IfOk, IfSome, IsTrue};
ghost use Rattle.std.specs.Option.{option_copied};
ghost use Rattle.body_blocks.specs.Trees.{block_at};
ghost use Rattle.body_locals.specs.Locals.{locals_of};
ghost use Rattle.body_names.specs.Naming.{name_of};
ghost use Rattle.machine.specs.Expressions.{object_number, function_number};
ghost use Rattle.machine.specs.Greenlets.{named};
ghost use Rattle.body_blocks.specs.Few.{HasFew, HasFewCalls};
ghost use Rattle.body_values.specs.Functions.{IsFunction, function_at};
ghost use Rattle.body_values.specs.Numbers.{HasNumbersOf, HaveNumbers};
ghost use Rattle.body_values.specs.Small.{IsSmall};

use crate::functions::{FlatFunction, add_functions, function_of_number};
use crate::locals::given;
use crate::numbers::{
    NameNumbers, number_functions, number_objects, tell_function_names, tell_object_names,
};
use body_blocks::{Blocks, Making};
use body_locals::Locals;
use gv_values::{Name, Value};
use name_table::Names;
use scenario_tree::{Declaration, Items, Scenario};
use std::alloc::{AllocError, Global};
use std::marker::Model;
use std::rc::Rc;

/// What bodies are run from: the objects, the functions and the blocks of a scenario, which has at most `MOST_DECLARED`
/// objects and as many functions, and no call with more arguments than a function may have parameters. Each name has
/// its number in a table, so that a look-up compares O(log n) names. The names of the blocks have theirs beside them:
/// where a body is run over its own code, what it names by number is found with one comparison. The bodies that run
/// share the blocks.
#[derive(Drop)]
pub struct Code {
    profile: u8,
    objects: Items<Declaration>,
    functions: Items<FlatFunction>,
    object_numbers: Names<u32>,
    function_numbers: Names<u32>,
    blocks: Rc<Blocks>,
    /// The names of the blocks in their order, with their numbers. No clause says that all are there: speed alone rests
    /// on it.
    own: Items<NameNumbers>,
}

impl Model for Code {
    ghost use Rattle.scenario_tree.specs.declared.tree.Scenario.{Scenario};
    ghost use Rattle.scenario_tree.specs.Trees.{trees};
    ghost use Rattle.body_values.specs.Codes.{scenario_of};
    ghost use Rattle.body_values.specs.Numbers.{IsKept};

    ghost Value = { Scenario };

    ghost coded = { Prim.hlevel trees };

    ghost view = { λ c. scenario_of c.profile c.objects c.functions c.blocks.value };

    ghost invariant = { λ c. IsKept (scenario_of c.profile c.objects c.functions c.blocks.value) c.object_numbers c.function_numbers c.own };
}

/// Where a body of a function begins: the blocks of its code, the number of its own, and its parameters with their
/// arguments.
#[derive(Drop)]
pub struct Start {
    pub blocks: Rc<Blocks>,
    pub body: usize,
    pub locals: Locals,
}

impl Code {
    /// The code of this scenario, which is given up. `AllocError`: memory is wanting.
    pub fn new(alloc: Global, scenario: Scenario) -> Result<Code, AllocError>
        requires small { IsSmall scenario }
        requires few { HasFewCalls scenario }
        ensures { IfOk result (λ code. code ≡ scenario) }
    {
        let Scenario {
            profile,
            objects,
            functions,
        } = scenario;
        let object_numbers = number_objects(alloc, objects.as_slice())?;
        let function_numbers = number_functions(alloc, functions.as_slice())?;
        tell_object_names(objects.as_slice());
        tell_function_names(functions.as_slice());
        let mut making = Making::new(alloc);
        let functions = add_functions(alloc, &mut making, functions)?;
        let blocks = Rc::new(alloc, making.finish())?;
        let code = Code {
            profile,
            objects,
            functions,
            object_numbers,
            function_numbers,
            blocks,
            own: Items::new(alloc),
        };
        Ok(code.with_numbers(alloc)?)
    }

    /// The same, with the numbers of its blocks' names. `AllocError`: memory is wanting.
    fn with_numbers(self, alloc: Global) -> Result<Code, AllocError>
        ensures { IfOk result (λ code. code ≡ self) }
    {
        let own = self.own_numbers(alloc)?;
        let mut code = self;
        code.own = own;
        Ok(code)
    }

    /// The names of the blocks in their order, with their numbers. `AllocError`: memory is wanting.
    fn own_numbers(&self, alloc: Global) -> Result<Items<NameNumbers>, AllocError>
        ensures { IfOk result (λ own. HaveNumbers self.now own) }
    {
        let mut own = Items::new(alloc);
        for number in 0..u32::MAX {
            match self.blocks.name(number) {
                Some(name) => own.push(self.numbers_of(name))?,
                None => return Ok(own),
            }
        }
        Ok(own)
    }

    /// The name with its numbers.
    fn numbers_of(&self, name: &Name) -> NameNumbers
        ensures { HasNumbersOf result.name self.now result }
    {
        NameNumbers {
            name: *name,
            object: self.object(name),
            function: self.function(name),
        }
    }

    /// The objects in the order of their declarations.
    pub fn objects(&self) -> &[Declaration]
        ensures { result.now ≡ self.now.objects }
    {
        self.objects.as_slice()
    }

    /// The number of the object with this name, and past the last where there is none.
    #[tactic(auto, using(crate::proofs::Numbered::object_found))]
    pub fn object(&self, name: &Name) -> u32
        ensures { result ≡ object_number name.now self.now.objects }
    {
        let number = self.object_numbers.find(name.bytes());
        number.unwrap_or(self.objects.len() as u32)
    }

    /// The number of the function with this name, and past the last where there is none.
    pub fn function(&self, name: &Name) -> u32
        ensures { result ≡ function_number name.now self.now.functions }
    {
        let number = self.function_numbers.find(name.bytes());
        number.unwrap_or(self.functions.len() as u32)
    }

    /// The name of the function of this number.
    pub fn function_name(&self, number: u32) -> Name
        requires declared { IsFunction self.now number }
        ensures { result ≡ (function_at number self.now).name }
    {
        function_of_number(self.functions.as_slice(), number).name
    }

    /// The number of the object whose name has this number in these blocks, and past the last where there is none.
    pub fn object_numbered(&self, blocks: &Blocks, number: u32) -> u32
        ensures { result ≡ object_number (name_of blocks.now.names number) self.now.objects }
    {
        match blocks.name(number) {
            Some(name) => self.known_object(number, name),
            None => self.objects.len() as u32,
        }
    }

    /// The number of the function whose name has this number in these blocks, and past the last where there is none.
    pub fn function_numbered(&self, blocks: &Blocks, number: u32) -> u32
        ensures { result ≡ function_number (name_of blocks.now.names number) self.now.functions }
    {
        match blocks.name(number) {
            Some(name) => self.known_function(number, name),
            None => self.functions.len() as u32,
        }
    }

    /// The number of the object with this name, which mostly has this number in the own blocks.
    fn known_object(&self, number: u32, name: &Name) -> u32
        ensures { result ≡ object_number name.now self.now.objects }
    {
        match self.known_numbers(number, name) {
            Some(own) => own.object,
            None => self.object(name),
        }
    }

    /// The number of the function with this name, which mostly has this number in the own blocks.
    fn known_function(&self, number: u32, name: &Name) -> u32
        ensures { result ≡ function_number name.now self.now.functions }
    {
        match self.known_numbers(number, name) {
            Some(own) => own.function,
            None => self.function(name),
        }
    }

    /// The numbers of this name, where it has this number in the own blocks.
    #[inline(always)]
    fn known_numbers(&self, number: u32, name: &Name) -> Option<&NameNumbers>
        ensures { IfSome (option_copied result) (HasNumbersOf name.now self.now) }
    {
        if let Some(own) = self.own.get(number as usize) {
            if is_same(&own.name, name) {
                return Some(own);
            }
        }
        None
    }

    /// Where a body of the function of this number begins with these arguments. `AllocError`: memory is wanting, or the
    /// blocks have too many owners.
    pub fn start(
        &self,
        alloc: Global,
        number: u32,
        arguments: Items<Value>,
    ) -> Result<Start, AllocError>
        requires declared { IsFunction self.now number }
        ensures same { IfOk result (λ start. block_at start.body start.blocks.value ≡ (function_at number self.now).body) }
        ensures named { IfOk result (λ start. locals_of start.blocks.value.names start.locals ≡ named (function_at number self.now).parameters arguments) }
        ensures few { HasFew (function_at number self.now).body }
    {
        let function = function_of_number(self.functions.as_slice(), number);
        let body = function.body;
        let locals = given(alloc, function.parameters.as_slice(), arguments)?;
        let blocks = self.blocks.clone()?;
        Ok(Start {
            blocks,
            body,
            locals,
        })
    }
}

/// Whether these are one name.
#[inline(always)]
fn is_same(a: &Name, b: &Name) -> bool
    ensures { IsTrue result → a.now ≡ b.now }
{
    a.bytes() == b.bytes()
}
