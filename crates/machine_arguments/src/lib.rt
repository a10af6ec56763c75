//! That each call of a well-formed scenario has few arguments: a law of the definitions of a scenario's rules, as
//! the contract of a function without a body of its own.
#![tactic(auto)]

ghost use Rattle.machine_arguments.specs.Laws.{CallsFew, FunctionsHaveFew};

/// Each call of a well-formed scenario has few arguments, and so has each call of a function that is
/// found in it.
pub fn calls_have_few()
    ensures calls { CallsFew }
    ensures functions { FunctionsHaveFew }
{}
