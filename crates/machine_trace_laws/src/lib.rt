//! Lemmas on what the lines told so far say of the hub's state, which each step of a greenlet keeps; and the laws that
//! stand on them: the lines of a run meet the laws of a trace, and the hub blocks at quiet states. A law of the machine's
//! definitions is the contract of a function without a body of its own.
#![tactic(auto)]

ghost use Rattle.machine_trace_laws.specs.Laws.{BlocksQuietly, RunsLawfully, ScriptsRunLawfully};

/// The lines of a run of a well-formed scenario meet the laws, where each answer is legal.
pub fn runs_are_lawful()
    ensures { RunsLawfully }
{}

/// Under the rule of a script each answer is legal, and so the lines of the run meet the laws.
pub fn scripts_run_lawfully()
    ensures { ScriptsRunLawfully }
{}

/// At each block line of a run of a well-formed scenario the state is quiet, whatever is answered.
pub fn blocks_are_quiet()
    ensures { BlocksQuietly }
{}
