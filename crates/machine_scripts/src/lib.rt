//! That answers which follow the rule of a script make the run of that script: a law of the machine's definitions.
#![tactic(auto)]

ghost use Rattle.machine_scripts.specs.Scripts.{FollowersRunScripts};

/// A run under answers that follow the rule of a script is that script's run, as far as its answers go.
pub fn followers_run_scripts()
    ensures { FollowersRunScripts }
{}
