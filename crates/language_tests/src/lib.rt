//! Tests of the public calls of the scenario language: texts of all profiles, their printed form, and
//! the rules that a scenario keeps.
#![tactic(auto)]

#[cfg(test)]
mod profiles;
#[cfg(test)]
mod rules;
#[cfg(test)]
mod texts;
