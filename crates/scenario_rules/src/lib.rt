//! The rules that a scenario keeps beyond its grammar: each name is declared, once, as what it is
//! used for and with the right count; raw bodies leave the hub alone; timeout blocks and
//! declarations keep their limits.
#![tactic(auto)]

mod declared;
mod laws;
mod limits;
mod mention;

pub use declared::Declared;
pub use laws::{
    rules_have_reasons, well_formed_scenarios_are_of_profile_3, well_formed_scenarios_have_no_place,
};
pub use limits::{MOST_LOCAL_NAMES, MOST_TIMEOUTS};
pub use mention::{Mention, Named, Says, Wanted};
