//! The call that the program makes: the words, the input, the command, the status.
#![tactic(auto)]

mod gateway;
mod laws;
mod serving;
mod status;
mod storming;
mod top;
mod verifying;
mod words;

pub use laws::{budgets_are_in_range, counts_stay_small, texts_are_answered, words_name_one};
pub use serving::gvr;
pub use top::offline;
