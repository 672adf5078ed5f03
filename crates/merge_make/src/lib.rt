//! A large script that is made from a number of customers, its run, and what is told of it.
#![tactic(auto)]

mod part;
mod publication;
mod run;
mod script;
mod step;
mod tally;
mod worked;

pub use part::Part;
pub use publication::made;
pub use run::play_script;
pub use script::Script;
pub use step::Step;
pub use worked::script_of_seven_customers;
