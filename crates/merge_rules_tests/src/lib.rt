//! Tests of the rules of a publication: its filters, its text, partitions, messages, refusals and answers.
#![tactic(auto)]

#[cfg(test)]
mod batch;
#[cfg(test)]
mod change;
#[cfg(test)]
mod filter;
#[cfg(test)]
mod part;
#[cfg(test)]
mod reading;
#[cfg(test)]
mod report;
#[cfg(test)]
mod resolve;
#[cfg(test)]
mod same;
#[cfg(test)]
mod schema;
