//! Tests of the crates below the rules: values and texts, tables and ports, and what a site keeps.
#![tactic(auto)]

#[cfg(test)]
mod conflict;
#[cfg(test)]
mod gens;
#[cfg(test)]
mod ident;
#[cfg(test)]
mod join;
#[cfg(test)]
mod lineage;
#[cfg(test)]
mod link;
#[cfg(test)]
mod ports;
#[cfg(test)]
mod same;
#[cfg(test)]
mod script;
#[cfg(test)]
mod table;
#[cfg(test)]
mod types;
#[cfg(test)]
mod units;
