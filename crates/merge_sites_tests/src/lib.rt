//! Tests of what is done with sites: two sites at their stores, sessions, commands, made scripts, a
//! publisher that callers share, and its connections.
#![tactic(auto)]

#[cfg(test)]
mod command;
#[cfg(test)]
mod desk;
#[cfg(test)]
mod make;
#[cfg(test)]
mod nobody;
#[cfg(test)]
mod same;
#[cfg(test)]
mod serve;
#[cfg(test)]
mod service;
#[cfg(test)]
mod site;
#[cfg(test)]
mod sync;
