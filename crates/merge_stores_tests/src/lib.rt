//! Tests of what sites store and send: records, stores, the keeper over SQLite, what the program is joined to, and messages over HTTP.
#![tactic(auto)]

#[cfg(test)]
mod files;
#[cfg(test)]
mod json;
#[cfg(test)]
mod keeper;
#[cfg(test)]
mod outside;
#[cfg(test)]
mod record;
#[cfg(test)]
mod same;
#[cfg(test)]
mod start;
#[cfg(test)]
mod wire;
