//! What a membership keeps.
use crate::draft::Held;
use crate::index::Indexes;
use crate::link::Rules;

/// The rules, the rows with their partitions, and where rows are found by their values.
#[derive(Drop)]
pub struct Kept {
    pub rules: Rules,
    pub index: Indexes,
    pub held: Held,
}
