//! What is held of a live row.
use crate::sites::Sites;
use merge_types::Values;

/// The values of a live row, and the subscribers whose row filter it passes.
#[derive(Debug, Drop)]
pub struct Content {
    pub values: Values,
    pub filtered: Sites,
}
