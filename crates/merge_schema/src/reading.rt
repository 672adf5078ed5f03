//! Reading a publication file.
ghost use Rattle.merge_schema.specs.Answers.{IsAnswer, IsDraftAnswer, checked_draft};
ghost use Rattle.std.specs.Prelude.{IfOk};
ghost use Rattle.merge_schema.specs.Steps.{UnlessMemory};
ghost use Rattle.merge_schema.specs.Valid.{IsValid};
ghost use Rattle.toml.specs.View.{table_view};

use crate::building::publication_of;
use crate::checks::names_checked;
use crate::fault::SchemaFault;
use crate::file_tables::draft_of;
use crate::publication::Publication;
use std::alloc::Global;
use toml::Table;

#[tactic(auto, using(crate::proofs::Validity::few_places))]
fn read_tables(alloc: Global, table: &Table, resolvers: usize) -> Result<Publication, SchemaFault>
    ensures answer { UnlessMemory (IsDraftAnswer (checked_draft resolvers (table_view table.now))) result }
    ensures valid { IfOk result (λ publication. IsValid resolvers publication) }
{
    let draft = draft_of(alloc, table, resolvers)?;
    names_checked(alloc, &draft)?;
    publication_of(alloc, draft)
}

/// The publication that a text says, where so many resolvers are handed in; or the first of its
/// faults, in the order of docs/use/publication-file.md.
pub fn read(alloc: Global, text: &[u8], resolvers: usize) -> Result<Publication, SchemaFault>
    ensures answer { UnlessMemory (IsAnswer resolvers text.now) result }
    ensures valid { IfOk result (λ publication. IsValid resolvers publication) }
{
    match toml::table_from_slice(alloc, text) {
        Ok(table) => read_tables(alloc, &table, resolvers),
        Err(fault) => {
            if fault.is_memory() {
                Err(SchemaFault::NoMemory)
            } else {
                Err(SchemaFault::NotToml)
            }
        }
    }
}
