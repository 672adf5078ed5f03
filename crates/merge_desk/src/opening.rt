//! What a desk began with.
use std::marker::Brand;

/// Names the opening of a desk: the publication, the tables, what the resolvers say, and how often
/// the store had failed. Contracts hold the desk against it, and no code stores it.
pub trait Opening {
    ghost use Rattle.std.specs.Prelude.{ℕ};
    ghost use Rattle.merge_model.specs.Tables.{PublisherTables};
    ghost use Rattle.merge_model.specs.World.{Saying};
    ghost use Rattle.merge_schema.specs.declared.publication.Publication.{Publication};

    ghost publication: { Publication };

    ghost tables: { PublisherTables };

    ghost says: { Saying };

    ghost count: { ℕ };
}

impl Opening for Brand {
    ghost use Rattle.std.specs.Prelude.{None};
    ghost use Rattle.merge_model.specs.Publisher.{empty_publisher};
    ghost use Rattle.merge_desk.specs.Replay.{no_publication};

    ghost publication = { no_publication };

    ghost tables = { empty_publisher no_publication };

    ghost says = { λ place tally asked. None };

    ghost count = { 0 };
}
