//! What holds of a request whose decisions are known. The function does nothing: its contract is the
//! laws.
ghost use Rattle.std.specs.Prelude.{◌≡◌, Err, List, ℕ};
ghost use Rattle.merge_batch.specs.declared.refusal.Refusal.{Refusal};
ghost use Rattle.merge_batch.specs.declared.request.Request.{Request};
ghost use Rattle.merge_model.specs.World.Calls.{result_of_request};
ghost use Rattle.merge_model.specs.Tables.{PublisherTables};
ghost use Rattle.merge_model.specs.World.{Saying};
ghost use Rattle.merge_schema.specs.declared.publication.Publication.{Publication};
ghost use Rattle.merge_types.specs.declared.identifiers.Moment.{Moment};
ghost use Rattle.merge_units.specs.declared.result.Decision.{Decision};
ghost use Rattle.merge_draft.specs.Drafting.{decisions_on, result_with_decisions};

/// A publisher makes of a request what its decisions make of it, and it is refused whatever they are.
pub fn decided_laws()
    ensures handled { (publication : Publication) (says : Saying) (tallies : List ℕ) (now : Moment) (m : Request) (p : PublisherTables)
        → result_of_request publication says tallies now m p ≡ result_with_decisions publication now m (decisions_on publication says tallies now m p) p }
    ensures refused { (publication : Publication) (now : Moment) (m : Request) (xs ys : List Decision) (p : PublisherTables) (why : Refusal)
        → result_with_decisions publication now m xs p ≡ Err why → result_with_decisions publication now m ys p ≡ Err why }
{}
