//! A worked run in which sessions end by steps that fail.
ghost use Rattle.std.specs.Prelude.{◌≡◌, ◌∷◌, []};
ghost use Rattle.merge_schema.specs.Valid.{IsValid};
ghost use Rattle.merge_worked.specs.SessionsFail.{publication, sessions_fail as sessions_fail_worked, slips, tallies_with};
ghost use Rattle.merge_worked.specs.StepsFail.{IsPlayedWith, IsToldWith};

/// Sessions of a site end by steps that fail, by a fault of the store and by want of memory, at the
/// publisher and at the site. The publisher asks a resolver about a conflict and then its store fails:
/// nothing is taken, but the tally shows the question, and the upload that comes again asks once more
/// (`asked`). That one is answered, and its site does not take the answer. The last session ends as if
/// nothing had failed, with the conflict decided and told once. The publication is valid with the
/// program's five resolvers.
pub fn sessions_fail()
    ensures valid { IsValid 5 publication }
    ensures machine { IsPlayedWith slips sessions_fail_worked }
    ensures model { IsToldWith slips sessions_fail_worked }
    ensures asked { tallies_with slips sessions_fail_worked ≡ 0 ∷ 0 ∷ 0 ∷ 2 ∷ 0 ∷ [] }
{}
