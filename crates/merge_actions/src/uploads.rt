//! Uploads among actions.
ghost use Rattle.merge_laws.specs.Laws.ActsOnce.{DoneStaysByActions, LettersStayByActions, TakenHaveActed, TakenOnlyAnswerByActions};
ghost use Rattle.merge_laws.specs.Laws.Effects.{NewsIsUnmet, NumbersTakeEffect};
ghost use Rattle.merge_laws.specs.Laws.{OfEveryActions};
ghost use Rattle.merge_model.specs.Laws.Promises.{NoneActsTwice};

/// An upload takes effect once, whatever actions come. After a delivery that was not refused each of
/// its generations has acted; what has acted stays so, and the pool keeps each letter at its number,
/// whatever actions come afterwards. So another delivery is only answered, or refused. No generation
/// is noted twice as acted, and which take effect is said by numbers as by histories. That none takes
/// effect at two deliveries is said of actions by `no_generation_takes_effect_twice` in `merge_laws`.
pub fn actions_take_effect_once()
    ensures taken { OfEveryActions TakenHaveActed }
    ensures stay { OfEveryActions DoneStaysByActions }
    ensures letters { OfEveryActions LettersStayByActions }
    ensures again { OfEveryActions TakenOnlyAnswerByActions }
    ensures once { OfEveryActions (λ publication says m. NoneActsTwice m) }
    ensures numbers { OfEveryActions (λ publication says m. NumbersTakeEffect m) }
    ensures news { OfEveryActions (λ publication says m. NewsIsUnmet m) }
{}
