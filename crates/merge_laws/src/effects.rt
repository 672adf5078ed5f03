//! The law that no generation takes effect twice.
ghost use Rattle.merge_laws.specs.Laws.Effects.{ActingTakeEffect, NewsIsUnmet, NoneTakesEffectTwice, NumbersTakeEffect, RunsAreSteps};
ghost use Rattle.merge_laws.specs.Laws.{OfEveryModel};

/// No generation of a site takes effect at two deliveries of its uploads, of one upload or of two,
/// whatever happened before and between them. What takes effect is each generation of an upload
/// that has not acted, where the upload is taken; every item that does something stands in one; the
/// publisher's numbers say the same; and an upload that has none is only answered, or refused. Every
/// run is a list of steps, also where it has sessions, so the two places may be any.
pub fn no_generation_takes_effect_twice()
    ensures once { NoneTakesEffectTwice }
    ensures acting { ActingTakeEffect }
    ensures numbers { OfEveryModel NumbersTakeEffect }
    ensures news { OfEveryModel NewsIsUnmet }
    ensures runs { RunsAreSteps }
{}
