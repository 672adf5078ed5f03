//! A session over a link that meets the model's publisher is the model's session. These functions do
//! nothing: their contracts are the laws.
#![tactic(auto)]

ghost use Rattle.merge_synced.specs.Cut.{CutIsAPart, StepsAreAPart};
ghost use Rattle.merge_synced.specs.Synced.{DoneIsTheModels, OfEveryValidWorld, RefusedIsTheModels, RepliesAreTold, RequestsAreRead, UnmadeIsTheModels, UntakenIsTheModels};

/// The bytes that the agent sends are read as its request, and those that a publisher serves with a reply
/// tell it, where the body tells the message and is no longer than bodies may be.
pub fn what_is_written_is_told()
    ensures requests { RequestsAreRead }
    ensures replies { RepliesAreTold }
{}

/// In every world behind actions, where the link of a session of a site meets the world's publisher: once
/// the session is done, the model's session of that site ends with nothing refused, with as many uploads
/// and downloads, and with the same tables at the site and at the publisher.
pub fn done_sessions_are_the_models()
    ensures { OfEveryValidWorld DoneIsTheModels }
{}

/// Where the publisher refuses, the model's session stops with that refusal, with the same counts and
/// tables.
pub fn refused_sessions_are_the_models()
    ensures { OfEveryValidWorld RefusedIsTheModels }
{}

/// Where the site itself refuses, to make its next message or to take a reply, the model's session stops
/// with that refusal and with the same tables. It has the same counts, but that it counts the answer that
/// the site refused.
pub fn sessions_that_sites_break_off_are_the_models()
    ensures unmade { OfEveryValidWorld UnmadeIsTheModels }
    ensures untaken { OfEveryValidWorld UntakenIsTheModels }
{}

/// Whatever ends a session, its steps are a part of the model's session: that one passes a world in which
/// the site and the publisher stand as they do, with the same counts. Where no response comes to a message,
/// as where the link cuts the session, the model's session sends this message there; and the publisher
/// stands as before it, or as behind it.
pub fn cut_sessions_are_parts_of_the_models()
    ensures steps { OfEveryValidWorld StepsAreAPart }
    ensures cut { OfEveryValidWorld CutIsAPart }
{}
