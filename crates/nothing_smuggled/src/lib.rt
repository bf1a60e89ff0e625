//! What a reader who fears smuggling wants to know of a log, as a consequence of the headline.
//!
//! `specs/Smuggling` says it in terms of what an HTTP/1.1 server reads in the octets that it was
//! sent, and of what the client's frames mean by HTTP/2. It asks for no error table, and not for
//! what became of a stream. [`headline_smuggles_nothing`] is the law.
#![tactic(auto)]

ghost use Rattle.std.specs.Prelude.{List};
ghost use Rattle.model.specs.Logs.{Step};
ghost use Rattle.model.specs.Setup.{Setup};
ghost use Rattle.model.specs.Headline.{Headline};
ghost use Rattle.nothing_smuggled.specs.Smuggling.{NothingSmuggled};

/// A log that keeps the headline smuggles nothing, at any time: what each upstream connection was
/// sent so far reads as requests of distinct streams, and a rest that begins none; no stream stands
/// on two connections; and each request is what the first items that came on its stream mean.
pub fn headline_smuggles_nothing()
    ensures { (setup : Setup) (log : List Step) → Headline setup log → NothingSmuggled log }
{}
