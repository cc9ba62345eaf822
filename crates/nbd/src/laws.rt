//! What the definitions come to.

ghost use Rattle.nbd.specs.Laws.{HasOneSpelling, MakesASession, WritesInside};

/// A request is read from the 28 bytes that a client sends for it, and from no others.
#[tactic(auto, using(crate::proofs::Spelling::one_spelling))]
pub fn one_spelling()
    ensures { HasOneSpelling }
{}

/// What is written in an array changes nothing outside the written bytes. An array that failed in the middle of a write
/// may have written other bytes inside.
#[tactic(auto, using(crate::proofs::Clearing::written_inside))]
pub fn written_inside()
    ensures { WritesInside }
{}

/// What [`begin`](crate::begin) and then [`serve_beside`](crate::serve_beside) said is a whole session.
pub fn makes_a_session()
    ensures { MakesASession }
{}
