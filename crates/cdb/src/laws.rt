//! What the definitions say together, whatever the code does.

ghost use Rattle.std.specs.Prelude.{◌≡◌, ℕ, List};
ghost use Rattle.cdb.specs.Meaning.{Means, IsPlain};
ghost use Rattle.cdb.specs.Faults.{HasFault};
ghost use Rattle.cdb.specs.declared.Cdb.{Cdb};
ghost use Rattle.cdb.specs.declared.CdbFault.{CdbFault};

/// No block asks for two commands.
#[tactic(auto, using(crate::proofs::Once::means_once))]
pub fn one_meaning()
    ensures { (block : List ℕ) (c d : Cdb) → Means block c → Means block d → c ≡ d }
{}

/// No block has two faults, and a block that asks for a command has none.
#[tactic(auto, using(crate::proofs::Once::fault_once, crate::proofs::Once::never_both))]
pub fn one_fault()
    ensures one { (block : List ℕ) (f g : CdbFault) → HasFault block f → HasFault block g → f ≡ g }
    ensures none { (block : List ℕ) (c : Cdb) (f : CdbFault) → Means block c → ¬ HasFault block f }
{}

/// Two plain blocks that ask for one command are the same, so a command is spelled in one way.
#[tactic(auto, using(crate::proofs::Spelling::one_spelling))]
pub fn one_spelling()
    ensures { (a b : List ℕ) (c : Cdb) → Means a c → IsPlain a c → Means b c → IsPlain b c → a ≡ b }
{}
