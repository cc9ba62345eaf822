//! What a server serves where its content isn't shown.

use crate::arrays::Sizes;
use crate::replies::Answer;
use crate::requests::Command;
use std::alloc::Global;

/// Storage that tells by a relation of its own what a command does to it, and how it ends.
pub trait Backing {
    ghost use Rattle.std.specs.Prelude.{◌≡◌, ℕ, List, length};
    ghost use Rattle.nbd.specs.declared.arrays.Sizes.{Sizes};
    ghost use Rattle.nbd.specs.declared.requests.Command.{Command};
    ghost use Rattle.nbd.specs.Content.{IsBlockSize};
    ghost use Rattle.nbd.specs.Replies.{Outcome, outcome_of};
    ghost use Rattle.nbd.specs.Requests.{IsWithin, payload_of};

    /// The sizes of the storage.
    ghost shape: { Self → Sizes };

    /// A command with the bytes that came behind its request leads from one state to another.
    ghost Carries: { Command → List ℕ → Self → Outcome → Self → Type 0 };

    /// The sizes, which never change.
    fn sizes(&self) -> Sizes
        ensures exact { result ≡ shape self.now }
        ensures block_size { IsBlockSize result.block };

    /// Carries out a command that lies in the storage, with the bytes that came behind its request.
    fn carry_out(&mut self, alloc: Global, command: Command, payload: Vec<u8>) -> Answer
        requires within { IsWithin (shape self.old).block (shape self.old).bytes command }
        requires long { length payload.items ≡ payload_of command }
        ensures carried { Carries command payload.items self.old (outcome_of result) self.new }
        ensures same { shape self.new ≡ shape self.old };

    /// Hands out the memory that was kept, with whatever bytes it has.
    fn lend(&mut self, alloc: Global) -> Vec<u8>
        ensures same { self.new ≡ self.old };

    /// Keeps memory for the next command.
    fn take_back(&mut self, bytes: Vec<u8>)
        ensures same { self.new ≡ self.old };
}
