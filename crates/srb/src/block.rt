//! A command block.

ghost use Rattle.std.specs.Prelude.{◌≡◌, ◌≤◌, List, ℕ, length};

use arrayvec::ArrayVec;
use std::marker::Model;

/// A command block of at most 16 bytes, which contracts see as the list of its bytes (SPC: CDB).
#[derive(Debug, Drop)]
pub struct CommandBlock {
    bytes: ArrayVec<u8, 16>,
}

impl Model for CommandBlock {
    ghost Value = { List ℕ };

    ghost view = { λ b. b.bytes.items };
}

impl CommandBlock {
    /// A block of these bytes, whatever they mean; an adapter fails one that asks for no command.
    pub fn new(bytes: ArrayVec<u8, 16>) -> CommandBlock
        ensures { result ≡ bytes.items }
    {
        CommandBlock { bytes }
    }

    /// The bytes, at most 16.
    pub fn as_slice(&self) -> &[u8]
        ensures value { result.now ≡ self.now }
        ensures short { length self.now ≤ 16 }
    {
        self.bytes.as_slice()
    }

    /// A copy; it takes no memory.
    pub fn copied(&self) -> CommandBlock
        ensures { result ≡ self.now }
    {
        let mut bytes = ArrayVec::new();
        let Ok(()) = bytes.try_extend_from_slice(self.bytes.as_slice()) else {
            unreachable!()
        };
        CommandBlock { bytes }
    }
}
