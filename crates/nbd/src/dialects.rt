//! How a client and the server talk, by the options that were asked for.

ghost use Rattle.std.specs.Prelude.{◌≡◌};
ghost use Rattle.nbd.specs.Dialects.{asks_status, chooses, heard, next_dialect};

use crate::constants::{NBD_CMD_BLOCK_STATUS, NBD_OPT_SET_META_CONTEXT};
use crate::options::{OptionError, Wish};
use crate::requests::Request;

/// What a client was offered, and what it has asked for.
#[derive(Debug, Clone, Copy, PartialEq, Eq)]
pub enum Dialect {
    /// Simple replies, and no others are offered.
    Plain,
    /// Simple replies. Structured ones are offered, and weren't asked for.
    Simple,
    /// Structured replies.
    Structured {
        /// Whether the metadata context `base:allocation` is chosen.
        allocation: bool,
    },
}

impl Dialect {
    /// Returns what is done of an option's wish.
    pub fn hear(self, wish: Wish) -> Wish
        ensures { result ≡ heard self wish }
    {
        match (self, wish) {
            (
                Dialect::Plain,
                Wish::StructuredReplies { .. } | Wish::ListContexts(_) | Wish::SetContexts(_),
            ) => Wish::Refuse(OptionError::Unsupported),
            (Dialect::Simple, Wish::ListContexts(_) | Wish::SetContexts(_)) => {
                Wish::Refuse(OptionError::Invalid)
            }
            _ => wish,
        }
    }

    /// Returns the dialect behind an option of this code, that asks for this.
    pub fn next(self, code: u32, wish: Wish) -> Dialect
        ensures { result ≡ next_dialect self code wish }
    {
        match self {
            Dialect::Structured { .. } if code == NBD_OPT_SET_META_CONTEXT => Dialect::Structured {
                allocation: chooses(wish),
            },
            Dialect::Simple if wish == (Wish::StructuredReplies { bare: true }) => {
                Dialect::Structured { allocation: false }
            }
            _ => self,
        }
    }

    /// Whether a request asks which bytes are known to be zeros, and is answered.
    pub(crate) fn asks_status(self, request: Request) -> bool
        ensures { result ≡ asks_status self request }
    {
        match self {
            Dialect::Structured { allocation } => {
                allocation && request.kind == NBD_CMD_BLOCK_STATUS
            }
            Dialect::Plain | Dialect::Simple => false,
        }
    }
}

/// Whether a wish chooses the context.
fn chooses(wish: Wish) -> bool
    ensures { result ≡ chooses wish }
{
    match wish {
        Wish::SetContexts(Ok(found)) => found,
        _ => false,
    }
}
