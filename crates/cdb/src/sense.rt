//! Sense data in the fixed format.

ghost use Rattle.std.specs.Prelude.{◌≡◌, ◌<◌, ◌↔◌, Some, IsNone};
ghost use Rattle.ntstatus.specs.declared.Sense.{Sense};
ghost use Rattle.cdb.specs.SenseData.{IsSenseData, Tells, TellsOfError};

use ntstatus::Sense;

/// The sense data of an error: 18 bytes in the fixed format of SPC, with response code 70h, and VALID and INFORMATION
/// 0. A key below 16, as all keys of the standard are, is read back (`told`); a larger one spoils the bits beside it.
pub fn encode_sense(sense: &Sense) -> [u8; 18]
    ensures data { IsSenseData result sense.now }
    ensures told { sense.now.key < 16 → Tells result sense.now }
{
    let mut bytes = [0; 18];
    bytes[0] = 0x70;
    bytes[2] = sense.key;
    bytes[7] = 10;
    bytes[12] = sense.asc;
    bytes[13] = sense.ascq;
    bytes
}

/// The sense that these bytes hold, whatever their additional length (byte 7). `None` where they end before the
/// qualifier, or their response code isn't 70h.
pub fn decode_sense(bytes: &[u8]) -> Option<Sense>
    ensures some { (s : Sense) → (result ≡ Some s) ↔ Tells bytes.now s }
    ensures none { IsNone result ↔ (¬ TellsOfError bytes.now) }
{
    if bytes.len() < 14 || bytes[0] & 0x7F != 0x70 {
        return None;
    }
    Some(Sense {
        key: bytes[2] & 0x0F,
        asc: bytes[12],
        ascq: bytes[13],
    })
}
