//! Where the bytes of pieces stand that C moves.

ghost use Rattle.std.specs.Prelude.{◌≡◌, None, IfOk, OnErr, replicate};
ghost use Rattle.saddlemug.specs.Places.{StandsAt};

use std::alloc::{AllocError, Global};

/// The bytes of a piece that C was told of. C reads and writes them between two calls.
#[derive(Drop)]
pub struct PieceBytes {
    pub(crate) piece: u128,
    pub(crate) bytes: Vec<u8>,
}

/// A place for each tag, and no piece in any.
pub(crate) fn no_places(alloc: Global) -> Result<Vec<Option<PieceBytes>>, AllocError>
    ensures { IfOk result (λ places. places.items ≡ replicate 256 None) }
{
    let mut places = Vec::with_capacity(alloc, 256)?;
    for _ in 0..256u16 {
        places.push_reserved(None);
    }
    Ok(places)
}

/// Puts a piece with its bytes into a place, unless it stands there already, and gives their address.
pub(crate) fn stand(
    alloc: Global,
    place: &mut Option<PieceBytes>,
    piece: u128,
    srb_data: &[u8],
) -> Result<*mut u8, AllocError>
    ensures stands { IfOk result (λ at. StandsAt place.old piece srb_data.now at place.new) }
    ensures same { OnErr result (place.new ≡ place.old) }
{
    match place {
        Some(own) if own.piece == piece => Ok(own.bytes.as_mut_ptr()),
        _ => {
            let mut bytes = Vec::from_slice(alloc, srb_data)?;
            let at = bytes.as_mut_ptr();
            *place = Some(PieceBytes { piece, bytes });
            Ok(at)
        }
    }
}
