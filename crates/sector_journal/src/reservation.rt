//! What a request may move, and the pieces that it may be cut into.

ghost use Rattle.std.specs.Prelude.{◌≡◌, ◌≤◌, ◌<◌, ◌+◌, ◌*◌, ◌/◌, ◌%◌, min, ◌^◌, ◌&&◌, ◌||◌, ℕ};
ghost use Rattle.sector_journal.specs.Reserving.{covers, is_flush, is_read, is_same, is_write, lies_in, of_length, pieces_of, pieces_with};

use sector::Extent;
use srb::Kind;

/// What an open request may move.
#[derive(Debug, Clone, Copy, PartialEq, Eq)]
pub struct Reservation {
    /// The request, by whatever number its caller gave it.
    pub request: u64,
    pub kind: Kind,
    /// The extent on the disk; for a flush no sector of it is reserved.
    pub extent: Extent,
    /// The most sectors of a piece, at least 1.
    pub max_transfer: u32,
}

/// Buffers of one length, for so many pieces.
#[derive(Debug, Clone, Copy, PartialEq, Eq)]
pub(crate) struct Buffers {
    pub pieces: usize,
    /// The length of a piece, in bytes.
    pub length: usize,
}

fn is_read(kind: Kind) -> bool
    ensures { result ≡ is_read kind }
{
    match kind {
        Kind::Read => true,
        Kind::Write | Kind::Flush => false,
    }
}

pub(crate) fn is_write(kind: Kind) -> bool
    ensures { result ≡ is_write kind }
{
    match kind {
        Kind::Write => true,
        Kind::Read | Kind::Flush => false,
    }
}

fn is_flush(kind: Kind) -> bool
    ensures { result ≡ is_flush kind }
{
    match kind {
        Kind::Flush => true,
        Kind::Read | Kind::Write => false,
    }
}

fn is_same(kind: Kind, other: Kind) -> bool
    ensures { result ≡ is_same kind other }
{
    match kind {
        Kind::Read => is_read(other),
        Kind::Write => is_write(other),
        Kind::Flush => is_flush(other),
    }
}

/// Whether each sector of an extent is one of another's.
fn lies_in(extent: Extent, other: Extent) -> bool
    ensures { result ≡ lies_in extent other }
{
    other.first <= extent.first
        && extent.count <= other.count
        && extent.first - other.first <= other.count - extent.count
}

impl Reservation {
    /// Whether a piece of this kind and extent may be one of the request's.
    pub fn covers(&self, kind: Kind, extent: Extent) -> bool
        ensures { result ≡ covers kind extent self.now }
    {
        is_same(kind, self.kind) && (is_flush(kind) || lies_in(extent, self.extent))
    }

    /// The buffers of the pieces of full length, and that of what is left, if there is one. A flush has only this one.
    pub(crate) fn buffers(&self, sector_size: u32) -> (Buffers, Buffers)
        requires { 1 ≤ self.now.max_transfer }
        ensures together { result.0.pieces + result.1.pieces ≡ pieces_of self.now }
        ensures lengths { (long : ℕ) → of_length result.0.pieces result.0.length long + of_length result.1.pieces result.1.length long ≡ pieces_with sector_size long self.now }
        ensures fits { result.0.pieces + result.1.pieces < 2 ^ 64 }
    {
        let most = self.max_transfer as u64;
        let size = sector_size as u64;
        match self.kind {
            Kind::Read => cut(self.extent.count, most, size),
            Kind::Write => cut(self.extent.count, most, size),
            Kind::Flush => (buffers_for(0, 0), buffers_for(1, 0)),
        }
    }
}

fn buffers_for(pieces: u64, length: u64) -> Buffers
    ensures { (result.pieces ≡ pieces) × (result.length ≡ length) }
{
    Buffers {
        pieces: pieces as usize,
        length: length as usize,
    }
}

fn cut(count: u64, most: u64, size: u64) -> (Buffers, Buffers)
    requires some { 1 ≤ most }
    requires most { most < 2 ^ 32 }
    requires size { size < 2 ^ 32 }
    ensures together { result.0.pieces + result.1.pieces ≡ count / most + min (count % most) 1 }
    ensures lengths { (long : ℕ) → of_length result.0.pieces result.0.length long + of_length result.1.pieces result.1.length long ≡ of_length (count / most) (most * size) long + of_length (min (count % most) 1) (count % most * size) long }
    ensures fits { result.0.pieces + result.1.pieces < 2 ^ 64 }
{
    let left = count % most;
    (
        buffers_for(count / most, most * size),
        buffers_for(left.min(1), left * size),
    )
}
