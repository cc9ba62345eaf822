//! Requests and pieces by their numbers.

ghost use Rattle.std.specs.Prelude.{◌≡◌, ◌≤◌, None, MatchOption, List, length};
ghost use Rattle.std.specs.Option.{option_copied};
ghost use Rattle.std.specs.List.{find, list_any, position, position_or_len};
ghost use Rattle.judge.specs.Picking.{take_out};
ghost use Rattle.judge.specs.Deciding.{has_number, is_piece, has_tag};
ghost use Rattle.judge.specs.Next.{comes_after};

use crate::open::Open;
use crate::pieces::Started;

/// The place of the first request of this number.
fn request_at(requests: &[Open], number: u64) -> Option<usize>
    ensures { result ≡ position (has_number number) requests.now }
{
    requests.iter().position(|open| open.has_number(number))
}

/// The place of the first piece of this number.
fn piece_at(pieces: &[Started], number: u128) -> Option<usize>
    ensures { result ≡ position (is_piece number) pieces.now }
{
    pieces.iter().position(|piece| piece.has_number(number))
}

/// Takes the first request of this number out.
#[tactic(auto, using(crate::proofs::Taking::taken, crate::proofs::Taking::not_taken))]
pub(crate) fn take_request(requests: &mut Vec<Open>, number: u64) -> Option<Open>
    ensures { MatchOption result (take_out (has_number number) requests.old.items ≡ None)
        (λ o. take_out (has_number number) requests.old.items ≡ Some (o, requests.new.items)) }
{
    let Some(at) = request_at(requests.as_slice(), number) else {
        return None;
    };
    Some(requests.remove(at))
}

/// Takes the first piece of this number out.
#[tactic(auto, using(crate::proofs::Taking::taken, crate::proofs::Taking::not_taken))]
pub(crate) fn take_piece(pieces: &mut Vec<Started>, number: u128) -> Option<Started>
    ensures { MatchOption result (take_out (is_piece number) pieces.old.items ≡ None)
        (λ piece. take_out (is_piece number) pieces.old.items ≡ Some (piece, pieces.new.items)) }
{
    let Some(at) = piece_at(pieces.as_slice(), number) else {
        return None;
    };
    Some(pieces.remove(at))
}

pub(crate) fn is_used(pieces: &[Started], tag: u8) -> bool
    ensures { result ≡ list_any (has_tag tag) pieces.now }
{
    pieces.iter().any(|piece| piece.has_tag(tag))
}

/// The request of this number, if it is among these.
pub(crate) fn request_of(requests: &[Open], number: u64) -> Option<&Open>
    ensures { option_copied result ≡ find (has_number number) requests.now }
{
    requests.iter().find(|open| open.has_number(number))
}

/// Whether a request of this number is open.
pub(crate) fn is_open(requests: &[Open], number: u64) -> bool
    ensures { result ≡ list_any (has_number number) requests.now }
{
    requests.iter().any(|open| open.has_number(number))
}

/// The place of the first request that came after the one of this number.
fn first_after(requests: &[Open], number: u64) -> Option<usize>
    ensures { result ≡ position (comes_after number) requests.now }
{
    requests.iter().position(|open| number < open.number())
}

/// The place of a request of this number among others: before the first that came after it.
pub(crate) fn place_for(requests: &[Open], number: u64) -> usize
    ensures is { result ≡ position_or_len (comes_after number) requests.now }
    ensures within { result ≤ length requests.now }
{
    match first_after(requests, number) {
        Some(at) => at,
        None => requests.len(),
    }
}
