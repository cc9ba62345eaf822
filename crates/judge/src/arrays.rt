//! The sectors of a partition. Those that were never written take no memory.

ghost use Rattle.std.specs.Prelude.{◌≡◌, ◌+◌, ◌≤◌, ◌<◌, [], ◌∷◌, IfOk, OnOk, length, replicate, slice_get, slice_index_or, slice_range, option_copied, unwrap_or};
ghost use Rattle.std.specs.Bool.{OnTrue};
ghost use Rattle.sector.specs.Splice.{splice};
ghost use Rattle.machine.specs.Sending.{array_at};
ghost use Rattle.judge.specs.Sparse.{AreHeld};

use crate::copies::Copied;
use crate::sameness::Compared;
use sector::Bytes;
use std::alloc::{AllocError, Global};
use std::collections::BTreeMap;
use std::marker::Model;

/// The sectors of a partition, each with its bytes. Those that were written take memory, and no others.
#[derive(Debug, Drop)]
pub struct Sectors {
    blank: Vec<u8>,
    count: u64,
    written: BTreeMap<u64, Vec<u8>>,
}

impl Model for Sectors {
    ghost use Rattle.std.specs.Prelude.{List, ℕ};
    ghost use Rattle.judge.specs.Sparse.{sectors_of};

    ghost Value = { List (List ℕ) };

    ghost view = { λ a. sectors_of a.blank.items a.count a.written };
}

impl Sectors {
    /// This many sectors, each with these bytes. No memory is taken.
    pub fn filled(alloc: Global, count: u64, sector: Bytes) -> Sectors
        ensures { result ≡ replicate count sector }
    {
        Sectors {
            blank: sector.into_vec(),
            count,
            written: BTreeMap::new(alloc),
        }
    }

    /// An array of these sectors.
    ///
    /// # Errors
    ///
    /// [`AllocError`] where memory was refused.
    pub fn new(alloc: Global, sectors: Vec<Bytes>) -> Result<Sectors, AllocError>
        ensures { IfOk result (λ all. all ≡ sectors.items) }
    {
        let mut all = Sectors::filled(alloc, 0, Bytes::new(Vec::new(alloc)));
        all.write(0, sectors)?;
        Ok(all)
    }

    /// The number of sectors.
    pub fn len(&self) -> u64
        ensures { result ≡ length self.now }
    {
        self.count
    }

    /// The bytes of a sector.
    pub fn at(&self, number: u64) -> &[u8]
        requires { number < length self.now }
        ensures { result.now ≡ slice_index_or self.now number [] }
    {
        match self.written.get(&number) {
            Some(bytes) => bytes.as_slice(),
            None => self.blank.as_slice(),
        }
    }

    /// Puts a sector in the place of one, or behind all. Returns the number of the next.
    fn put(&mut self, number: u64, sector: Bytes) -> Result<u64, AllocError>
        requires { number ≤ length self.old }
        ensures next { IfOk result (λ next. next ≡ number + 1) }
        ensures put { OnOk result (self.new ≡ splice self.old number (sector ∷ [])) }
    {
        if number == u64::MAX {
            return Err(AllocError);
        }
        self.written.insert(number, sector.into_vec())?;
        self.count = self.count.max(number + 1);
        Ok(number + 1)
    }

    /// Puts sectors in the place of as many from one on; those that have no place stand behind all.
    ///
    /// # Errors
    ///
    /// [`AllocError`] where memory was refused, or the number of sectors has no room left.
    pub fn write(&mut self, first: u128, sectors: Vec<Bytes>) -> Result<(), AllocError>
        ensures { OnOk result (self.new ≡ splice self.old first sectors.items) }
    {
        let mut number = first.min(self.count as u128) as u64;
        for sector in sectors {
            number = self.put(number, sector)?;
        }
        Ok(())
    }
}

/// Copies what was written.
fn written_copied(written: &BTreeMap<u64, Vec<u8>>) -> Result<BTreeMap<u64, Vec<u8>>, AllocError>
    ensures { IfOk result (λ copy. AreHeld written.now copy) }
{
    let copy = written.clone()?;
    Ok(copy)
}

impl Copied for Sectors {
    #[tactic(auto, using(crate::proofs::Sparse::same_copy))]
    fn copied(&self, alloc: Global) -> Result<Sectors, AllocError> {
        Ok(Sectors {
            blank: Vec::from_slice(alloc, self.blank.as_slice())?,
            count: self.count,
            written: written_copied(&self.written)?,
        })
    }
}

/// Whether two partitions have the same written sectors.
fn have_same_written(a: &BTreeMap<u64, Vec<u8>>, b: &BTreeMap<u64, Vec<u8>>) -> bool
    ensures { OnTrue result (AreHeld a.now b.now) }
{
    a == b
}

/// Whether these are the same bytes.
fn are_same_bytes(a: &[u8], b: &[u8]) -> bool
    ensures { OnTrue result (a.now ≡ b.now) }
{
    a == b
}

impl Compared for Sectors {
    #[tactic(auto, using(crate::proofs::Sparse::seen_same))]
    fn is_same(&self, other: &Sectors) -> bool {
        if self.count != other.count {
            return false;
        }
        if !are_same_bytes(self.blank.as_slice(), other.blank.as_slice()) {
            return false;
        }
        have_same_written(&self.written, &other.written)
    }
}

/// Some sectors of a partition that stand one after the other, lent.
#[derive(Debug, Drop)]
pub(crate) struct Part<'a> {
    array: Option<&'a Sectors>,
    from: u128,
    to: u128,
}

impl<'a> Model for Part<'a> {
    ghost use Rattle.std.specs.Prelude.{List, ℕ, [], option_copied, slice_range, unwrap_or};

    ghost Value = { List (List ℕ) };

    ghost view = { λ p. slice_range (unwrap_or (option_copied p.array) []) p.from p.to };
}

/// The number of sectors of an array, if there is one.
fn count_of(array: Option<&Sectors>) -> u64
    ensures { result ≡ length (unwrap_or (option_copied array.entry) []) }
{
    match array {
        Some(array) => array.len(),
        None => 0,
    }
}

/// A sector of an array; no bytes where there is no such sector.
fn sector_of(array: Option<&Sectors>, number: u128) -> &[u8]
    ensures { result.now ≡ slice_index_or (unwrap_or (option_copied array.entry) []) number [] }
{
    let Some(array) = array else {
        return &[];
    };
    if number < array.len() as u128 {
        array.at(number as u64)
    } else {
        &[]
    }
}

impl<'a> Part<'a> {
    /// The number of sectors.
    pub fn len(&self) -> u64
        ensures { result ≡ length self.now }
    {
        let end = self.to.min(count_of(self.array) as u128);
        end.saturating_sub(self.from) as u64
    }

    /// The bytes of a sector, counted from the first of these.
    pub fn at(&self, number: u64) -> &'a [u8]
        requires { number < length self.now }
        ensures { result.now ≡ slice_index_or self.now number [] }
    {
        if self.from >= count_of(self.array) as u128 {
            return &[];
        }
        sector_of(self.array, self.from + number as u128)
    }
}

/// The sectors of an array; none where there is no such array.
pub(crate) fn array_of(arrays: &[Sectors], partition: usize) -> Option<&Sectors>
    ensures { option_copied result ≡ slice_get arrays.now partition }
{
    arrays.get(partition)
}

/// The sectors of an array from one on, up to another; fewer where it ends before, and none where there is no such
/// array.
pub(crate) fn part_of(arrays: &[Sectors], partition: usize, from: u128, to: u128) -> Part<'_>
    ensures { result ≡ slice_range (array_at arrays.now partition) from to }
{
    Part {
        array: array_of(arrays, partition),
        from,
        to,
    }
}
