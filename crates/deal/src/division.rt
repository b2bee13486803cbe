//! How a number of points is cut into blocks.
ghost use Rattle.std.specs.Prelude.{◌≡◌, ◌+◌, ◌/◌, ◌%◌, ◌^◌, ◌<◌, IfOk, IsTrue, ◌↔◌, MatchOption, MatchResult, length, slice_index, sum};
ghost use Rattle.deal.specs.Divisions.{ArePositive, AreStarts, MatchBad, even_lengths};
ghost use Rattle.deal.specs.declared.division.BadDivision.TheVariants.{ZeroLength};

use model::Memory;
use std::alloc::{AllocError, Global};
use std::marker::Model;

/// Why lengths are no division.
#[derive(Clone, Copy, PartialEq, Eq, Drop)]
pub enum BadDivision {
    /// The length at this place is 0, and none before it is.
    ZeroLength(usize),
    /// No length is 0, and their sum, without bound, is not the number of points.
    WrongSum,
}

/// A number of points cut into blocks of at least one point each. Contracts see the list of their
/// lengths.
#[derive(Drop)]
pub struct Division {
    lengths: Vec<usize>,
}

impl Model for Division {
    ghost use Rattle.std.specs.Prelude.{List, ℕ};
    ghost use Rattle.deal.specs.Divisions.{IsDivision};

    ghost Value = { List ℕ };

    ghost view = { λ d. d.lengths.items };

    ghost invariant = { λ d. IsDivision d.lengths.items };
}

impl Division {
    /// The division with these lengths, if each is at least 1 and their sum is `total`. For 0
    /// points there are no lengths.
    ///
    /// Takes no memory. A refusal names the first length of 0, and only then a wrong sum.
    pub fn new(total: usize, lengths: Vec<usize>) -> Result<Division, BadDivision>
        ensures { MatchResult result (λ d. (d ≡ lengths.items) × ArePositive d × (sum d ≡ total))
            (λ e. MatchBad e total lengths.items) }
    {
        if let Some(place) = first_zero(&lengths) {
            return Err(BadDivision::ZeroLength(place));
        }
        if !has_sum(&lengths, total) {
            return Err(BadDivision::WrongSum);
        }
        Ok(Division { lengths })
    }

    /// As many blocks of one length as the points make, and one of what is left over.
    pub fn even(alloc: Global, total: usize, block: usize) -> Result<Division, Memory>
        requires { 0 < block }
        ensures { IfOk result (λ d. d ≡ even_lengths total block) }
    {
        let mut lengths = vec![in alloc; block; total / block]?;
        let rest = total % block;
        if rest != 0 {
            lengths.push(rest)?;
        }
        Ok(Division { lengths })
    }

    /// The number of blocks.
    pub fn count(&self) -> usize
        ensures { result ≡ length self.now }
    {
        self.lengths.len()
    }

    /// The length of a block, in points.
    pub fn length(&self, block: usize) -> usize
        requires { block < length self.now }
        ensures { result ≡ slice_index self.now block }
    {
        self.lengths[block]
    }

    // The first point of each block.
    pub(crate) fn starts(&self, alloc: Global) -> Result<Vec<usize>, AllocError>
        ensures { IfOk result (λ starts. AreStarts self.now starts.items) }
    {
        starts_of(alloc, &self.lengths)
    }
}

// The place of the first length of 0.
fn first_zero(lengths: &[usize]) -> Option<usize>
    ensures { MatchOption result (ArePositive lengths.now) (λ i. MatchBad (ZeroLength i) 0 lengths.now) }
{
    for (i, length) in lengths.iter().enumerate() {
        if *length == 0 {
            return Some(i);
        }
    }
    None
}

// Whether the lengths add up to the total.
fn has_sum(lengths: &[usize], total: usize) -> bool
    ensures { IsTrue result ↔ (sum lengths.now ≡ total) }
{
    let mut left = total;
    for length in lengths {
        if *length > left {
            return false;
        }
        left -= *length;
    }
    left == 0
}

// The sum of the lengths before each.
fn starts_of(alloc: Global, lengths: &[usize]) -> Result<Vec<usize>, AllocError>
    requires { sum lengths.now < 2 ^ 64 }
    ensures { IfOk result (λ starts. AreStarts lengths.now starts.items) }
{
    let mut starts = Vec::with_capacity(alloc, lengths.len())?;
    let mut first = 0;
    for length in lengths {
        starts.push(first)?;
        first += *length;
    }
    Ok(starts)
}
