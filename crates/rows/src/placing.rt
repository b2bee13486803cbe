//! Where the rows of each block are.
ghost use Rattle.std.specs.Prelude.{◌≡◌, ◌<◌, length, replicate, IfOk};
ghost use Rattle.std.specs.List.{AllByRecursion};
ghost use Rattle.rows.specs.declared.rows.KeptBlock as declared;
ghost use Rattle.rows.specs.Placing.{placed, all_placed, AreBelow};

use crate::rows::{KeptBlock, Part, Place};
use model::Memory;
use std::alloc::Global;

// Notes where the blocks of the part of this number are.
fn place_blocks(part: usize, blocks: &[KeptBlock], places: &mut [Place])
    requires { AllByRecursion (λ (block : declared.KeptBlock). block.number < length places.old) blocks.now }
    ensures { places.new ≡ placed part blocks.now places.old }
{
    for block in blocks {
        places[block.number] = Place {
            part,
            first: block.first,
            count: block.count,
        };
    }
}

// The place of each block of the parts.
fn place_all(parts: &[Part], places: &mut [Place])
    requires { AreBelow (length places.old) parts.now }
    ensures { places.new ≡ all_placed 0 parts.now places.old }
{
    for (number, part) in parts.iter().enumerate() {
        place_blocks(number, &part.blocks, places);
    }
}

/// The place of each of this many blocks, which are the parts'.
pub fn places_of(alloc: Global, parts: &[Part], count: usize) -> Result<Vec<Place>, Memory>
    requires { AreBelow count parts.now }
    ensures { IfOk result (λ places. places.items
        ≡ all_placed 0 parts.now (replicate count (record { part = 0; first = 0; count = 0 }))) }
{
    let none = Place {
        part: 0,
        first: 0,
        count: 0,
    };
    let Ok(mut places) = vec![in alloc; none; count] else {
        return Err(Memory);
    };
    place_all(parts, &mut places);
    Ok(places)
}
