//! How many workers `auto` means, and which words have it.
ghost use Rattle.std.specs.Prelude.{◌≡◌, ◌++◌, IfOk, if◌then◌else◌, [], decimal, map, option_map, string_bytes};
ghost use Rattle.std.specs.Int.NonZero.{non_zero_usize_get};
ghost use Rattle.requests.specs.Processors.{meant, meant_after, word_meant, workers_for};

use std::alloc::{AllocError, Global};
use std::num::NonZeroUsize;

// The most workers of a campaign.
const MOST: usize = 64;

// How many workers `auto` means, by how many processors the program may use; `None`: the system doesn't say.
fn workers_for(processors: Option<NonZeroUsize>) -> usize
    ensures { result ≡ workers_for (option_map non_zero_usize_get processors) }
{
    match processors {
        Some(count) => count.get().min(MOST),
        None => 1,
    }
}

// What a word means, after the one before it; itself if it is verbatim.
fn word_meant(
    alloc: Global,
    workers: usize,
    before: &str,
    word: &str,
    is_verbatim: bool,
) -> Result<String, AllocError>
    ensures { IfOk result (λ text. string_bytes text
        ≡ (if is_verbatim then word.now else word_meant (decimal workers) before.now word.now)) }
{
    if is_verbatim {
        return String::from_str(alloc, word);
    }
    if before == "--workers" && word == "auto" {
        return workers.to_string(alloc);
    }
    if word == "--workers=auto" {
        return format!(in alloc; "--workers={workers}");
    }
    String::from_str(alloc, word)
}

// Appends what the words mean that follow the program's name. At `Err` no memory is left, and some of them are appended.
#[tactic(auto, using(crate::proofs::Meaning::meant_all))]
fn push_meant(
    alloc: Global,
    workers: usize,
    words: &[String],
    meant: &mut Vec<String>,
) -> Result<(), AllocError>
    ensures { IfOk result (λ _. map string_bytes meant.new.items
        ≡ map string_bytes meant.old.items ++ meant_after (decimal workers) [] (map string_bytes words.now)) }
{
    let mut before = "";
    let mut is_verbatim = false;
    for word in words {
        let word = word.as_str();
        is_verbatim |= word == "--";
        meant.push(word_meant(alloc, workers, before, word, is_verbatim)?)?;
        before = word;
    }
    Ok(())
}

/// What the words mean if the program may use this many processors. At `Err` no memory is left.
pub fn meant(
    alloc: Global,
    processors: Option<NonZeroUsize>,
    words: &[String],
) -> Result<Vec<String>, AllocError>
    ensures { IfOk result (λ texts. map string_bytes texts.items
        ≡ meant (option_map non_zero_usize_get processors) (map string_bytes words.now)) }
{
    let mut meant = Vec::new(alloc);
    let Some((program, others)) = words.split_first() else {
        return Ok(meant);
    };
    meant.push(program.clone()?)?;
    push_meant(alloc, workers_for(processors), others, &mut meant)?;
    Ok(meant)
}
