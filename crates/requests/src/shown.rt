//! The words that say what of a campaign's report is written.
ghost use Rattle.std.specs.Prelude.{◌≡◌, ◌<◌, ◌^◌, ℕ, Some, IfSome, IsNone};
ghost use Rattle.requests.specs.Shown.{either, ends_named, ends_of, shard_named, spelled};

use report::{Ends, Shard};

// The ends that a word of a list means.
fn ends_named(word: &str) -> Option<Ends>
    ensures { result ≡ ends_named word.now }
{
    let ends = match word {
        "pass" => Ends {
            pass: true,
            ..Ends::NONE
        },
        "check" => Ends {
            check: true,
            ..Ends::NONE
        },
        "misuse" => Ends {
            misuse: true,
            ..Ends::NONE
        },
        "ticks" => Ends {
            ticks: true,
            ..Ends::NONE
        },
        "steps" => Ends {
            steps: true,
            ..Ends::NONE
        },
        "stuck" => Ends {
            stuck: true,
            ..Ends::NONE
        },
        "failing" => Ends::FAILING,
        _ => return None,
    };
    Some(ends)
}

// The ends of either.
fn either(a: Ends, b: Ends) -> Ends
    ensures { result ≡ either a b }
{
    Ends {
        pass: a.pass || b.pass,
        check: a.check || b.check,
        misuse: a.misuse || b.misuse,
        ticks: a.ticks || b.ticks,
        steps: a.steps || b.steps,
        stuck: a.stuck || b.stuck,
    }
}

/// The ends that the words of a list mean, which are joined by commas. `None` if one of the words
/// means no end.
pub(crate) fn ends_of(list: &str) -> Option<Ends>
    ensures { result ≡ ends_of list.now }
{
    let mut ends = Ends::NONE;
    let mut rest = list;
    while let Some((word, others)) = rest.split_once(',') {
        ends = either(ends, ends_named(word)?);
        rest = others;
    }
    Some(either(ends, ends_named(rest)?))
}

// The number that decimal digits spell, if it is one of 32 bits.
fn spelled(text: &str) -> Option<u32>
    ensures some { IfSome result (λ number. spelled text.now ≡ Some number) }
    ensures none { IsNone result → (number : ℕ) → spelled text.now ≡ Some number → number < 2 ^ 32 → ⊥ }
{
    if text.starts_with('+') {
        return None;
    }
    text.parse::<u32>().ok()
}

/// The shard of a text `I/N`. `None`: there is none.
pub(crate) fn shard_named(text: &str) -> Option<Shard>
    ensures { result ≡ shard_named text.now }
{
    let (number, count) = text.split_once('/')?;
    Shard::new(spelled(number)?, spelled(count)?)
}
