//! The text of a point on the command line.
ghost use Rattle.std.specs.Prelude.{◌≡◌, map, option_map, true};
ghost use Rattle.std.specs.List.{AllByRecursion};
ghost use Rattle.grammar.specs.Names.{is_name};
ghost use Rattle.grammar.specs.Points.{may_be_point, pair_view};
ghost use Rattle.requests.specs.Asked.{pair_at, pairs_in, pairs_spelled};

use crate::at::{At, NamedInjections};
use crate::named_point::NamedPoint;
use grammar::{RawInjection, RawPoint, read_point};
use std::str;

// The same injection, with its name as a text.
fn at_of<'a>(pair: &RawInjection<'a>) -> At<'a>
    requires { is_name pair.now.handler.now ≡ true }
    ensures { pair_at result ≡ pair_view pair.now }
{
    match str::from_utf8(pair.handler) {
        Ok(handler) => At {
            step: pair.step,
            handler,
        },
        Err(_) => unreachable!(),
    }
}

// The same injections, which may be a point.
fn injections_of<'a>(pairs: &[RawInjection<'a>]) -> NamedInjections<'a>
    requires names { AllByRecursion (λ pair. is_name pair.handler.now ≡ true) pairs.now }
    requires point { may_be_point (map pair_view pairs.now) ≡ true }
    ensures { pairs_in result ≡ map pair_view pairs.now }
{
    match pairs {
        [first] => NamedInjections::One(at_of(first)),
        [first, second] => NamedInjections::Two(at_of(first), at_of(second)),
        [first, second, third] => {
            NamedInjections::Three(at_of(first), at_of(second), at_of(third))
        }
        _ => unreachable!(),
    }
}

/// The point that a text spells, if it spells one.
pub(crate) fn point_spelled(text: &str) -> Option<NamedPoint<'_>>
    ensures { option_map (λ point. pairs_in point.injections) result ≡ pairs_spelled text.now }
{
    let Some(RawPoint::One(pairs)) = read_point(text.as_bytes()) else {
        return None;
    };
    let injections = injections_of(pairs.as_slice());
    Some(NamedPoint { injections })
}
