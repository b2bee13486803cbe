//! The point that is asked for, of an application.
ghost use Rattle.std.specs.Prelude.{◌≡◌, ℕ, Some, None, MatchResult, map};
ghost use Rattle.model.specs.Points.{IsPoint};
ghost use Rattle.model.specs.Words.{source_named};
ghost use Rattle.requests.specs.Asked.{names_in, pair_at, pairs_in};
ghost use Rattle.campaign.specs.Named.{IsFirstUnknown, injection_named};
ghost use Rattle.campaign.specs.declared.file.ServeFault.TheVariants as fault;

use crate::file::ServeFault;
use model::{App, Injection, Point};
use requests::{At, NamedInjections, NamedPoint};

// The injection of the interrupt that has the name, which is the one in this place.
fn injection_named(app: &App, at: At<'_>, place: usize) -> Result<Injection, ServeFault>
    ensures { MatchResult result (λ injection. injection_named app.now (pair_at at.entry) ≡ Some injection)
        (λ given. (given ≡ fault.UnknownHandler place) × (source_named app.now at.entry.handler.now ≡ None)) }
{
    let At { step, handler } = at;
    match app.source_named(handler) {
        Some(handler) => Ok(Injection { step, handler }),
        None => Err(ServeFault::UnknownHandler(place)),
    }
}

// These injections as a point.
fn point_of(injections: &[Injection]) -> Point
    requires { IsPoint injections.now }
    ensures { result ≡ injections.now }
{
    match Point::new(injections) {
        Ok(point) => point,
        Err(_) => unreachable!(),
    }
}

/// The point of the interrupts that have these names. At `UnknownHandler` no handler has the name in this place, nor
/// is it the tick's; it is the first such.
pub fn point_named(app: &App, named: &NamedPoint<'_>) -> Result<Point, ServeFault>
    ensures { MatchResult result (λ point. map (injection_named app.now) (pairs_in named.now.injections) ≡ map Some point)
        (λ given. (place : ℕ) × (given ≡ fault.UnknownHandler place)
        × IsFirstUnknown app.now (names_in (pairs_in named.now.injections)) place) }
{
    match named.injections {
        NamedInjections::One(first) => {
            let first = injection_named(app, first, 0)?;
            Ok(Point::one(first.step, first.handler))
        }
        NamedInjections::Two(first, second) => {
            let first = injection_named(app, first, 0)?;
            let second = injection_named(app, second, 1)?;
            Ok(point_of(&[first, second]))
        }
        NamedInjections::Three(first, second, third) => {
            let first = injection_named(app, first, 0)?;
            let second = injection_named(app, second, 1)?;
            let third = injection_named(app, third, 2)?;
            Ok(point_of(&[first, second, third]))
        }
    }
}
