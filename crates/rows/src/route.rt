//! The two routes by which a row is labelled.
ghost use Rattle.std.specs.Prelude.{◌≡◌, Some};
ghost use Rattle.rows.specs.RouteNumber.{route_number, Numbers};
ghost use Rattle.rows.specs.Words.{unknown_route_in_words};

use std::error::Error;
use std::fmt;

/// How a row is labelled: on the machine itself, or on the Kripke structure that it is translated to.
#[derive(Clone, Copy, PartialEq, Eq, Debug)]
pub enum Route {
    Direct,
    Translated,
}

/// A number that no route has.
#[derive(Clone, Copy, PartialEq, Eq, Debug)]
pub struct UnknownRoute(pub u8);

/// The route's number in jobs and reports.
impl From<Route> for u8 {
    ghost from_gives = { λ route number. number ≡ route_number route };

    fn from(route: Route) -> u8 {
        match route {
            Route::Direct => 0,
            Route::Translated => 1,
        }
    }
}

/// The route of a number in jobs and reports.
impl TryFrom<u8> for Route {
    type Error = UnknownRoute;

    ghost try_from_gives = { Numbers };

    fn try_from(number: u8) -> Result<Route, UnknownRoute> {
        match number {
            0 => Ok(Route::Direct),
            1 => Ok(Route::Translated),
            _ => Err(UnknownRoute(number)),
        }
    }
}

impl fmt::Display for UnknownRoute {
    ghost output = { λ e. Some (unknown_route_in_words e) };

    fn fmt<W: fmt::Write>(&self, f: &mut fmt::Formatter<W>) -> fmt::Result {
        write!(f, "no route has number {}", self.0)
    }
}

impl Error for UnknownRoute {}
