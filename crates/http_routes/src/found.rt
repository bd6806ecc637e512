//! The route that a path has, with the parts that stand in it for the route's parameters.

ghost use Rattle.std.specs.Prelude.{◌≡◌};
ghost use Rattle.http_routes.specs.Routes.{route};
ghost use Rattle.http_routes.specs.Shown.{found_shown};

use crate::router::Route;

/// The route that a path has, with its parts, as they stand, not decoded.
#[derive(Clone, Copy)]
pub enum Found<'p> {
    /// `/bugs`.
    Bugs,
    /// `/control`.
    Control,
    /// `/branches`.
    Branches,
    /// `/bugs/{n}`, with that part.
    Bug(&'p str),
    /// `/list/{package}/{*version}`, with those parts.
    List(ListParts<'p>),
}

/// The two parts of a path `/list/{package}/{*version}`.
#[derive(Clone, Copy)]
pub struct ListParts<'p> {
    pub package: &'p str,
    /// It may have slashes.
    pub version: &'p str,
}

impl Found<'_> {
    /// The route alone.
    pub fn route(&self) -> Route
        ensures { result ≡ route (found_shown self.now) }
    {
        match self {
            Found::Bugs => Route::Bugs,
            Found::Control => Route::Control,
            Found::Branches => Route::Branches,
            Found::Bug(_) => Route::Bug,
            Found::List(_) => Route::List,
        }
    }
}
