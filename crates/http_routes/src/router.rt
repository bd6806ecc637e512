//! The five routes, and which of them a path has.

ghost use Rattle.std.specs.Prelude.{◌≡◌, [], OnOk, IfSome, IfNone, IsSome, Some, option_map};
ghost use Rattle.matchit.specs.Params.{AllText, named};
ghost use Rattle.http_routes.specs.Routes.{method, HasRoute, HasNoRoute, route_at};
ghost use Rattle.http_routes.specs.Shown.{found_shown};
ghost use Rattle.http_routes.specs.Rows.{route_text, with_route, routes};
ghost use Rattle.http_routes.specs.Free.{IsFree};
ghost use Rattle.http_routes.specs.Match.{parts_of, found_with};

use crate::found::{Found, ListParts};
use matchit::{InsertError, Params, Router};
use std::alloc::{AllocError, Global};

/// A route of the desk.
#[derive(Clone, Copy, Debug, PartialEq, Eq)]
pub enum Route {
    /// `/bugs`: a report.
    Bugs,
    /// `/control`: a control message.
    Control,
    /// `/branches`: a branch of versions.
    Branches,
    /// `/bugs/{n}`: the page of a bug.
    Bug,
    /// `/list/{package}/{*version}`: the list of a package's bugs at a version.
    List,
}

/// The one method of a route, which a 405 names under `Allow` (RFC 9110, section 10.2.1).
/// This is this project's own rule.
pub fn method(route: Route) -> &'static str
    ensures { result.now ≡ method route }
{
    match route {
        Route::Bugs | Route::Control | Route::Branches => "POST",
        Route::Bug | Route::List => "GET",
    }
}

// The text of a route, with its parameters in braces.
fn text(route: Route) -> &'static str
    ensures { result.now ≡ route_text route }
{
    match route {
        Route::Bugs => "/bugs",
        Route::Control => "/control",
        Route::Branches => "/branches",
        Route::Bug => "/bugs/{n}",
        Route::List => "/list/{package}/{*version}",
    }
}

// Adds a route that conflicts with none of the router's, so that an error is out of memory.
fn add(router: &mut Router<Route>, route: Route) -> Result<(), AllocError>
    requires { IsFree route router.old }
    ensures { OnOk result (router.new ≡ with_route route router.old) }
{
    match router.insert(text(route), route) {
        Ok(()) => Ok(()),
        Err(InsertError::OutOfMemory) => Err(AllocError),
        Err(_) => unreachable!(),
    }
}

// Adds the five routes to a router that has none.
// Of all orders this one takes the fewest instructions.
fn add_routes(router: &mut Router<Route>) -> Result<(), AllocError>
    requires { router.old ≡ [] }
    ensures { OnOk result (router.new ≡ routes) }
{
    add(router, Route::Branches)?;
    add(router, Route::Control)?;
    add(router, Route::Bug)?;
    add(router, Route::List)?;
    add(router, Route::Bugs)
}

// The part of this name, which was found.
fn part<'p>(params: &Params<'_, 'p>, name: &str) -> &'p str
    requires text { AllText (parts_of params.now) }
    requires there { IsSome (named name.now (parts_of params.now)) }
    ensures { named name.now (parts_of params.now) ≡ Some result.now }
{
    match params.get(name) {
        Some(part) => part,
        None => unreachable!(),
    }
}

// A route with its parts, which were found.
fn with_parts<'p>(route: Route, params: &Params<'_, 'p>) -> Found<'p>
    requires text { AllText (parts_of params.now) }
    requires there { IsSome (found_with route (parts_of params.now)) }
    ensures { found_with route (parts_of params.now) ≡ Some (found_shown result) }
{
    match route {
        Route::Bugs => Found::Bugs,
        Route::Control => Found::Control,
        Route::Branches => Found::Branches,
        Route::Bug => Found::Bug(part(params, "n")),
        Route::List => Found::List(ListParts {
            package: part(params, "package"),
            version: part(params, "version"),
        }),
    }
}

// The route that the router finds for a path, with its parts.
fn found_in<'p>(router: &Router<Route>, path: &'p str) -> Option<Found<'p>>
    requires { router.now ≡ routes }
    ensures { option_map found_shown result ≡ route_at path.now }
{
    match router.at(path) {
        Ok(found) => Some(with_parts(*found.value, &found.params)),
        Err(_) => None,
    }
}

/// The table of the five routes, ready to be asked for the route of a path.
#[derive(Drop)]
pub struct RouteTable {
    router: Router<Route>,
    ghost five: { router ≡ routes },
}

impl RouteTable {
    /// The table of the five routes.
    ///
    /// # Errors
    ///
    /// Where there is no memory for it, and for no other reason.
    pub fn new(alloc: Global) -> Result<RouteTable, AllocError> {
        let mut router = Router::new(alloc);
        add_routes(&mut router)?;
        Ok(RouteTable { router })
    }

    /// The route of a path, with its parts, which `matchit` finds.
    /// `{n}` and `{package}` stand for one byte or more without a slash, `{*version}` for one byte
    /// or more up to the end, and any other byte of a route for itself.
    /// Nothing of the path is decoded before, and nothing takes memory.
    /// This is this project's own rule.
    pub fn find<'p>(&self, path: &'p str) -> Option<Found<'p>>
        ensures route { option_map found_shown result ≡ route_at path.now }
        ensures has { IfSome result (λ found. HasRoute path.now (found_shown found)) }
        ensures none { IfNone result (HasNoRoute path.now) }
    {
        found_in(&self.router, path)
    }
}
