//! The laws of routes.
//! Their bodies are empty: the contracts are the laws.

ghost use Rattle.std.specs.Prelude.{◌≡◌, ◌<◌, ℕ, List, All, codes, Some, None, option_map};
ghost use Rattle.matchit.specs.Seek.{first};
ghost use Rattle.http_routes.specs.Rows.{routes};
ghost use Rattle.http_routes.specs.Routes.{route, route_at, HasRoute};
ghost use Rattle.http_routes.specs.Routes.{Found, FoundBugs, FoundControl, FoundBranches};
ghost use Rattle.http_routes.specs.Routes.{FoundBug, FoundList};

/// The route of a path, with its parts, is the one of the table that the path has with them, and a
/// path has one at most.
pub fn a_path_has_one_route()
    ensures found { (path : List ℕ) (found : Found) → route_at path ≡ Some found
        → HasRoute path found }
    ensures only { (path : List ℕ) (found : Found) → HasRoute path found
        → route_at path ≡ Some found }
{}

/// The route that the table gives to a path is the one that `matchit` finds for it.
/// It finds none where the path has none of the table.
pub fn the_router_finds_the_route()
    ensures { (path : List ℕ) → All (λ b. b < 256) path
        → option_map (λ row. row.value) (first routes path) ≡ option_map route (route_at path) }
{}

/// Which paths have a route, shown by paths: three by themselves, a bug's with one part that is not
/// empty and has no slash, and a list's with two parts, of which the second may have slashes.
pub fn paths_have_these_routes()
    ensures fixed { (route_at (codes "/bugs") ≡ Some FoundBugs)
        × (route_at (codes "/control") ≡ Some FoundControl)
        × (route_at (codes "/branches") ≡ Some FoundBranches) }
    ensures bug { route_at (codes "/bugs/7") ≡ Some (FoundBug (codes "7")) }
    ensures list { (route_at (codes "/list/foo/1:2/3") ≡ Some (FoundList (codes "foo") (codes "1:2/3")))
        × (route_at (codes "/list/foo//") ≡ Some (FoundList (codes "foo") (codes "/"))) }
    ensures no_fixed { (route_at (codes "/") ≡ None) × (route_at (codes "/bug") ≡ None)
        × (route_at (codes "/bugsy") ≡ None) × (route_at (codes "/Bugs") ≡ None)
        × (route_at (codes "bugs") ≡ None) }
    ensures no_bug { (route_at (codes "/bugs/") ≡ None) × (route_at (codes "/bugs/7/") ≡ None)
        × (route_at (codes "/bugs/7/8") ≡ None) × (route_at (codes "/control/7") ≡ None) }
    ensures no_list { (route_at (codes "/list") ≡ None) × (route_at (codes "/list/foo") ≡ None)
        × (route_at (codes "/list/foo/") ≡ None) × (route_at (codes "/list//1") ≡ None) }
{}
