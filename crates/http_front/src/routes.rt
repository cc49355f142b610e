//! Which route a path has.
ghost use Rattle.std.specs.Prelude.{◌≡◌, OnOk, IfOk};
ghost use Rattle.http_front.specs.Routes.{added, all_routes, allows, method_of, methods_of, route_of, served_of, serves};
ghost use Rattle.http_front.specs.declared.routes.Route.TheVariants.{Record};

use crate::refused::Allow;
use matchit::{InsertError, Router};
use q_base::Memory;
use std::alloc::Global;
use std::marker::Model;

/// What precedes the names in the path of a record.
pub const RECORDS: &[u8] = b"/v1/d/";

/// What precedes the name in the path of a query.
pub const QUERIES: &[u8] = b"/v1/q/";

/// What a path names.
#[derive(Clone, Copy, Debug, PartialEq, Eq)]
pub enum Route {
    /// A record of a collection.
    Record,
    /// A query over a collection.
    Query,
    /// The page of the outdated keys.
    Filter,
    /// The keys that were outdated, in turn.
    Purges,
    /// The match of all commits.
    Match,
    /// The commit up to which old changes are dropped.
    Horizon,
    /// The numbers of the store.
    Stats,
}

/// A method that some route has.
#[derive(Clone, Copy, Debug, PartialEq, Eq)]
pub enum Method {
    Get,
    Head,
    Post,
    Put,
    Delete,
}

impl Route {
    /// The methods of the route.
    pub fn methods(self) -> Allow
        ensures { result ≡ methods_of self }
    {
        match self {
            Route::Record => Allow::Record,
            Route::Match | Route::Horizon => Allow::Post,
            Route::Query | Route::Filter | Route::Purges | Route::Stats => Allow::Other,
        }
    }
}

impl Method {
    /// The method of these bytes.
    pub fn read(text: &[u8]) -> Option<Method>
        ensures { result ≡ method_of text.now }
    {
        if text == b"GET".as_slice() {
            return Some(Method::Get);
        }
        if text == b"HEAD".as_slice() {
            return Some(Method::Head);
        }
        if text == b"POST".as_slice() {
            return Some(Method::Post);
        }
        if text == b"PUT".as_slice() {
            return Some(Method::Put);
        }
        if text == b"DELETE".as_slice() {
            return Some(Method::Delete);
        }
        None
    }

    /// Whether it is one of these methods.
    pub fn is_of(self, methods: Allow) -> bool
        ensures { result ≡ allows methods self }
    {
        match methods {
            Allow::Record => self != Method::Post,
            Allow::Post => self == Method::Post,
            Allow::Other => self == Method::Get || self == Method::Head,
        }
    }
}

/// The routes that are served. Every other path has none.
#[derive(Clone, Copy, Debug, PartialEq, Eq)]
pub struct Served {
    pub records: bool,
    pub queries: bool,
    pub page: bool,
    pub purges: bool,
    pub matching: bool,
    pub horizon: bool,
    pub stats: bool,
}

/// All routes.
pub const ALL_ROUTES: Served = Served {
    records: true,
    queries: true,
    page: true,
    purges: true,
    matching: true,
    horizon: true,
    stats: true,
};

impl Served {
    /// Whether a route is served.
    pub fn serves(self, route: Route) -> bool
        ensures { result ≡ serves self route }
    {
        match route {
            Route::Record => self.records,
            Route::Query => self.queries,
            Route::Filter => self.page,
            Route::Purges => self.purges,
            Route::Match => self.matching,
            Route::Horizon => self.horizon,
            Route::Stats => self.stats,
        }
    }
}

/// The table of routes, read once, and which of them are served. Contracts see these.
#[derive(Drop)]
pub struct Routes {
    router: Router<Route>,
    served: Served,
}

impl Model for Routes {
    ghost use Rattle.http_front.specs.Routes.{IsTable};
    ghost use Rattle.http_front.specs.declared.routes.Served.{Served};

    ghost Value = { Served };

    ghost view = { λ r. r.served };

    ghost invariant = { λ r. IsTable r.router };
}

impl Routes {
    /// The routes of the server.
    pub fn new(alloc: Global) -> Result<Routes, Memory>
        ensures { IfOk result (λ routes. routes ≡ all_routes) }
    {
        Routes::of(alloc, ALL_ROUTES)
    }

    /// Some of them.
    pub fn of(alloc: Global, served: Served) -> Result<Routes, Memory>
        ensures { IfOk result (λ routes. routes ≡ served) }
    {
        let mut router = Router::new(alloc);
        add(&mut router, "/v1/d/{collection}/{id}", Route::Record)?;
        add(&mut router, "/v1/q/{collection}", Route::Query)?;
        add(&mut router, "/v1/filter", Route::Filter)?;
        add(&mut router, "/v1/purges", Route::Purges)?;
        add(&mut router, "/v1/match", Route::Match)?;
        add(&mut router, "/v1/horizon", Route::Horizon)?;
        add(&mut router, "/v1/stats", Route::Stats)?;
        Ok(Routes { router, served })
    }

    /// Whether records are served.
    #[inline(always)]
    pub fn serve_records(&self) -> bool
        ensures { result ≡ serves self.now Record }
    {
        self.served.records
    }

    /// The route of a path, where it is served.
    pub fn route_of(&self, path: &[u8]) -> Option<Route>
        ensures { result ≡ served_of self.now (route_of path.now) }
    {
        match self.found(path) {
            Some(route) if self.served.serves(route) => Some(route),
            _ => None,
        }
    }

    /// The route of a path in the table.
    fn found(&self, path: &[u8]) -> Option<Route>
        ensures { result ≡ route_of path.now }
    {
        let Ok(path) = str::from_utf8(path) else {
            return None;
        };
        match self.router.at(path) {
            Ok(found) => Some(*found.value),
            Err(_) => None,
        }
    }
}

/// Adds a route.
fn add(router: &mut Router<Route>, text: &str, route: Route) -> Result<(), Memory>
    ensures { OnOk result (router.new ≡ added text.now route router.old) }
{
    match router.insert(text, route) {
        Ok(()) => Ok(()),
        Err(_) => Err(Memory),
    }
}
