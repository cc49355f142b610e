//! Which part of the protocol a request is counted under.
ghost use Rattle.std.specs.Prelude.{◌<◌};

/// The path of a record begins so.
const RECORDS: &[u8] = b"/v1/d/";

/// That of a query.
const QUERIES: &[u8] = b"/v1/q/";

/// Which part of the protocol a request is counted under, by the path of its target alone: a request that
/// is refused counts too.
#[derive(Clone, Copy, Debug, PartialEq, Eq)]
pub enum Route {
    Record,
    Query,
    Filter,
    Purges,
    Match,
    Horizon,
    Stats,
    /// Any other path, and a request whose line could not be read.
    Other,
}

impl Route {
    /// All of them, in the order of their cells.
    pub const ALL: [Route; 8] = [
        Route::Record,
        Route::Query,
        Route::Filter,
        Route::Purges,
        Route::Match,
        Route::Horizon,
        Route::Stats,
        Route::Other,
    ];

    /// The route of a target.
    pub fn of(target: &[u8]) -> Route {
        if target.starts_with(RECORDS) {
            Route::Record
        } else if target.starts_with(QUERIES) {
            Route::Query
        } else {
            named(target)
        }
    }

    /// Its number, from 0.
    pub fn cell(self) -> usize
        ensures { result < 8 }
    {
        match self {
            Route::Record => 0,
            Route::Query => 1,
            Route::Filter => 2,
            Route::Purges => 3,
            Route::Match => 4,
            Route::Horizon => 5,
            Route::Stats => 6,
            Route::Other => 7,
        }
    }

    /// Its name.
    pub fn name(self) -> &'static str {
        match self {
            Route::Record => "record",
            Route::Query => "query",
            Route::Filter => "filter",
            Route::Purges => "purges",
            Route::Match => "match",
            Route::Horizon => "horizon",
            Route::Stats => "stats",
            Route::Other => "other",
        }
    }
}

/// The route of a target that is one name, with or without a query.
fn named(target: &[u8]) -> Route {
    if is_path(target, b"/v1/filter") {
        Route::Filter
    } else if is_path(target, b"/v1/purges") {
        Route::Purges
    } else if is_path(target, b"/v1/match") {
        Route::Match
    } else if is_path(target, b"/v1/horizon") {
        Route::Horizon
    } else if is_path(target, b"/v1/stats") {
        Route::Stats
    } else {
        Route::Other
    }
}

/// Whether the target has this path.
fn is_path(target: &[u8], path: &[u8]) -> bool {
    match target.strip_prefix(path) {
        Some(rest) => rest.is_empty() || rest.starts_with(b"?"),
        None => false,
    }
}
