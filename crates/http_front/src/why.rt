//! Why a request is refused or is not served, in words for its operator. They are of no effect on a reply,
//! and take no memory.

use crate::cut::{cut_at, cut_in_two};
use crate::names::is_name;
use crate::query::{field_named, is_among};
use crate::refused::{DocumentReason, QueryField, Refused};
use crate::routes::{QUERIES, RECORDS, Route};
use crate::target::local_part;
use crate::told::Told;
use http_message::FramingRefusal;
use hub_model::Written;

/// Why the request of this target is refused or is not served, or nothing where neither holds.
pub(crate) fn why_of(told: &Told, target: &[u8]) -> &'static str {
    match told {
        Told::Refusal(Refused::BadTarget, _) => part_of(target),
        Told::Refusal(refused, _) => why_refused(*refused),
        Told::Write(Written::Precondition { .. }) => "precondition",
        Told::Write(Written::Full { .. }) => "store full",
        Told::Memory => "memory",
        Told::Unkept => "unkept",
        _ => "",
    }
}

/// Why a request is refused, where its target is well formed.
fn why_refused(refused: Refused) -> &'static str {
    match refused {
        Refused::Framing(refused) => why_unframed(refused),
        Refused::BadHost => "host",
        Refused::Misdirected => "host not named",
        Refused::BadTarget => "target",
        Refused::NoRoute => "path",
        Refused::BadMethod(_) => "method",
        Refused::NoLength => "no length",
        Refused::BadEncoding => "content coding",
        Refused::BadTag => "condition",
        Refused::BadFilter(refused) => name_of(refused.field),
        Refused::BadDocument(reason) => why_no_document(reason),
    }
}

/// Why bytes cannot be framed.
fn why_unframed(refused: FramingRefusal) -> &'static str {
    match refused {
        FramingRefusal::BadHead => "head",
        FramingRefusal::HeadTooLarge => "head too large",
        FramingRefusal::BadLength => "length",
        FramingRefusal::BadCoding => "transfer coding",
        FramingRefusal::BodyTooLarge => "body too large",
    }
}

/// Why a body is no document.
fn why_no_document(reason: DocumentReason) -> &'static str {
    match reason {
        DocumentReason::NotJson => "document not JSON",
        DocumentReason::NotObject => "document no object",
        DocumentReason::TooDeep => "document too deep",
        DocumentReason::NotWhole => "document number not whole",
    }
}

/// What a field of a query gives.
fn name_of(field: QueryField) -> &'static str {
    match field {
        QueryField::Filter => "filter",
        QueryField::Order => "order",
        QueryField::Skip => "skip",
        QueryField::Take => "limit",
        QueryField::Kind => "kind",
        QueryField::From => "from",
    }
}

/// That a field of a query is repeated.
fn twice(field: QueryField) -> &'static str {
    match field {
        QueryField::Filter => "field f twice",
        QueryField::Order => "field o twice",
        QueryField::Skip => "field s twice",
        QueryField::Take => "field n twice",
        QueryField::Kind => "field k twice",
        QueryField::From => "field from twice",
    }
}

/// Which part of a target is refused.
fn part_of(target: &[u8]) -> &'static str {
    let Some(local) = local_part(target) else {
        return "target";
    };
    let (path, query) = cut_at(local, b'?');
    if let Some(query) = query
        && let Some(part) = field_of(path, query)
    {
        return part;
    }
    name_in(path)
}

/// Which name in a path is none, or that values of fields are refused where each name is one.
fn name_in(path: &[u8]) -> &'static str {
    if path.starts_with(RECORDS) {
        let (collection, _) = cut_in_two(&path[RECORDS.len()..], b'/');
        return if is_name(collection) {
            "id"
        } else {
            "collection"
        };
    }
    if path.starts_with(QUERIES) && !is_name(&path[QUERIES.len()..]) {
        return "collection";
    }
    if path == b"/v1/purges".as_slice() {
        return "from";
    }
    "query"
}

/// Which field of a query is refused by its name, or that the path takes none.
fn field_of(path: &[u8], query: &[u8]) -> Option<&'static str> {
    if path.starts_with(QUERIES) {
        return name_refused(Route::Query, query);
    }
    if path == b"/v1/purges".as_slice() {
        return name_refused(Route::Purges, query);
    }
    Some("query")
}

/// Which field of the query of a route is refused by its name: it is unknown, or repeated.
fn name_refused(route: Route, query: &[u8]) -> Option<&'static str> {
    let mut rest = query;
    loop {
        let (piece, behind) = cut_at(rest, b'&');
        let (name, _) = cut_in_two(piece, b'=');
        let Some(field) = field_named(route, name) else {
            return Some("unknown field");
        };
        let Some(others) = behind else {
            return None;
        };
        if is_among(name, others) {
            return Some(twice(field));
        }
        rest = others;
    }
}
