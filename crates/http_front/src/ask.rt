//! What requests ask of the store.
//!
//! A call answers `Err` where it is out of memory, and `Ok` with what is asked, or why it is refused.
ghost use Rattle.std.specs.Prelude.{◌≡◌, ℕ, List, true, false, drop, is_ok, length, IfNone, IfOk, IfSome, IsOk, Err};
ghost use Rattle.std.specs.Option.{option_copied};
ghost use Rattle.query_normal.specs.Normal.{normal_query};
ghost use Rattle.query_normal.specs.declared.key.KeyShape.TheVariants as keys;
ghost use Rattle.http_message.specs.Fields.{values as values_named};
ghost use Rattle.http_front.specs.Answered.{and_then};
ghost use Rattle.http_front.specs.Asks.{ask_at, ask_by, ask_of, condition_by, condition_of, delete_of, document_in, known_of, method_in, name_in, put_of, query_by, read_of, record_by, start_in, tags_or_not};
ghost use Rattle.http_front.specs.Early.{is_early};
ghost use Rattle.http_front.specs.Filters.{query_in};
ghost use Rattle.http_front.specs.Free.{is_bare, is_bare_put, is_free_at, is_free_call, is_free_record};
ghost use Rattle.http_front.specs.Hosts.{ask_to, is_early_to};
ghost use Rattle.http_front.specs.Routes.{collection_in, id_in, route_of, served_of};
ghost use Rattle.http_front.specs.Tags.{tags_in};
ghost use Rattle.http_front.specs.Target.{after, ahead_of, path_of, query_of};
ghost use Rattle.http_front.specs.declared.ask.Ask.TheVariants.{Read};
ghost use Rattle.http_front.specs.declared.routes.Route.TheVariants.{Record};

use crate::cut::{cut_at, cut_in_two};
use crate::fields::{has_condition, has_host, has_length, has_no_coding};
use crate::filter::query_in;
use crate::hosts::is_misdirected;
use crate::names::{are_names, is_name, name_in};
use crate::number::number_of;
use crate::query::{QueryFields, fields_in};
use crate::refused::{DocumentReason, QueryField, Refused};
use crate::routes::{Method, QUERIES, RECORDS, Route, Routes};
use crate::tags::{Comparison, TagRefusal, tags_in};
use crate::target::{local_part, or_root};
use http_message::{FramingRefusal, Request};
use hub_model::{Change, Commits, Condition, Tags};
use q_base::{Memory, Name};
use q_doc::{Doc, DocRefusal, ReadBuffer};
use query_normal::{Key, normal};
use std::alloc::Global;

/// What a request asks of the store.
#[derive(Drop)]
pub enum Ask {
    /// To make a change, where its condition is met.
    Write {
        change: Change,
        condition: Condition,
    },
    /// To read the result of a key, of which the tagged ones are known. `head`: without its body.
    Read {
        key: Key,
        tags: Tags,
        head: bool,
    },
    /// To give the purges from this number on.
    Purges {
        from: u64,
        head: bool,
    },
    /// To match all commits against the issued copies.
    MatchAll,
    /// To drop all old changes.
    Horizon,
    /// To fetch the page of the outdated keys.
    Fetch {
        head: bool,
    },
    /// To give the numbers of the store.
    Stats {
        head: bool,
    },
}

/// What a request asks, or the first reason why it is refused. A body is read in the buffers that are
/// lent. A record whose names have no escape takes no look at the table of routes.
#[tactic(auto, unfolding(crate::specs::Asks::ask_of, crate::specs::Target::path_of))]
pub fn ask_of(
    alloc: Global,
    request: &Request<'_>,
    routes: &Routes,
    reading: &mut ReadBuffer,
) -> Result<Result<Ask, Refused>, Memory>
    ensures asked { IfOk result (λ asked. asked ≡ ask_of routes.now request.now) }
    ensures early { is_early routes.now request.now ≡ true → IsOk result }
{
    if !has_host(request) {
        return Ok(Err(Refused::BadHost));
    }
    let Some(local) = local_part(request.target()) else {
        return Ok(Err(Refused::BadTarget));
    };
    // names that are read as they stand have no escape and no query behind them
    if local.starts_with(RECORDS) && routes.serve_records() {
        let (collection, id) = names_behind(RECORDS, local);
        if let Ok(collection) = Name::read(alloc, collection)
            && let Ok(id) = Name::read(alloc, id)
        {
            return ask_record(alloc, request, collection, id, reading);
        }
    }
    ask_at(alloc, request, local, routes, reading)
}

/// What a request asks of the hosts that a text names, or the first reason why it is refused: that it is
/// for none of them, and then those of `ask_of`.
pub fn ask_to(
    alloc: Global,
    hosts: &[u8],
    request: &Request<'_>,
    routes: &Routes,
    reading: &mut ReadBuffer,
) -> Result<Result<Ask, Refused>, Memory>
    ensures asked { IfOk result (λ asked. asked ≡ ask_to hosts.now routes.now request.now) }
    ensures early { is_early_to hosts.now routes.now request.now ≡ true → IsOk result }
{
    if is_misdirected(hosts, request) {
        return Ok(Err(Refused::Misdirected));
    }
    ask_of(alloc, request, routes, reading)
}

/// What a request of a record asks that has no query.
#[inline(always)]
fn ask_record(
    alloc: Global,
    request: &Request<'_>,
    collection: Name,
    id: Name,
    reading: &mut ReadBuffer,
) -> Result<Result<Ask, Refused>, Memory>
    ensures asked { IfOk result (λ asked. asked ≡ and_then (method_in request.now Record) (λ method. record_by request.now collection id method)) }
    ensures early { is_bare_put request.now (method_in request.now Record) ≡ true → IsOk result }
{
    match method_in(request, Route::Record) {
        Ok(method) => record_by(alloc, request, collection, id, method, reading),
        Err(refused) => Ok(Err(refused)),
    }
}

/// What a request of this target asks, which names no server.
#[inline(never)]
#[tactic(auto, unfolding(crate::specs::Target::path_of))]
fn ask_at(
    alloc: Global,
    request: &Request<'_>,
    local: &[u8],
    routes: &Routes,
    reading: &mut ReadBuffer,
) -> Result<Result<Ask, Refused>, Memory>
    ensures asked { IfOk result (λ asked. asked ≡ ask_at request.now (path_of local.now) (query_of local.now) (served_of routes.now (route_of (path_of local.now)))) }
    ensures early { is_free_at request.now (path_of local.now) (query_of local.now) (served_of routes.now (route_of (path_of local.now))) ≡ true → IsOk result }
{
    let (path, query) = cut_at(local, b'?');
    let path = or_root(path);
    match routes.route_of(path) {
        Some(route) => ask_route(alloc, request, path, query, route, reading),
        None => Ok(Err(Refused::NoRoute)),
    }
}

/// What a request of this route asks.
fn ask_route(
    alloc: Global,
    request: &Request<'_>,
    path: &[u8],
    query: Option<&[u8]>,
    route: Route,
    reading: &mut ReadBuffer,
) -> Result<Result<Ask, Refused>, Memory>
    ensures asked { IfOk result (λ asked. asked ≡ ask_at request.now path.now (option_copied query.entry) (Some route)) }
    ensures early { is_free_at request.now path.now (option_copied query.entry) (Some route) ≡ true → IsOk result }
{
    let method = match method_in(request, route) {
        Ok(method) => method,
        Err(refused) => return Ok(Err(refused)),
    };
    let Some(fields) = fields_in(alloc, route, query)? else {
        return Ok(Err(Refused::BadTarget));
    };
    ask_by(alloc, request, path, method, route, fields, reading)
}

/// The method of the request, where the route has it.
#[inline(always)]
fn method_in(request: &Request<'_>, route: Route) -> Result<Method, Refused>
    ensures { result ≡ method_in request.now route }
{
    let methods = route.methods();
    match Method::read(request.method()) {
        Some(method) if method.is_of(methods) => Ok(method),
        _ => Err(Refused::BadMethod(methods)),
    }
}

/// What a request of this route asks, with these fields of its query.
fn ask_by(
    alloc: Global,
    request: &Request<'_>,
    path: &[u8],
    method: Method,
    route: Route,
    fields: QueryFields,
    reading: &mut ReadBuffer,
) -> Result<Result<Ask, Refused>, Memory>
    ensures asked { IfOk result (λ asked. asked ≡ ask_by request.now path.now method route fields) }
    ensures early { is_free_call request.now path.now route method ≡ true → IsOk result }
{
    let head = method == Method::Head;
    match route {
        Route::Record => ask_names(alloc, request, path, method, reading),
        Route::Query => query_by(alloc, request, names_behind(QUERIES, path).0, fields, head),
        Route::Filter => Ok(Ok(Ask::Fetch { head })),
        Route::Purges => Ok(Ok(Ask::Purges {
            from: start_in(&fields),
            head,
        })),
        Route::Match => Ok(Ok(Ask::MatchAll)),
        Route::Horizon => Ok(Ok(Ask::Horizon)),
        Route::Stats => Ok(Ok(Ask::Stats { head })),
    }
}

/// The number from which on purges are asked for: that of the field `from`, and 1 without it.
fn start_in(fields: &QueryFields) -> u64
    ensures { result ≡ start_in fields.now }
{
    let Some(text) = fields.value_of(QueryField::From) else {
        return 1;
    };
    match number_of(text.as_bytes()) {
        Some(number) => number,
        None => 1,
    }
}

/// What a request of a record asks, of its path. A name that is none, and the length or the coding of a
/// body, are refused before memory is taken.
fn ask_names(
    alloc: Global,
    request: &Request<'_>,
    path: &[u8],
    method: Method,
    reading: &mut ReadBuffer,
) -> Result<Result<Ask, Refused>, Memory>
    ensures asked { IfOk result (λ asked. asked ≡ and_then (name_in (collection_in path.now)) (λ collection. and_then (name_in (id_in path.now)) (λ id. record_by request.now collection id method))) }
    ensures early { is_free_call request.now path.now Record method ≡ true → IsOk result }
{
    let (collection, id) = names_behind(RECORDS, path);
    if let Some(refused) = refused_early(request, collection, id, method) {
        return Ok(Err(refused));
    }
    read_names(alloc, request, collection, id, method, reading)
}

/// Why a request of a record is refused for a name, or for the length or the coding of its body. It takes
/// no memory.
fn refused_early(
    request: &Request<'_>,
    collection: &[u8],
    id: &[u8],
    method: Method,
) -> Option<Refused>
    ensures some { IfSome result (λ refused. Err refused ≡ and_then (name_in collection.now) (λ collection. and_then (name_in id.now) (λ id. record_by request.now collection id method))) }
    ensures none { IfNone result (is_free_record request.now collection.now id.now method ≡ false) }
{
    if !are_names(collection, id) {
        return Some(Refused::BadTarget);
    }
    match method {
        Method::Put => bare_put(request),
        _ => None,
    }
}

/// What a request of a record asks, whose names are decoded.
fn read_names(
    alloc: Global,
    request: &Request<'_>,
    collection: &[u8],
    id: &[u8],
    method: Method,
    reading: &mut ReadBuffer,
) -> Result<Result<Ask, Refused>, Memory>
    ensures { IfOk result (λ asked. asked ≡ and_then (name_in collection.now) (λ collection. and_then (name_in id.now) (λ id. record_by request.now collection id method))) }
{
    let collection = match name_in(alloc, collection)? {
        Ok(name) => name,
        Err(refused) => return Ok(Err(refused)),
    };
    let id = match name_in(alloc, id)? {
        Ok(name) => name,
        Err(refused) => return Ok(Err(refused)),
    };
    record_by(alloc, request, collection, id, method, reading)
}

/// The names in a path as they were written, after this prefix.
fn names_behind<'a>(prefix: &[u8], path: &'a [u8]) -> (&'a [u8], &'a [u8])
    ensures first { result.0.now ≡ ahead_of 47 (drop (length prefix.now) path.now) }
    ensures second { result.1.now ≡ after 47 (drop (length prefix.now) path.now) }
{
    cut_in_two(&path[path.len().min(prefix.len())..], b'/')
}

/// What a request of a query asks. A name that is none is refused before memory is taken.
fn query_by(
    alloc: Global,
    request: &Request<'_>,
    collection: &[u8],
    fields: QueryFields,
    head: bool,
) -> Result<Result<Ask, Refused>, Memory>
    ensures asked { IfOk result (λ asked. asked ≡ query_by request.now collection.now fields head) }
    ensures early { is_ok (name_in collection.now) ≡ false → IsOk result }
{
    if !is_name(collection) {
        return Ok(Err(Refused::BadTarget));
    }
    let collection = match name_in(alloc, collection)? {
        Ok(name) => name,
        Err(refused) => return Ok(Err(refused)),
    };
    let known = match known_of(alloc, request)? {
        Ok(known) => known,
        Err(refused) => return Ok(Err(refused)),
    };
    ask_query(alloc, collection, &fields, known, head)
}

/// What a GET or a HEAD of these fields asks, of which the tagged results are known.
fn ask_query(
    alloc: Global,
    collection: Name,
    fields: &QueryFields,
    tags: Tags,
    head: bool,
) -> Result<Result<Ask, Refused>, Memory>
    ensures { IfOk result (λ asked. asked ≡ and_then (query_in collection fields.now) (λ read. Ok (Read (keys.Query read.1 (normal_query read.0)) tags head))) }
{
    let (query, kind) = match query_in(alloc, collection, fields)? {
        Ok(read) => read,
        Err(refused) => return Ok(Err(refused)),
    };
    let normal = normal(alloc, query)?;
    let key = Key::query(alloc, kind, normal)?;
    Ok(Ok(Ask::Read { key, tags, head }))
}

/// What a request of a record asks.
#[inline(always)]
fn record_by(
    alloc: Global,
    request: &Request<'_>,
    collection: Name,
    id: Name,
    method: Method,
    reading: &mut ReadBuffer,
) -> Result<Result<Ask, Refused>, Memory>
    ensures asked { IfOk result (λ asked. asked ≡ record_by request.now collection id method) }
    ensures early { is_bare_put request.now (Ok method) ≡ true → IsOk result }
{
    match method {
        Method::Get => read_of(alloc, request, collection, id, false),
        Method::Head => read_of(alloc, request, collection, id, true),
        Method::Put => put_of(alloc, request, collection, id, reading),
        Method::Delete => delete_of(alloc, request, collection, id),
        Method::Post => Ok(Err(Refused::BadMethod(Route::Record.methods()))),
    }
}

/// What a GET or a HEAD of a record asks.
#[inline(never)]
fn read_of(
    alloc: Global,
    request: &Request<'_>,
    collection: Name,
    id: Name,
    head: bool,
) -> Result<Result<Ask, Refused>, Memory>
    ensures { IfOk result (λ asked. asked ≡ read_of request.now collection id head) }
{
    let tags = match known_of(alloc, request)? {
        Ok(tags) => tags,
        Err(refused) => return Ok(Err(refused)),
    };
    let Ok(key) = Key::record(alloc, collection, id) else {
        return Err(Memory);
    };
    Ok(Ok(Ask::Read { key, tags, head }))
}

/// What a DELETE of a record asks.
#[inline(never)]
fn delete_of(
    alloc: Global,
    request: &Request<'_>,
    collection: Name,
    id: Name,
) -> Result<Result<Ask, Refused>, Memory>
    ensures { IfOk result (λ asked. asked ≡ delete_of request.now collection id) }
{
    let condition = match condition_of(alloc, request)? {
        Ok(condition) => condition,
        Err(refused) => return Ok(Err(refused)),
    };
    Ok(Ok(Ask::Write {
        change: Change {
            collection,
            id,
            document: None,
        },
        condition,
    }))
}

/// What a PUT of a record asks.
#[inline(never)]
#[tactic(auto, unfolding(crate::specs::Free::is_bare))]
fn put_of(
    alloc: Global,
    request: &Request<'_>,
    collection: Name,
    id: Name,
    reading: &mut ReadBuffer,
) -> Result<Result<Ask, Refused>, Memory>
    ensures asked { IfOk result (λ asked. asked ≡ put_of request.now collection id) }
    ensures early { is_bare request.now ≡ true → IsOk result }
{
    if !has_length(request) {
        return Ok(Err(Refused::NoLength));
    }
    if !has_no_coding(request) {
        return Ok(Err(Refused::BadEncoding));
    }
    let condition = match condition_of(alloc, request)? {
        Ok(condition) => condition,
        Err(refused) => return Ok(Err(refused)),
    };
    let document = match document_in(alloc, request.body(), reading)? {
        Ok(document) => document,
        Err(refused) => return Ok(Err(refused)),
    };
    Ok(Ok(Ask::Write {
        change: Change {
            collection,
            id,
            document: Some(document),
        },
        condition,
    }))
}

/// Why a PUT is refused for the length or the coding of its body.
#[tactic(auto, unfolding(crate::specs::Free::is_bare))]
fn bare_put(request: &Request<'_>) -> Option<Refused>
    ensures some { IfSome result (λ refused. (collection id : List ℕ) → put_of request.now collection id ≡ Err refused) }
    ensures none { IfNone result (is_bare request.now ≡ false) }
{
    if !has_length(request) {
        return Some(Refused::NoLength);
    }
    if !has_no_coding(request) {
        return Some(Refused::BadEncoding);
    }
    None
}

/// The condition of a write.
fn condition_of(alloc: Global, request: &Request<'_>) -> Result<Result<Condition, Refused>, Memory>
    ensures { IfOk result (λ condition. condition ≡ condition_of request.now) }
{
    if !has_condition(request) {
        return Ok(Ok(Condition::Always));
    }
    tagged_condition(alloc, request)
}

/// The condition of the tags of a write.
fn tagged_condition(
    alloc: Global,
    request: &Request<'_>,
) -> Result<Result<Condition, Refused>, Memory>
    ensures { IfOk result (λ condition. condition ≡ condition_of request.now) }
{
    let tags = match read_tags(alloc, request, b"if-match", Comparison::Strong)? {
        Ok(tags) => tags,
        Err(refused) => return Ok(Err(refused)),
    };
    match read_tags(alloc, request, b"if-none-match", Comparison::Weak)? {
        Ok(others) => Ok(condition_by(tags, others)),
        Err(refused) => Ok(Err(refused)),
    }
}

/// The tags of the fields of a name.
fn read_tags(
    alloc: Global,
    request: &Request<'_>,
    name: &[u8],
    comparison: Comparison,
) -> Result<Result<Option<Tags>, Refused>, Memory>
    ensures { IfOk result (λ tags. tags ≡ tags_or_not (tags_in comparison (values_named name.now request.now.fields))) }
{
    match tags_in(alloc, request, name, comparison) {
        Ok(tags) => Ok(Ok(tags)),
        Err(TagRefusal::BadTag) => Ok(Err(Refused::BadTag)),
        Err(TagRefusal::Memory) => Err(Memory),
    }
}

/// The condition of the tags of If-Match and of If-None-Match.
fn condition_by(tags: Option<Tags>, others: Option<Tags>) -> Result<Condition, Refused>
    ensures { result ≡ condition_by tags others }
{
    match (tags, others) {
        (None, None) => Ok(Condition::Always),
        (Some(Tags::Any), None) => Ok(Condition::Present),
        (Some(tags), None) => Ok(Condition::Unchanged(tags)),
        (None, Some(Tags::Any)) => Ok(Condition::Absent),
        (_, Some(_)) => Err(Refused::BadTag),
    }
}

/// The results that the reader of a request knows.
fn known_of(alloc: Global, request: &Request<'_>) -> Result<Result<Tags, Refused>, Memory>
    ensures { IfOk result (λ known. known ≡ known_of request.now) }
{
    if !has_condition(request) {
        return Ok(Ok(Tags::Listed(Commits::new(alloc))));
    }
    tagged_results(alloc, request)
}

/// The results that the tags of a read name.
fn tagged_results(alloc: Global, request: &Request<'_>) -> Result<Result<Tags, Refused>, Memory>
    ensures { IfOk result (λ known. known ≡ known_of request.now) }
{
    if let Err(refused) = read_tags(alloc, request, b"if-match", Comparison::Strong)? {
        return Ok(Err(refused));
    }
    match read_tags(alloc, request, b"if-none-match", Comparison::Weak)? {
        Ok(Some(tags)) => Ok(Ok(tags)),
        Ok(None) => Ok(Ok(Tags::Listed(Commits::new(alloc)))),
        Err(refused) => Ok(Err(refused)),
    }
}

/// The document that a body is.
#[tactic(auto, unfolding(crate::specs::Asks::document_in))]
fn document_in(
    alloc: Global,
    body: &[u8],
    reading: &mut ReadBuffer,
) -> Result<Result<Doc, Refused>, Memory>
    ensures { IfOk result (λ document. document ≡ document_in body.now) }
{
    let refused = match Doc::read_with(alloc, body, reading) {
        Ok(document) => return Ok(Ok(document)),
        Err(DocRefusal::Memory) => return Err(Memory),
        Err(DocRefusal::TooLong { .. }) => Refused::Framing(FramingRefusal::BodyTooLarge),
        Err(DocRefusal::NotJson) => Refused::BadDocument(DocumentReason::NotJson),
        Err(DocRefusal::NotObject) => Refused::BadDocument(DocumentReason::NotObject),
        Err(DocRefusal::TooDeep { .. }) => Refused::BadDocument(DocumentReason::TooDeep),
        Err(DocRefusal::NotWhole) => Refused::BadDocument(DocumentReason::NotWhole),
    };
    Ok(Err(refused))
}
