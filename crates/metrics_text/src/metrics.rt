//! The metrics of a server.

use crate::ratio::false_positives;
use crate::text::{Kind, Label, MetricsText};
use access_log::{Cause, Cell, Counts, Route, STATUSES, status_at};
use hub_desk::Figures;
use std::alloc::{AllocError, Global};

/// The metrics of what was counted, and of the store where its numbers are known.
pub fn metrics_of(
    alloc: Global,
    counts: &Counts,
    store: Option<&Figures>,
) -> Result<Vec<u8>, AllocError> {
    let mut text = MetricsText::new(alloc);
    if let Some(figures) = store {
        put_commits(&mut text, figures)?;
        put_sizes(&mut text, figures)?;
        put_page(alloc, &mut text, figures)?;
    }
    put_connections(&mut text, counts)?;
    put_requests(&mut text, counts)?;
    put_replies(&mut text, counts)?;
    put_log(&mut text, counts)?;
    Ok(text.into_bytes())
}

/// How far the store has come.
fn put_commits(text: &mut MetricsText, figures: &Figures) -> Result<(), AllocError> {
    text.one(
        "commits_total",
        Kind::Counter,
        "Writes that the store accepted.",
        figures.commits,
    )?;
    text.one(
        "front",
        Kind::Gauge,
        "The last commit that was matched.",
        figures.front,
    )?;
    text.one(
        "horizon",
        Kind::Gauge,
        "The commit up to which old changes were dropped.",
        figures.horizon,
    )?;
    text.one(
        "turns_total",
        Kind::Counter,
        "Turns that were taken at the store, by requests and by matchers.",
        figures.turns,
    )?;
    text.time(
        "longest_turn_seconds",
        "The longest turn at the store in the last one to two minutes.",
        figures.longest_turn,
    )
}

/// What the store keeps.
fn put_sizes(text: &mut MetricsText, figures: &Figures) -> Result<(), AllocError> {
    text.one(
        "kept_bytes",
        Kind::Gauge,
        "Bytes that the changes which are kept count for.",
        figures.kept,
    )?;
    text.one(
        "live_bytes",
        Kind::Gauge,
        "Bytes of these that the documents of the last commit count for.",
        figures.live,
    )?;
    text.one(
        "capacity_bytes",
        Kind::Gauge,
        "Bytes that kept changes may count for.",
        figures.capacity,
    )?;
    text.one(
        "active_keys",
        Kind::Gauge,
        "Keys of which a copy may still be kept.",
        figures.active,
    )?;
    text.one(
        "active_keys_limit",
        Kind::Gauge,
        "Keys of which copies may be kept at the same time.",
        figures.most_active,
    )
}

/// What the page tells.
fn put_page(alloc: Global, text: &mut MetricsText, figures: &Figures) -> Result<(), AllocError> {
    text.one(
        "invalidated_keys",
        Kind::Gauge,
        "Keys in the record, which the page names.",
        figures.invalidated,
    )?;
    text.one(
        "purges_total",
        Kind::Counter,
        "Keys that matches told to caches that can be purged.",
        figures.purges,
    )?;
    let name = "page_false_positive_ratio";
    let help = "Share of the other keys that the page is expected to name too.";
    text.begin(name, Kind::Gauge, help)?;
    let ratio = false_positives(figures.invalidated, figures.log2_bits, figures.hashes);
    let shown = format!(in alloc; "{ratio:.12}")?;
    text.value(name, Label::None, shown.as_bytes())
}

/// The connections.
fn put_connections(text: &mut MetricsText, counts: &Counts) -> Result<(), AllocError> {
    let taken = counts.of(Cell::Taken);
    text.one(
        "connections_open",
        Kind::Gauge,
        "Connections that are open.",
        counts.open(),
    )?;
    text.one(
        "connections_waiting",
        Kind::Gauge,
        "Open connections that wait for a request.",
        counts.waiting(),
    )?;
    text.one(
        "connections_total",
        Kind::Counter,
        "Connections that were taken.",
        taken,
    )
}

/// The requests, by route and status. What never came is left out.
fn put_requests(text: &mut MetricsText, counts: &Counts) -> Result<(), AllocError> {
    let name = "requests_total";
    text.begin(
        name,
        Kind::Counter,
        "Requests that were answered, by route and status.",
    )?;
    for route in Route::ALL {
        for status in 0..STATUSES + 1 {
            let count = counts.requests(route, status);
            if count > 0 {
                let label = Label::Request(route.name(), status_at(status));
                text.number(name, label, count)?;
            }
        }
    }
    Ok(())
}

/// The replies.
fn put_replies(text: &mut MetricsText, counts: &Counts) -> Result<(), AllocError> {
    text.one(
        "not_modified_total",
        Kind::Counter,
        "Replies by 304, which say that a copy is still good.",
        counts.not_modified(),
    )?;
    let name = "unavailable_total";
    text.begin(
        name,
        Kind::Counter,
        "Requests that were answered 503, by cause.",
    )?;
    for cause in [Cause::Memory, Cause::Other] {
        text.number(
            name,
            Label::Cause(cause.name()),
            counts.of(Cell::Unavailable(cause)),
        )?;
    }
    let copies = counts.of(Cell::Copies);
    text.one(
        "copies_issued_total",
        Kind::Counter,
        "Replies that caches may keep.",
        copies,
    )?;
    text.one(
        "matches_total",
        Kind::Counter,
        "Matches that found commits which were not matched.",
        counts.of(Cell::Matches),
    )?;
    text.one(
        "matched_commits_total",
        Kind::Counter,
        "Commits that were matched.",
        counts.of(Cell::Matched),
    )?;
    text.one(
        "reply_bytes_total",
        Kind::Counter,
        "Bytes of replies, with their heads.",
        counts.of(Cell::Bytes),
    )?;
    text.time(
        "longest_request_seconds",
        "The longest request of the last minute, from its first byte to the end of its reply.",
        counts.longest,
    )
}

/// The access log.
fn put_log(text: &mut MetricsText, counts: &Counts) -> Result<(), AllocError> {
    text.one(
        "log_lines_total",
        Kind::Counter,
        "Lines that were written to the log.",
        counts.of(Cell::Lines),
    )?;
    text.one(
        "log_lines_dropped_total",
        Kind::Counter,
        "Lines that were dropped, as nobody wrote them in time.",
        counts.of(Cell::Dropped),
    )
}
