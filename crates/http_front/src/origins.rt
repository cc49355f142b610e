//! Which pages of a browser may read replies.
//!
//! The origins are one text, with a space between two. Where it is empty, no reply says anything of pages.
ghost use Rattle.std.specs.Prelude.{◌≡◌, ◌&&◌, IfSome, is_none, not, true};
ghost use Rattle.std.specs.List.{list_all};
ghost use Rattle.std.specs.Option.{option_copied};
ghost use Rattle.http_front.specs.Origins.{IsTellable, if_origin, is_origin, is_visible, leave_of, no_leave, origins_in, page_of, told_of, told_to};

use crate::cut::cut_at;
use http_message::{Named, Request};
use std::marker::Model;

/// What a reply says of the pages that may read it.
#[derive(Drop)]
pub struct Leave<'a> {
    allow: Option<&'a [u8]>,
    varies: bool,
}

impl<'a> Model for Leave<'a> {
    ghost use Rattle.std.specs.Prelude.{◌≡◌, true, IfSome};
    ghost use Rattle.std.specs.Option.{option_copied};
    ghost use Rattle.http_front.specs.Origins.{LeaveTold, is_origin};

    ghost Value = { LeaveTold };

    ghost view = { λ l. record { allow = option_copied l.allow; varies = l.varies } };

    ghost invariant = { λ l. IfSome (option_copied l.allow) (λ origin. is_origin origin ≡ true) };
}

impl<'a> Leave<'a> {
    /// Nothing is said of pages.
    pub fn none() -> Leave<'a>
        ensures { result ≡ no_leave }
    {
        Leave {
            allow: None,
            varies: false,
        }
    }

    /// The same once more.
    pub fn again(&self) -> Leave<'a>
        ensures { result ≡ self.now }
    {
        Leave {
            allow: self.allow,
            varies: self.varies,
        }
    }

    /// The origin whose pages may read the reply, where one is told.
    pub fn allow(&self) -> Option<&'a [u8]>
        ensures is { option_copied result ≡ self.now.allow }
        ensures tellable { IsTellable self.now }
    {
        self.allow
    }

    /// Whether nothing is said.
    pub fn is_none(&self) -> bool
        ensures { result ≡ (is_none self.now.allow && not self.now.varies) }
    {
        self.allow.is_none() && !self.varies
    }

    /// Whether the reply to another page may tell another origin.
    pub fn varies(&self) -> bool
        ensures { result ≡ self.now.varies }
    {
        self.varies
    }
}

/// What is said to a page of this origin, where a text names the origins.
pub(crate) fn leave_of<'a>(origins: &'a [u8], page: Option<&[u8]>) -> Leave<'a>
    ensures { result ≡ leave_of origins.now (option_copied page.entry) }
{
    if origins.is_empty() {
        return Leave::none();
    }
    let (one, behind) = cut_at(origins, b' ');
    match behind {
        None => Leave {
            allow: if_origin(one),
            varies: false,
        },
        Some(_) => Leave {
            allow: told_of(origins, page),
            varies: true,
        },
    }
}

/// The origin of the page that sent a request, where it has a single field of Origin.
pub(crate) fn page_of<'a>(request: &Request<'a>) -> Option<&'a [u8]>
    ensures { option_copied result ≡ page_of request.now }
{
    match request.named(b"origin") {
        Named::Once(page) => Some(page),
        Named::Absent | Named::Repeated => None,
    }
}

/// The origin of a page, where it is one of those that a text names.
fn told_of<'a>(origins: &'a [u8], page: Option<&[u8]>) -> Option<&'a [u8]>
    ensures is { option_copied result ≡ told_of (origins_in origins.now) (option_copied page.entry) }
    ensures tellable { IfSome (option_copied result) (λ origin. is_origin origin ≡ true) }
{
    match page {
        Some(page) => told_to(origins, page),
        None => None,
    }
}

/// An origin, where it is one of those that a text names.
fn told_to<'a>(origins: &'a [u8], page: &[u8]) -> Option<&'a [u8]>
    ensures is { option_copied result ≡ told_to (origins_in origins.now) page.now }
    ensures tellable { IfSome (option_copied result) (λ origin. is_origin origin ≡ true) }
{
    let mut rest = origins;
    loop {
        let (origin, behind) = cut_at(rest, b' ');
        if page == origin {
            return if_origin(origin);
        }
        let Some(others) = behind else {
            return None;
        };
        rest = others;
    }
}

/// A text, where it may be told as an origin.
fn if_origin(text: &[u8]) -> Option<&[u8]>
    ensures is { option_copied result ≡ if_origin text.now }
    ensures tellable { IfSome (option_copied result) (λ origin. is_origin origin ≡ true) }
{
    if is_origin(text) { Some(text) } else { None }
}

/// Whether a text may be told as an origin.
#[tactic(auto, unfolding(crate::specs::Origins::is_origin))]
fn is_origin(text: &[u8]) -> bool
    ensures { result ≡ is_origin text.now }
{
    !text.is_empty() && text.len() <= 255 && are_visible(text)
}

/// Whether each byte is visible.
fn are_visible(text: &[u8]) -> bool
    ensures { result ≡ list_all is_visible text.now }
{
    text.iter().all(|byte| is_visible(*byte))
}

/// Whether a byte is visible ASCII.
fn is_visible(byte: u8) -> bool
    ensures { result ≡ is_visible byte }
{
    byte > b' ' && byte < 127
}
