//! Which hosts a server answers for.
//!
//! The hosts are one text, with a space between two. Where it is empty, requests for each host are served.
//! Else a page of another site, whose name an attacker lets lead to this server, has no answer of it.
ghost use Rattle.std.specs.Prelude.{◌≡◌};
ghost use Rattle.std.specs.Char.{is_ascii_digit};
ghost use Rattle.std.specs.List.{list_all, list_any};
ghost use Rattle.std.specs.Option.{option_copied};
ghost use Rattle.http_front.specs.Hosts.{host_of, is_host, is_misdirected, is_one_of, is_port};
ghost use Rattle.http_front.specs.Origins.{origins_in};

use crate::cut::cut_at;
use crate::fields::{has_host, is_same_word};
use http_message::{Named, Request};

/// Whether a text names hosts, and the request is for none of them. One whose fields of Host are not as
/// many as its version asks for is refused for that.
#[tactic(auto, unfolding(crate::specs::Hosts::is_misdirected))]
pub(crate) fn is_misdirected(hosts: &[u8], request: &Request<'_>) -> bool
    ensures { result ≡ is_misdirected hosts.now request.now }
{
    !hosts.is_empty() && has_host(request) && !is_one_of(hosts, host_of(request))
}

/// The value of a request's field of Host, where it has a single one.
fn host_of<'a>(request: &Request<'a>) -> Option<&'a [u8]>
    ensures { option_copied result ≡ host_of request.now }
{
    match request.named(b"host") {
        Named::Once(host) => Some(host),
        Named::Absent | Named::Repeated => None,
    }
}

/// Whether that of a request is one of the hosts that a text names.
fn is_one_of(hosts: &[u8], host: Option<&[u8]>) -> bool
    ensures { result ≡ is_one_of (origins_in hosts.now) (option_copied host.entry) }
{
    match host {
        Some(host) => is_named(hosts, host),
        None => false,
    }
}

/// Whether a value of Host is one of the hosts that a text names.
fn is_named(hosts: &[u8], host: &[u8]) -> bool
    ensures { result ≡ list_any (is_host host.now) (origins_in hosts.now) }
{
    let mut rest = hosts;
    loop {
        let (name, behind) = cut_at(rest, b' ');
        if is_host(host, name) {
            return true;
        }
        let Some(others) = behind else {
            return false;
        };
        rest = others;
    }
}

/// Whether a value of Host is this name, with a port behind it or without.
fn is_host(host: &[u8], name: &[u8]) -> bool
    ensures { result ≡ is_host host.now name.now }
{
    let count = name.len().min(host.len());
    is_same_word(&host[..count], name) && is_port(&host[count..])
}

/// Whether it is what may follow a host.
fn is_port(text: &[u8]) -> bool
    ensures { result ≡ is_port text.now }
{
    match text {
        [] => true,
        [colon, port @ ..] => *colon == b':' && are_digits(port),
    }
}

/// Whether each byte is a digit.
fn are_digits(text: &[u8]) -> bool
    ensures { result ≡ list_all is_ascii_digit text.now }
{
    text.iter().all(|byte| byte.is_ascii_digit())
}
