//! The hosts, and the origins of web pages, that a command line names.
ghost use Rattle.std.specs.Prelude.{◌≡◌, codes, IfErr, IfOk};
ghost use Rattle.std.specs.List.{list_all};
ghost use Rattle.clap.specs.Words.{Text, first_of, found_of, rows_of};
ghost use Rattle.command_line.specs.Words.{AreNames, are_hosts, are_origins, are_web_origins, is_host_byte, is_host_name, is_of_scheme, is_web_origin, IsBadValue};

use crate::refusal::BadValue;
use crate::words::value_of;
use clap::ArgMatches;

/// The text of the names of hosts that are served; empty where none is given.
pub(crate) fn hosts_of<'a>(matches: &ArgMatches<'a>) -> Result<&'a str, BadValue<'a>>
    ensures ok { IfOk result (λ h. AreNames are_hosts (first_of (codes "host") (rows_of (found_of matches.now))) h.now) }
    ensures err { IfErr result (λ _. (h : Text) → AreNames are_hosts (first_of (codes "host") (rows_of (found_of matches.now))) h → ⊥) }
    ensures value { IfErr result (IsBadValue (rows_of (found_of matches.now))) }
{
    match value_of(matches, "host") {
        Some(found) if are_hosts(found) => Ok(found),
        Some(found) => Err(BadValue::NoHosts { found }),
        None => Ok(""),
    }
}

/// The text of the origins whose pages may read replies; empty where none is given.
pub(crate) fn origins_of<'a>(matches: &ArgMatches<'a>) -> Result<&'a str, BadValue<'a>>
    ensures ok { IfOk result (λ o. AreNames are_origins (first_of (codes "allow-origin") (rows_of (found_of matches.now))) o.now) }
    ensures err { IfErr result (λ _. (o : Text) → AreNames are_origins (first_of (codes "allow-origin") (rows_of (found_of matches.now))) o → ⊥) }
    ensures value { IfErr result (IsBadValue (rows_of (found_of matches.now))) }
{
    match value_of(matches, "allow-origin") {
        Some(found) if are_origins(found) => Ok(found),
        Some(found) => Err(BadValue::NoOrigins { found }),
        None => Ok(""),
    }
}

/// Whether each part between two spaces is the name of a host.
#[tactic(auto, unfolding(crate::specs::Words::are_hosts))]
fn are_hosts(text: &str) -> bool
    ensures { result ≡ are_hosts text.now }
{
    text.split(' ').all(|name| is_host_name(name.as_bytes()))
}

/// Whether a text is the name of a host, with or without a port.
#[tactic(auto, unfolding(crate::specs::Words::is_host_name))]
fn is_host_name(text: &[u8]) -> bool
    ensures { result ≡ is_host_name text.now }
{
    text.len() > 0 && (text.len() <= 255 && are_host_bytes(text))
}

/// Whether a text is a star, or origins with one space between two.
fn are_origins(text: &str) -> bool
    ensures { result ≡ are_origins text.now }
{
    text == "*" || are_web_origins(text)
}

/// Whether each part between two spaces is an origin of web pages.
#[tactic(auto, unfolding(crate::specs::Words::are_web_origins))]
fn are_web_origins(text: &str) -> bool
    ensures { result ≡ are_web_origins text.now }
{
    text.split(' ')
        .all(|origin| is_web_origin(origin.as_bytes()))
}

/// Whether a text is an origin of web pages, without a path and a slash at the end.
#[tactic(auto, unfolding(crate::specs::Words::is_web_origin))]
fn is_web_origin(text: &[u8]) -> bool
    ensures { result ≡ is_web_origin text.now }
{
    text.len() <= 255 && (is_of_scheme(b"http://", text) || is_of_scheme(b"https://", text))
}

/// Whether a text is this scheme and at least one byte of a host.
fn is_of_scheme(scheme: &[u8], text: &[u8]) -> bool
    ensures { result ≡ is_of_scheme scheme.now text.now }
{
    text.starts_with(scheme) && text.len() > scheme.len() && are_host_bytes(&text[scheme.len()..])
}

/// Whether each byte may stand in a host and a port.
fn are_host_bytes(text: &[u8]) -> bool
    ensures { result ≡ list_all is_host_byte text.now }
{
    text.iter().all(|byte| is_host_byte(*byte))
}

/// Whether a byte may stand in a host and a port.
fn is_host_byte(byte: u8) -> bool
    ensures { result ≡ is_host_byte byte }
{
    byte > b' ' && byte < 127 && byte != b'"' && byte != b'*' && byte != b',' && byte != b'/'
}
