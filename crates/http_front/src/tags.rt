//! Lists of entity tags, and the commits that they name.
ghost use Rattle.std.specs.Prelude.{◌≡◌, ◌<◌, ◌≤◌, ◌∷◌, ◌&&◌, [], length, reverse, nat_lt, not, if◌then◌else◌, Option, IfSome, Some, None, Ok, false};
ghost use Rattle.std.specs.List.{filter, list_all};
ghost use Rattle.std.specs.Option.{option_copied};
ghost use Rattle.httparse.specs.Grammar.{skip_ows, trim_ows};
ghost use Rattle.http_message.specs.Fields.{values};
ghost use Rattle.http_front.specs.Added.{Adds, pieces_behind};
ghost use Rattle.http_front.specs.Answered.{Answers};
ghost use Rattle.http_front.specs.Tags.{commit_by, commits_in, inner, is_quoted, is_tag_byte, members_of, pieces_from, tag_of, tags_in, tags_of};

use crate::fields::value_at;
use crate::number::number_of;
use http_message::{Named, Request};
use httparse::is_space_or_tab;
use hub_model::{Commits, Tags};
use q_base::{Commit, Memory};
use std::alloc::Global;

/// How entity tags are compared (RFC 9110, section 8.8.3.2).
#[derive(Clone, Copy, Debug, PartialEq, Eq)]
pub enum Comparison {
    /// A weak tag is equal to none.
    Strong,
    /// It does not count whether tags are weak.
    Weak,
}

/// Why a list of entity tags is refused.
#[derive(Clone, Copy, Debug, PartialEq, Eq)]
pub enum TagRefusal {
    /// A member is no entity tag.
    BadTag,
    /// There was no memory.
    Memory,
}

/// What the fields of this name say, where there are some.
#[tactic(auto, unfolding(crate::specs::Tags::tags_in))]
pub fn tags_in(
    alloc: Global,
    request: &Request<'_>,
    name: &[u8],
    comparison: Comparison,
) -> Result<Option<Tags>, TagRefusal>
    ensures { Answers (tags_in comparison (values name.now request.now.fields)) result }
{
    match request.named(name) {
        Named::Absent => Ok(None),
        Named::Once(b"*") => Ok(Some(Tags::Any)),
        Named::Once(_) | Named::Repeated => {
            let commits = commits_in(alloc, request, name, comparison)?;
            Ok(Some(Tags::Listed(commits)))
        }
    }
}

/// The commits that the fields of this name list together.
fn commits_in(
    alloc: Global,
    request: &Request<'_>,
    name: &[u8],
    comparison: Comparison,
) -> Result<Commits, TagRefusal>
    ensures { Answers (commits_in comparison (values name.now request.now.fields)) result }
{
    let mut commits = Commits::new(alloc);
    for index in 0..request.field_count() {
        if let Some(value) = value_at(request, index, name) {
            add_list(&mut commits, value, comparison)?;
        }
    }
    Ok(commits)
}

/// Adds the commits of a list.
fn add_list(commits: &mut Commits, list: &[u8], comparison: Comparison) -> Result<(), TagRefusal>
    requires { length commits.old ≤ 16 }
    ensures { Adds comparison (tags_of (members_of list.now)) commits.old commits.new result }
{
    let mut rest = list;
    loop {
        let (member, behind) = cut_member(rest);
        add_member(commits, trim(member), comparison)?;
        let Some(others) = behind else {
            return Ok(());
        };
        rest = others;
    }
}

/// Adds the commit that a member names, where fewer than 16 are there. An empty member is none.
fn add_member(
    commits: &mut Commits,
    member: &[u8],
    comparison: Comparison,
) -> Result<(), TagRefusal>
    requires { length commits.old ≤ 16 }
    ensures { Adds comparison (tags_of (filter (λ m. nat_lt 0 (length m)) (member.now ∷ []))) commits.old commits.new result }
{
    if member.is_empty() {
        return Ok(());
    }
    let Some(commit) = commit_in(member, comparison)? else {
        return Ok(());
    };
    if commits.is_full() {
        return Ok(());
    }
    match commits.push(commit) {
        Ok(()) => Ok(()),
        Err(Memory) => Err(TagRefusal::Memory),
    }
}

/// The list before its first comma outside of quotes, and after it.
fn cut_member(list: &[u8]) -> (&[u8], Option<&[u8]>)
    ensures pieces { pieces_from false list.now ≡ result.0.now ∷ pieces_behind (option_copied result.1) }
    ensures less { IfSome result.1 (λ rest. length rest.now < length list.now) }
{
    let mut quoted = false;
    for (index, byte) in list.iter().enumerate() {
        if *byte == b'"' {
            quoted = !quoted;
        } else if *byte == b',' && !quoted {
            return (&list[..index], Some(&list[index + 1..]));
        }
    }
    (list, None)
}

/// The commit that a member of a list names.
#[tactic(auto, unfolding(crate::specs::Tags::tag_of))]
fn commit_in(member: &[u8], comparison: Comparison) -> Result<Option<Commit>, TagRefusal>
    ensures { result ≡ commit_by comparison (tag_of member.now) }
{
    let weak = member.starts_with(b"W/");
    let Some(text) = unquoted(if weak { &member[2..] } else { member }) else {
        return Err(TagRefusal::BadTag);
    };
    if weak && comparison == Comparison::Strong {
        return Ok(None);
    }
    Ok(number_of(text))
}

/// The text of a tag between its quotes.
fn unquoted(text: &[u8]) -> Option<&[u8]>
    ensures { option_copied result ≡ (if is_quoted text.now then Some (inner text.now) else None) }
{
    if text.len() < 2 || !text.starts_with(b"\"") || !text.ends_with(b"\"") {
        return None;
    }
    let inner = &text[1..text.len() - 1];
    if are_tag_bytes(inner) {
        Some(inner)
    } else {
        None
    }
}

/// Whether a tag may have these bytes.
fn are_tag_bytes(text: &[u8]) -> bool
    ensures { result ≡ list_all is_tag_byte text.now }
{
    text.iter().all(|byte| is_tag_byte(*byte))
}

/// Whether a tag may have this byte.
fn is_tag_byte(byte: u8) -> bool
    ensures { result ≡ is_tag_byte byte }
{
    byte == b'!' || (byte >= b'#' && byte <= b'~') || byte >= 128
}

/// Without the white space around it.
#[tactic(auto, unfolding(httparse::specs::Grammar::trim_ows))]
fn trim(text: &[u8]) -> &[u8]
    ensures { result.now ≡ trim_ows text.now }
{
    trim_end(trim_start(text))
}

/// Without the white space at the start.
fn trim_start(text: &[u8]) -> &[u8]
    ensures { result.now ≡ skip_ows text.now }
{
    let mut rest = text;
    while let [first, others @ ..] = rest
        && is_space_or_tab(*first)
    {
        rest = others;
    }
    rest
}

/// Without the white space at the end.
fn trim_end(text: &[u8]) -> &[u8]
    ensures { result.now ≡ reverse (skip_ows (reverse text.now)) }
{
    let mut rest = text;
    while let [others @ .., last] = rest
        && is_space_or_tab(*last)
    {
        rest = others;
    }
    rest
}
