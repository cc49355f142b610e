//! The choice between a copy and the server, for one key.
//!
//! A host keeps the floors and the rows of a session, the bytes of its page, and the text of the key; a call
//! tells it in one number whether the server is to be asked, and in a `Choice` what this rests on.
ghost use Rattle.std.specs.Prelude.{◌≡◌, List, ℕ};
ghost use Rattle.flat_snapshot.specs.Sight.{mark_of};
ghost use Rattle.client_web.specs.Answer.{sight_by, why_at, number_of_why};
ghost use Rattle.client_web.specs.Choice.{IsChoice, Chooses, IsHead};

use crate::answer::{BAD_LEVEL, DONE, level_by, number_of_refusal, number_of_why};
use client_core::{FloorRow, Floors, Level, Why, commit_with, front_of, why_before, why_of};
use flat_snapshot::{KeyMark, PageRefusal, Sight, head_in, sight_at};
use q_base::Commit;

/// What a host asks of a key.
#[derive(Clone, Copy, Debug, PartialEq, Eq)]
#[repr(C)]
pub struct Ask {
    /// The commit of the copy; not looked at where there is none.
    pub commit: Commit,
    /// The second up to which the copy was issued; not looked at where there is none.
    pub until: u64,
    /// The level: 0 for Session, 1 for Causal, 2 for Strong.
    pub level: u32,
    /// Whether there is a copy: 0 where none was looked for yet.
    pub copies: u32,
}

/// What a host is told of a key.
#[derive(Clone, Copy, Debug, PartialEq, Eq)]
#[repr(C)]
pub struct Choice {
    /// The key's mark, by which the session's floors know it.
    pub mark: KeyMark,
    /// The page's front, and 0 without a page.
    pub front: Commit,
    /// The floor of the key.
    pub floor: Commit,
    /// The commit that the copy is good for.
    pub commit: Commit,
    /// Whether the key is whitelisted.
    pub is_listed: bool,
}

/// The numbers of a page.
#[derive(Clone, Copy, Debug, PartialEq, Eq)]
#[repr(C)]
pub struct Head {
    /// The front: the commits up to it were matched.
    pub front: Commit,
    /// The number of commits.
    pub commits: Commit,
    /// The clock at which the page was made, in seconds since 1970.
    pub moment: u64,
}

/// Whether the server is asked for a key, and why: 0 where there is no cause, 1 for Strong, 2 for Flagged,
/// 3 for Older, 4 for Expired, 5 for BelowFloor; before a copy is looked for only the first two are found.
/// A page of no bytes is none. 16 for a level that is none; for bytes that are no page 17 (their number), 18
/// (the first four) or 19 (a field).
#[unsafe(no_mangle)]
pub extern "C" fn client_web_choose(
    floors: &Floors,
    rows: &[FloorRow],
    page: &[u8],
    text: &[u8],
    ask: &Ask,
    choice: &mut Choice,
) -> u32
    ensures { Chooses floors.now rows.now page.now text.now ask.now choice.old choice.new result }
{
    let level = match level_by(ask.level) {
        Some(level) => level,
        None => return BAD_LEVEL,
    };
    let mark = KeyMark::of(text);
    let sight = match sight_by(page, mark) {
        Ok(sight) => sight,
        Err(refusal) => return number_of_refusal(refusal),
    };
    *choice = choose(floors, rows, level, sight, mark, ask.commit);
    let has_copy = ask.copies != 0;
    let listed = choice.is_listed;
    let floor = choice.floor;
    number_of_why(why_at(has_copy, level, sight, listed, ask.commit, ask.until, floor))
}

/// The numbers of the page in these bytes; 17 to 19 where they are none, as above.
#[unsafe(no_mangle)]
pub extern "C" fn client_web_head(page: &[u8], head: &mut Head) -> u32
    ensures { IsHead page.now head.old head.new result }
{
    match head_in(page) {
        Ok(found) => {
            *head = Head {
                front: found.front,
                commits: found.commits,
                moment: found.moment,
            };
            DONE
        }
        Err(refusal) => number_of_refusal(refusal),
    }
}

/// What the choice of a key rests on.
fn choose(
    floors: &Floors,
    rows: &[FloorRow],
    level: Level,
    sight: Option<Sight>,
    mark: KeyMark,
    commit: Commit,
) -> Choice
    ensures { IsChoice floors.now rows.now level sight mark commit result }
{
    let is_listed = floors.is_listed(rows, mark);
    let floor = floors.floor(rows, level, mark);
    Choice {
        mark,
        front: front_of(sight),
        floor,
        commit: commit_with(sight, commit),
        is_listed,
    }
}

/// Why the server is asked, with a copy at hand or before one is looked for.
fn why_at(
    has_copy: bool,
    level: Level,
    sight: Option<Sight>,
    is_listed: bool,
    commit: Commit,
    until: u64,
    floor: Commit,
) -> Option<Why>
    ensures { result ≡ why_at has_copy level sight is_listed commit until floor }
{
    if has_copy {
        why_of(level, sight, is_listed, commit, until, floor)
    } else {
        why_before(level, sight, is_listed)
    }
}

/// What the host's page says of a mark.
fn sight_by(page: &[u8], mark: KeyMark) -> Result<Option<Sight>, PageRefusal>
    ensures { (text : List ℕ) → mark ≡ mark_of text → result ≡ sight_by page.now text }
{
    if page.is_empty() {
        return Ok(None);
    }
    let head = head_in(page)?;
    Ok(Some(sight_at(head, &page[30..], mark)))
}
