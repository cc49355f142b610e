//! One read: which way it goes, and what it gives.
//!
//! The caches are asked first, unless the level or the page says that the server is to be asked. Of a copy
//! the page says whether it is good: then the answer is at the page's front, if that is later than the
//! copy's commit. Else the server is asked, whose answer must not be below the front and the floor.
ghost use Rattle.std.specs.Prelude.{◌≡◌, ◌≤◌, IfOk, IfErr};
ghost use Rattle.client_core.specs.Choice.{front_of};
ghost use Rattle.client_session.specs.declared.ask.ClientAsk.TheVariants.{Read as a_read};
ghost use Rattle.client_session.specs.declared.refusal.SessionRefusal.TheVariants.{Memory as out_of_memory};
ghost use Rattle.client_session.specs.Link.{Makes, is_read_status};
ghost use Rattle.client_session.specs.Read.{body_in, lowest, by_server, by_copy, IsChosenBy, IsReadBy, IsFresh, StaysHeld};

use crate::ask::{ClientAsk, LinkRefusal};
use crate::link::Link;
use crate::read_out::{Body, ReadOut, Way};
use crate::refusal::{SessionRefusal, refused};
use client_core::{
    Level, Why, commit_with, copies_without_a_cause_are_accepted, front_of, why_before, why_with,
};
use client_model::Reply;
use client_model::laws::accepted_replies_are_fresh;
use flat_snapshot::Sight;
use q_base::Commit;
use query_normal::Key;

/// Where a session stands before a read of a key.
#[derive(Clone, Copy, Debug, PartialEq, Eq)]
pub struct Position {
    pub level: Level,
    /// What the held page says of the key.
    pub sight: Option<Sight>,
    /// Whether the key is whitelisted.
    pub is_whitelisted: bool,
    /// The session's floor for the key.
    pub floor: Commit,
}

/// What follows from the answer of the caches.
#[derive(Debug, Drop)]
pub enum Chosen {
    /// The answer of the read.
    Answered(Result<ReadOut, SessionRefusal>),
    /// The server is to be asked.
    Asks(Why),
}

/// Whether a status is that of a read.
fn is_read_status(status: u16) -> bool
    ensures { result ≡ is_read_status status }
{
    status == 200 || status == 404
}

/// Below this commit no answer of the server is taken.
fn lowest(position: Position) -> Commit
    ensures { result ≡ lowest position }
{
    front_of(position.sight).max(position.floor)
}

/// What the reply to a read has.
fn body_in(reply: Reply) -> Body
    ensures { result ≡ body_in reply }
{
    if reply.status == 404 {
        return Body::Absent;
    }
    match reply.version {
        Some(version) => Body::Document {
            version,
            text: reply.body,
        },
        None => Body::List { text: reply.body },
    }
}

/// The server's answer as that of the read.
fn by_server(
    position: Position,
    why: Why,
    told: Result<Reply, LinkRefusal>,
) -> Result<ReadOut, SessionRefusal>
    ensures { result ≡ by_server position why told }
{
    let reply = match told {
        Ok(reply) => reply,
        Err(refusal) => return Err(refused(refusal)),
    };
    let code = reply.status;
    if !is_read_status(code) {
        return Err(SessionRefusal::Status { code });
    }
    let floor = lowest(position);
    let commit = reply.commit;
    if commit < floor {
        return Err(SessionRefusal::Behind { floor, got: commit });
    }
    Ok(ReadOut {
        body: body_in(reply),
        commit,
        way: Way::Direct(why),
    })
}

/// What follows from the answer of the caches.
fn by_copy(position: Position, told: Result<Reply, LinkRefusal>) -> Chosen
    ensures { result ≡ by_copy position told }
{
    let reply = match told {
        Ok(reply) => reply,
        Err(refusal) => return Chosen::Answered(Err(refused(refusal))),
    };
    let code = reply.status;
    if !is_read_status(code) {
        return Chosen::Answered(Err(SessionRefusal::Status { code }));
    }
    let commit = reply.commit;
    match why_with(
        position.sight,
        position.is_whitelisted,
        commit,
        reply.until,
        position.floor,
    ) {
        Some(why) => Chosen::Asks(why),
        None => Chosen::Answered(Ok(ReadOut {
            body: body_in(reply),
            commit: commit_with(position.sight, commit),
            way: Way::Cached,
        })),
    }
}

/// Asks the caches and the server, as the position and the answers say.
fn choose<L: Link>(
    link: &mut L,
    position: Position,
    first: &ClientAsk,
    second: &ClientAsk,
) -> Result<ReadOut, SessionRefusal>
    ensures by { Makes L.at L.answers link.old link.new (λ xs. IsChosenBy position first.now second.now xs result) }
{
    if let Some(why) = why_before(position.level, position.sight, position.is_whitelisted) {
        return by_server(position, why, link.direct(second));
    }
    match by_copy(position, link.through(first)) {
        Chosen::Answered(result) => result,
        Chosen::Asks(why) => by_server(position, why, link.direct(second)),
    }
}

/// What a read asks.
fn ask_of(key: &Key, no_cache: bool) -> Result<ClientAsk, SessionRefusal>
    ensures ok { IfOk result (λ asked. asked ≡ a_read key.now no_cache) }
    ensures err { IfErr result (λ refusal. refusal ≡ out_of_memory) }
{
    Ok(ClientAsk::Read {
        key: key.clone()?,
        no_cache,
    })
}

/// Asks for a key and gives the answer, with no session at hand.
fn asked<L: Link>(link: &mut L, position: Position, key: &Key) -> Result<ReadOut, SessionRefusal>
    ensures by { Makes L.at L.answers link.old link.new (λ xs. IsReadBy position key.now xs result) }
{
    let first = ask_of(key, false)?;
    let second = ask_of(key, true)?;
    choose(link, position, &first, &second)
}

/// Reads a key: the result at a commit that is below neither the page's front nor the floor. Memory is taken
/// before the link is asked.
pub fn read_by<L: Link>(
    link: &mut L,
    position: Position,
    key: &Key,
) -> Result<ReadOut, SessionRefusal>
    ensures by { Makes L.at L.answers link.old link.new (λ xs. IsReadBy position key.now xs result) }

    // No answer is older than the page or than what the session has seen.
    ensures front { IfOk result (λ out. front_of position.sight ≤ out.commit) }
    ensures floor { IfOk result (λ out. position.floor ≤ out.commit) }

    // Over a link that tells its history the answer is the result at its commit, and the held page stays
    // one of that history.
    ensures fresh { IsFresh (L.at link.old) (L.at link.new) position key.now result }
    ensures holds { StaysHeld (L.at link.old) (L.at link.new) }
{
    copies_without_a_cause_are_accepted();
    accepted_replies_are_fresh();
    asked(link, position, key)
}
