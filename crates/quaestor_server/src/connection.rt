//! One connection to a desk: each item is answered by one entry of the desk's history.
ghost use Rattle.std.specs.Prelude.{◌≡◌, true, IfOk};
ghost use Rattle.http_front.specs.Routes.{all_routes};
ghost use Rattle.hub_model.specs.Legal.{IsLegal};
ghost use Rattle.q_outside.specs.Ends.{Ticks};
ghost use Rattle.quaestor_server.specs.Conversation.{AreKept, Conversation};
ghost use Rattle.quaestor_server.specs.Rooms.{IsFor};

use crate::responder::Responder;
use dialogue::{REQUEST_LIMIT, hold_dialogue};
use http_front::{ReplyRoom, Routes};
use http_message::RequestRoom;
use hub_core::{Config, PageRoom};
use hub_desk::Desk;
use q_base::Memory;
use q_doc::ReadBuffer;
use q_outside::{Clock, Served, Sink, Source};
use std::alloc::Global;

/// The buffers of one connection, made once, and the routes, which are all that there are. The
/// configuration is kept, so that a room can be asked for which hubs it was made.
#[derive(Drop)]
pub struct Room {
    pub(crate) requests: RequestRoom,
    pub(crate) routes: Routes,
    /// It has 16 KB in place, so it is boxed: rooms are moved from and to the stacks of threads.
    pub(crate) documents: Box<ReadBuffer>,
    pub(crate) reply: ReplyRoom,
    /// The buffer for the pages that are fetched.
    pub pages: PageRoom,
    /// How many requests a visit answers before it puts the room back, where the connection could pause.
    pub share: u64,
    /// The configuration of the hubs for which it was made.
    pub config: Config,
    ghost all: { routes ≡ all_routes },
    ghost bits_size: { pages.log2_bits ≡ config.log2_bits },
    ghost hashes_size: { pages.hashes ≡ config.hashes },
}

impl Room {
    /// The buffers of a connection to a hub of this configuration.
    pub fn new(alloc: Global, config: &Config) -> Result<Room, Memory>
        ensures { IfOk result (λ room. IsFor config.now room.pages room.config) }
    {
        Ok(Room {
            requests: RequestRoom::new(alloc)?,
            routes: Routes::new(alloc)?,
            documents: Box::new(alloc, ReadBuffer::new(alloc))?,
            reply: ReplyRoom::new(alloc)?,
            pages: PageRoom::new(alloc, config)?,
            share: REQUEST_LIMIT,
            config: config.clone()?,
        })
    }

    /// Whether it serves a hub of this configuration.
    pub fn is_for(&self, config: &Config) -> bool
        ensures { result ≡ true → IsFor config.now self.now.pages self.now.config }
    {
        self.config.log2_bits() == config.log2_bits()
            && self.config.hashes() == config.hashes()
            && self.config.origins() == config.origins()
            && self.config.hosts() == config.hosts()
    }
}

/// Serves one connection to its end, with the same buffers throughout. A request for which there is no
/// memory is answered 503, makes no entry, and the connection goes on. The sink is not ended: its owner
/// does that.
pub fn serve_connection<D: Desk, S: Source, K: Sink, C: Clock>(
    alloc: Global,
    desk: &mut D,
    source: &mut S,
    sink: &mut K,
    clock: &mut C,
    room: &mut Room,
) -> Served
    requires legal { IsLegal (D.setting desk.old) (D.seen desk.old) }
    requires room { IsFor (D.setting desk.old) room.old.pages room.old.config }
    ensures legal { IsLegal (D.setting desk.old) (D.seen desk.new) }
    ensures conversation { Conversation (D.setting desk.old) D.may_be_unready (λ moments. Ticks C.tick clock.old moments clock.new) (AreKept D.setting D.seen D.anchor D.is_kept (D.setting desk.old) (D.anchor desk.old)) (D.seen desk.old) (D.seen desk.new) (D.mine desk.old) (D.mine desk.new)
        (record { source = S.at source.old; sink = K.at sink.old }) (record { source = S.at source.new; sink = K.at sink.new }) result }
    ensures room { IsFor (D.setting desk.old) room.new.pages room.new.config }
    ensures anchor { D.anchor desk.new ≡ D.anchor desk.old }
    ensures setting { D.setting desk.new ≡ D.setting desk.old }
{
    let mut responder = Responder {
        alloc,
        desk,
        clock,
        routes: &room.routes,
        origins: room.config.origins(),
        hosts: room.config.hosts(),
        documents: &mut *room.documents,
        reply: &mut room.reply,
        pages: &mut room.pages,
    };
    hold_dialogue(&mut responder, source, sink, &mut room.requests)
}
