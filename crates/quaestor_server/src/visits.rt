//! One connection to a desk by visits: it has buffers only while it is served.
//!
//! A connection that pauses between two requests gives its buffers back before it waits. So many
//! connections that are mostly idle share few buffers, and each visit may have others.
ghost use Rattle.std.specs.Prelude.{◌≡◌};
ghost use Rattle.dialogue.specs.Visit.{MayGoOn, Rests, Visited};
ghost use Rattle.hub_model.specs.Legal.{IsLegal};
ghost use Rattle.hub_model.specs.Setting.{Setting};
ghost use Rattle.q_outside.specs.Ends.{Ticks};
ghost use Rattle.quaestor_server.specs.Conversation.{AreKept, Conversation};
ghost use Rattle.quaestor_server.specs.Rooms.{IsFor};
ghost use Rattle.quaestor_server.specs.Visit.{answers_of};

use crate::connection::Room;
use crate::responder::Responder;
use dialogue::{Pause, REQUEST_LIMIT, VisitEnd, hold_visit};
use hub_desk::Desk;
use q_outside::{Clock, Served, Sink, Source};
use std::alloc::Global;

/// Where the buffers for a visit come from, and where they go to behind it.
pub trait Rooms {
    /// The configuration of the hubs for which they are.
    ghost setting: { Self → Setting };

    /// Buffers for one visit. It may wait for them.
    fn take(&mut self) -> Room
        ensures room { IsFor (setting self.old) result.pages result.config }
        ensures setting { setting self.new ≡ setting self.old };

    /// Takes them back.
    fn put(&mut self, room: Room)
        requires room { IsFor (setting self.old) room.pages room.config }
        ensures setting { setting self.new ≡ setting self.old };
}

/// Serves one connection to its end, as `serve_connection` does, with buffers only while a request is
/// there: they are taken once the source has been waited for, and put back at each pause.
pub fn serve_visits<D: Desk, S: Source, K: Sink, C: Clock, P: Rooms>(
    alloc: Global,
    desk: &mut D,
    source: &mut S,
    sink: &mut K,
    clock: &mut C,
    rooms: &mut P,
) -> Served
    requires legal { IsLegal (D.setting desk.old) (D.seen desk.old) }
    requires rooms { P.setting rooms.old ≡ D.setting desk.old }
    ensures legal { IsLegal (D.setting desk.old) (D.seen desk.new) }
    ensures conversation { Conversation (D.setting desk.old) D.may_be_unready (λ moments. Ticks C.tick clock.old moments clock.new) (AreKept D.setting D.seen D.anchor D.is_kept (D.setting desk.old) (D.anchor desk.old)) (D.seen desk.old) (D.seen desk.new) (D.mine desk.old) (D.mine desk.new)
        (record { source = S.at source.old; sink = K.at sink.old }) (record { source = S.at source.new; sink = K.at sink.new }) result }
    ensures rooms { P.setting rooms.new ≡ P.setting rooms.old }
    ensures anchor { D.anchor desk.new ≡ D.anchor desk.old }
    ensures setting { D.setting desk.new ≡ D.setting desk.old }
{
    let mut pause = Pause::START;
    for _visit in 0..REQUEST_LIMIT {
        source.wait();
        let mut room = rooms.take();
        let end = serve_visit(alloc, desk, source, sink, clock, &mut room, pause);
        rooms.put(room);
        match end {
            VisitEnd::Quiet(next) => pause = next,
            VisitEnd::Ended(served) => return served,
        }
    }
    unreachable!()
}

/// Serves one connection from a pause to the next, or to its end.
fn serve_visit<D: Desk, S: Source, K: Sink, C: Clock>(
    alloc: Global,
    desk: &mut D,
    source: &mut S,
    sink: &mut K,
    clock: &mut C,
    room: &mut Room,
    from: Pause,
) -> VisitEnd
    requires legal { IsLegal (D.setting desk.old) (D.seen desk.old) }
    requires room { IsFor (D.setting desk.old) room.old.pages room.old.config }
    requires more { MayGoOn from }
    ensures legal { IsLegal (D.setting desk.old) (D.seen desk.new) }
    ensures visit { Visited (answers_of D.setting D.may_be_unready D.seen D.mine D.anchor D.is_kept C.tick) (record { desk = desk.old; clock = clock.old }) (record { desk = desk.new; clock = clock.new })
        (record { source = S.at source.old; sink = K.at sink.old }) (record { source = S.at source.new; sink = K.at sink.new }) from result }
    ensures rests { Rests from result }
    ensures room { IsFor (D.setting desk.old) room.new.pages room.new.config }
    ensures anchor { D.anchor desk.new ≡ D.anchor desk.old }
    ensures setting { D.setting desk.new ≡ D.setting desk.old }
{
    let mut responder = Responder {
        alloc,
        desk,
        clock,
        routes: &room.routes,
        origins: room.config.origins(),
        hosts: room.config.hosts(),
        documents: &mut *room.documents,
        reply: &mut room.reply,
        pages: &mut room.pages,
    };
    hold_visit(
        &mut responder,
        source,
        sink,
        &mut room.requests,
        from,
        room.share,
    )
}
