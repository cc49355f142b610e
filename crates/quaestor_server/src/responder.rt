//! Who answers the items of a connection to a desk.
ghost use Rattle.std.specs.Prelude.{◌≡◌, ℕ, List};
ghost use Rattle.std.proofs.Common.{◌∙◌, refl};
ghost use Rattle.http_front.specs.ReplyText.{IsReplyText};
ghost use Rattle.http_front.specs.Routes.{all_routes};
ghost use Rattle.hub_core.specs.PageRoom.{IsRoomFor};
ghost use Rattle.hub_model.specs.Legal.{IsLegal};
ghost use Rattle.q_outside.specs.Ends.{Gave};
ghost use Rattle.quaestor_server.specs.Conversation.{AnswersAt};

use crate::answer::answer;
use dialogue::Answers;
use http_front::{Refused, ReplyRoom, Routes, Shape, Told, ask_to, give_reply, note_of, shape_of};
use http_message::{FramingRefusal, Request};
use hub_core::PageRoom;
use hub_desk::Desk;
use q_doc::ReadBuffer;
use q_outside::{Clock, Failed, Note, Sink};
use std::alloc::Global;

/// A desk that answers the items of a connection, with the clock that gives their moments and the
/// buffers that the answers need.
#[derive(Drop)]
pub(crate) struct Responder<'a, D: Desk, C: Clock> {
    pub alloc: Global,
    pub desk: &'a mut D,
    pub clock: &'a mut C,
    pub routes: &'a Routes,
    /// The origins of pages that may read the replies.
    pub origins: &'a [u8],
    /// The hosts whose requests are served.
    pub hosts: &'a [u8],
    pub documents: &'a mut ReadBuffer,
    pub reply: &'a mut ReplyRoom,
    pub pages: &'a mut PageRoom,
}

impl<'a, D: Desk, C: Clock> Answers for Responder<'a, D, C> {
    ghost can = { λ t. IsLegal (D.setting t.desk.now) (D.seen t.desk.now) × IsRoomFor (D.setting t.desk.now) t.pages.now × (t.routes.now ≡ all_routes) × (t.origins.now ≡ (D.setting t.desk.now).origins) × (t.hosts.now ≡ (D.setting t.desk.now).hosts) };

    ghost answers = { λ a item close text b. AnswersAt D.setting D.may_be_unready D.seen D.mine D.anchor D.is_kept C.tick a.desk.now b.desk.now a.clock.now b.clock.now item close text };

    ghost keeps = { λ a b. (b.desk.ghost_name ≡ a.desk.ghost_name) × (b.clock.ghost_name ≡ a.clock.ghost_name) × (b.documents.ghost_name ≡ a.documents.ghost_name) × (b.reply.ghost_name ≡ a.reply.ghost_name) × (b.pages.ghost_name ≡ a.pages.ghost_name) × (D.setting b.desk.now ≡ D.setting a.desk.now) × (D.anchor b.desk.now ≡ D.anchor a.desk.now) };

    fn answer<K: Sink>(
        &mut self,
        sink: &mut K,
        request: &Request<'_>,
        close: bool,
    ) -> Result<(), Failed> {
        let moment = self.clock.now();
        let read = ask_to(self.alloc, self.hosts, request, self.routes, self.documents);
        let told = answer(self.desk, self.pages, moment, read);
        let shape = shape_of(self.origins, request);
        let note = note_of(&shape, &told, request.method(), request.target());
        give_noted(
            sink,
            self.reply,
            &shape,
            &told,
            self.pages.bytes(),
            close,
            &note,
        )
    }

    fn refuse<K: Sink>(
        &mut self,
        sink: &mut K,
        refused: FramingRefusal,
        head: bool,
    ) -> Result<(), Failed> {
        let moment = self.clock.now();
        let read = Ok(Err(Refused::Framing(refused)));
        let told = answer(self.desk, self.pages, moment, read);
        let shape = Shape::unframed(self.origins, head);
        let note = note_of(&shape, &told, b"", b"");
        give_noted(
            sink,
            self.reply,
            &shape,
            &told,
            self.pages.bytes(),
            true,
            &note,
        )
    }

    ghost kept = { λ a. (refl, refl, refl, refl, refl, refl, refl) };

    ghost kept_on = { λ a b c p q. (q.0 ∙ p.0, q.1 ∙ p.1, q.2 ∙ p.2, q.3 ∙ p.3, q.4 ∙ p.4, q.5 ∙ p.5, q.6 ∙ p.6) };
}

/// Gives a reply and takes note of it, also where it could not be given.
fn give_noted<K: Sink>(
    sink: &mut K,
    buffer: &mut ReplyRoom,
    shape: &Shape<'_>,
    told: &Told,
    page: &[u8],
    close: bool,
    note: &Note<'_>,
) -> Result<(), Failed>
    ensures reply { (text : List ℕ) × IsReplyText shape.now told.now page.now close text × Gave (K.at sink.old) (K.at sink.new) text result }
{
    let given = give_reply(sink, buffer, shape, told, page, close);
    sink.note(note);
    given
}
