//! What follows for readers from the definitions alone. Each function states one law, and does nothing.
ghost use Rattle.std.specs.Prelude.{◌≡◌, ℕ, max, List, Some, IsTrue};
ghost use Rattle.query_normal.specs.declared.key.KeyShape.{KeyShape};
ghost use Rattle.query_normal.specs.Keys.{key_text};
ghost use Rattle.flat_snapshot.specs.Sight.{sight_of};
ghost use Rattle.client_core.specs.Choice.{is_accepted};
ghost use Rattle.hub_model.specs.declared.entry.Entry.{Entry as AnEntry};
ghost use Rattle.hub_model.specs.Journal.{result_at};
ghost use Rattle.hub_model.specs.Legal.{IsLegal};
ghost use Rattle.hub_model.specs.Setting.{Setting};
ghost use Rattle.hub_model.specs.Step.{state_of};
ghost use Rattle.client_model.specs.declared.reply.Reply.{Reply as AReply};
ghost use Rattle.client_model.specs.Issued.{IsIssued, IsFetched};
ghost use Rattle.query_normal.specs.Pages.{Page as APage};

use hub_model::laws::{
    beginnings_are_legal, clock_is_greatest, copies_are_of_reads, equal_results_are_tested,
    front_is_within, longer_histories_are_later, page_holds_recorded_keys, result_of_prefix,
};

/// An accepted reply is fresh: it is the result of its key at its own commit and at the front of the page
/// by which it was accepted. The page was fetched in the legal history in which the reply was issued.
pub fn accepted_replies_are_fresh()
    ensures { (g : Setting) (history : List AnEntry) (page : APage) (key : KeyShape) (reply : AReply) →
        IsLegal g history → IsFetched g history page → IsIssued g history key reply
        → IsTrue (is_accepted (Some (sight_of page (key_text key))) reply.commit reply.until 0)
        → result_at key (state_of g history).journal reply.commit ≡ result_at key (state_of g history).journal (max reply.commit page.front) }
{
    beginnings_are_legal();
    clock_is_greatest();
    copies_are_of_reads();
    equal_results_are_tested();
    front_is_within();
    longer_histories_are_later();
    page_holds_recorded_keys();
    result_of_prefix();
}
