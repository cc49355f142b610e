//! What a hub's calls make of the history that it represents. Each function states one law, and does
//! nothing.
ghost use Rattle.std.specs.Prelude.{◌≡◌, List, [], ◌++◌};
ghost use Rattle.hub_model.specs.Legal.{IsLegalFrom};
ghost use Rattle.hub_model.specs.State.{State, start};
ghost use Rattle.hub_model.specs.Step.{after_all, state_of};
ghost use Rattle.hub_model.specs.declared.entry.Entry.{Entry as AnEntry};
ghost use Rattle.hub_core.specs.HubState.{HubView, IsAt, Represents};

use hub_model::laws::{more_entries, no_entry_is_legal};

/// A hub that has the first state represents no entry. A hub that represents a history represents it
/// with further entries after a call that makes these, where each may follow those before it.
pub fn hubs_represent_histories()
    ensures begins { (h : HubView) → IsAt h start → Represents h [] }
    ensures goes_on { (h new : HubView) (history more : List AnEntry) → Represents h history
        → IsLegalFrom h.setting (state_of h.setting history) more → new.setting ≡ h.setting
        → ((s : State) → IsAt h s → IsAt new (after_all h.setting s more)) → Represents new (history ++ more) }
{
    no_entry_is_legal();
    more_entries();
}
