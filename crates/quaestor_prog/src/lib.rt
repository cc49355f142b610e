//! What the program does with its words, over any source, sink, clock and places.
#![tactic(auto)]

mod list_places;
mod places;
mod program;
mod reading;
mod serving;
mod status;

pub use command_line::{BadValue, Data, Refusal, SyncPolicy, Watching, refusal_of};
pub use kept_desk::{Keeper, LogKeeper, NoKeeper, Notes, Unfilled};
pub use list_places::{ListPlaces, Watched};
pub use places::Places;
pub use program::run;
pub use reading::{ReadEnd, read_once};
pub use status::Status;
