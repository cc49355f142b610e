//! What follows of connections from the definitions alone. Each function states one law, and does
//! nothing.
ghost use Rattle.quaestor_server.specs.TextsAreDetermined.{TextsAreDetermined, OwnedIsAlone};
ghost use Rattle.quaestor_server.specs.WellServed.{OwnEntriesAreInPlace, WellServedStays};

use dialogue::bytes_determine_the_items;
use http_front::replies_have_one_text;

/// A connection that was well served in a history is so in every longer one.
pub fn well_served_stays()
    ensures { WellServedStays }
{}

/// The entries of a connection that was well served are in the history, at their positions.
pub fn own_entries_are_in_place()
    ensures { OwnEntriesAreInPlace }
{}

/// No others make entries in the history of a desk that owns it, as `Owned` does.
pub fn owned_histories_are_alone()
    ensures { OwnedIsAlone }
{}

/// Over a history of the connection's own, of which nothing is to be kept on a disk, the bytes, the moments
/// and the positions of 503 determine what is written, and which entries are made.
pub fn bytes_and_moments_determine_the_texts()
    ensures { TextsAreDetermined }
{
    bytes_determine_the_items();
    replies_have_one_text();
}
