//! What follows of connections from the definitions alone. Each function states one law, and does
//! nothing.
ghost use Rattle.dialogue.specs.EndLaw.{EndIsDetermined, OneEnd, SameItems};

use http_message::{one_expectation_holds, one_item_is_first, one_split_is_there};

/// Where neither source nor sink fails, the bytes determine how many requests are answered, how the
/// connection ends, and what is given after the replies.
pub fn end_is_determined_by_the_bytes()
    ensures { EndIsDetermined }
{}

/// They determine it in one way.
pub fn one_end_is_determined()
    ensures { OneEnd }
{
    one_split_is_there();
    one_expectation_holds();
}

/// The bytes that were taken and the number of the items determine the items.
pub fn bytes_determine_the_items()
    ensures { SameItems }
{
    one_item_is_first();
}
