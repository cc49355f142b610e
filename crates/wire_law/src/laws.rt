//! What the server prints, the client reads. Each function states one law, and does nothing.
ghost use Rattle.wire_law.specs.Printed.{FieldsAreRead, HeadIsTaken, PartIsTruncated, ReplyIsRead};
ghost use Rattle.wire_law.specs.Told.{ToldIsRead};

use http_front::{Head, Shape, Told, replies_read_back};

/// Of the fields of a head none is refused, and the parts of the reply are the numbers that the head has.
pub fn fields_are_read(head: Head<'_>)
    ensures { FieldsAreRead head.entry }
{
    let _allow = head.leave.allow();
}

/// The text of a head is what a client takes as a head: it ends with its first empty line, within the
/// limit, and `httparse` reads it as these fields.
pub fn head_is_taken(head: Head<'_>)
    ensures { HeadIsTaken head.entry }
{
    let _status = head.status.as_u16();
    let _allow = head.leave.allow();
    replies_read_back(head);
}

/// From a source that begins with the text of a head and its body, a client reads the reply that they
/// are, whatever follows, and takes no byte of that.
pub fn reply_is_read(head: Head<'_>)
    ensures { ReplyIsRead head.entry }
{
    let _status = head.status.as_u16();
    let _allow = head.leave.allow();
    replies_read_back(head);
}

/// From a source that shows a part of them and ends there it reads none.
pub fn part_is_truncated(head: Head<'_>)
    ensures { PartIsTruncated head.entry }
{
    let _status = head.status.as_u16();
    let _allow = head.leave.allow();
    replies_read_back(head);
}

/// A client reads the reply, too, of the text of what the server answers to a request of another method
/// than HEAD and OPTIONS, where the body has this length.
pub fn told_is_read(shape: &Shape<'_>, told: &Told, length: usize, close: bool)
    ensures { ToldIsRead shape.now told.now length close }
{
    reply_is_read(Head::of(shape, told, length, close));
}
