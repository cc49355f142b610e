//! Laws of the routes, and of the texts of replies.
ghost use Rattle.http_front.specs.Paths.{PathsOfRecordsHaveTwoNames};
ghost use Rattle.http_front.specs.ReadBack.{EndsWithItsHead, FramesItsBody, OneReplyIsRead, ReadsBack, RepliesHaveOneText};

use crate::head::Head;

/// A path has the route of a record exactly where it is UTF-8, and `/v1/d/` with two parts after it
/// that a slash parts.
pub fn paths_of_records_have_two_names()
    ensures { PathsOfRecordsHaveTwoNames }
{}

/// The text of a head is read back by `httparse` as its status and its fields, whatever follows it.
pub fn replies_read_back(head: Head<'_>)
    ensures { ReadsBack head.entry }
{
    let _status = head.status.as_u16();
    let _allow = head.leave.allow();
}

/// A head with a length frames just this number of bytes, where its status has a body; where it has none,
/// as 304, the reply ends with its head.
pub fn replies_are_framed(head: Head<'_>)
    ensures sized { FramesItsBody head.entry }
    ensures bodiless { EndsWithItsHead head.entry }
{}

/// Bytes are read as one status, one list of fields and one rest at most.
pub fn one_reply_is_read()
    ensures { OneReplyIsRead }
{}

/// Equal items, answers and pages have equal texts.
pub fn replies_have_one_text()
    ensures { RepliesHaveOneText }
{}
