//! Why a request is refused.
ghost use Rattle.std.specs.Prelude.{◌≡◌, ◌≤◌, length};
ghost use Rattle.http_front.specs.ReplyText.{allowed, field_name, is_of_method, reason_word};

use http_message::FramingRefusal;

/// The methods of a route, as a reply with the status 405 lists them (RFC 9110, section 10.2.1).
#[derive(Clone, Copy, Debug, PartialEq, Eq)]
pub enum Allow {
    /// GET, HEAD, PUT and DELETE.
    Record,
    /// POST.
    Post,
    /// GET and HEAD.
    Other,
}

/// Why a body is no document.
#[derive(Clone, Copy, Debug, PartialEq, Eq)]
pub enum DocumentReason {
    /// It is no JSON.
    NotJson,
    /// It is no object.
    NotObject,
    /// It is nested too deep.
    TooDeep,
    /// A number is not whole, or needs more than 64 bits.
    NotWhole,
}

/// A field of a target's query.
#[derive(Clone, Copy, Debug, PartialEq, Eq)]
pub enum QueryField {
    /// `f`, the filter.
    Filter,
    /// `o`, the order.
    Order,
    /// `s`, how many rows are skipped.
    Skip,
    /// `n`, how many rows are taken.
    Take,
    /// `k`, what is answered of a row.
    Kind,
    /// `from`, the first purge.
    From,
}

/// Why the fields of a query are none.
#[derive(Clone, Copy, Debug, PartialEq, Eq)]
pub enum FilterReason {
    /// The text is not in the grammar.
    Syntax,
    /// A number is outside its limits.
    BadNumber,
    /// The order has too many paths.
    TooManyPaths,
    /// The filter has too many leaves.
    TooMany,
    /// Too many parentheses are open.
    TooNested,
    /// The filter is too high.
    TooDeep,
}

/// Where and why a field of a query is refused. The place is an offset in the value, or the number that
/// is too great.
#[derive(Clone, Copy, Debug, PartialEq, Eq)]
pub struct FilterRefusal {
    pub field: QueryField,
    pub place: u64,
    pub reason: FilterReason,
}

/// Why a request is refused. Each has a status and an error word of its own.
#[derive(Clone, Copy, Debug, PartialEq, Eq)]
pub enum Refused {
    /// The bytes cannot be framed, so the connection ends after the reply.
    Framing(FramingRefusal),
    /// The fields of Host are not as many as the version asks for.
    BadHost,
    /// The Host is none of those whose requests are served (RFC 9110, section 15.5.20).
    Misdirected,
    /// The target is of no form that a route has, or a name or a field in it is none.
    BadTarget,
    /// No route has the path.
    NoRoute,
    /// The route does not have the method, but these.
    BadMethod(Allow),
    /// A PUT does not give the length of its body (RFC 9110, section 15.5.12).
    NoLength,
    /// A PUT has a content coding.
    BadEncoding,
    /// A condition is no list of entity tags, or is not taken with this method.
    BadTag,
    /// A field of a query is refused.
    BadFilter(FilterRefusal),
    /// The body is no document, or longer than one.
    BadDocument(DocumentReason),
}

impl Refused {
    /// The methods of the route, where the method was refused.
    pub fn allowed(self) -> Option<Allow>
        ensures { result ≡ allowed self }
    {
        match self {
            Refused::BadMethod(methods) => Some(methods),
            _ => None,
        }
    }

    /// Whether the method was refused.
    pub fn is_of_method(self) -> bool
        ensures { result ≡ is_of_method self }
    {
        matches!(self, Refused::BadMethod(_))
    }
}

impl QueryField {
    /// The name of the field.
    pub fn name(self) -> &'static [u8]
        ensures name { result.now ≡ field_name self }
        ensures short { length result.now ≤ 4 }
    {
        match self {
            QueryField::Filter => b"f",
            QueryField::Order => b"o",
            QueryField::Skip => b"s",
            QueryField::Take => b"n",
            QueryField::Kind => b"k",
            QueryField::From => b"from",
        }
    }
}

impl FilterReason {
    /// The word of the reason.
    pub(crate) fn word(self) -> &'static [u8]
        ensures word { result.now ≡ reason_word self }
        ensures short { length result.now ≤ 14 }
    {
        match self {
            FilterReason::Syntax => b"syntax",
            FilterReason::BadNumber => b"bad_number",
            FilterReason::TooManyPaths => b"too_many_paths",
            FilterReason::TooMany => b"too_many",
            FilterReason::TooNested => b"too_nested",
            FilterReason::TooDeep => b"too_deep",
        }
    }
}
