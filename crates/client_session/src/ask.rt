//! What a client asks, and why a link has no reply.
use hub_model::Condition;
use q_base::Name;
use q_doc::Text;
use query_normal::Key;

/// What a client asks of a server, or of the caches on the way to it.
#[derive(Drop)]
pub enum ClientAsk {
    /// The result of a key.
    Read {
        key: Key,
        /// Whether caches are to ask the server (RFC 9111, section 5.2.1.4).
        no_cache: bool,
    },
    /// The page of the outdated keys.
    Page,
    /// That a record gets a document.
    Put {
        collection: Name,
        id: Name,
        /// The printed document.
        text: Text,
        condition: Condition,
    },
    /// That a record is deleted.
    Delete {
        collection: Name,
        id: Name,
        condition: Condition,
    },
}

/// Why a link has no reply.
#[derive(Clone, Copy, Debug, PartialEq, Eq)]
pub enum LinkRefusal {
    /// The link failed, and its count of faults rose.
    Fault,
    /// The bytes of the reply are not of the format, and the link's count of such answers rose.
    BadReply {
        /// The offset of the first wrong byte.
        place: usize,
    },
    /// Memory ran out.
    Memory,
    /// The reply to a page has another status than 200.
    Status {
        code: u16,
    },
}
