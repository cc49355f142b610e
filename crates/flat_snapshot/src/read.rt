//! Reading the parts of a page's text.
ghost use Rattle.std.specs.Prelude.{◌≡◌, ◌+◌, ◌≤◌, Ok, Err, IfOk, IfErr, length, take, drop, bytes_eq, codes};
ghost use Rattle.flat_snapshot.specs.PageText.{IsPage, head_bytes};
ghost use Rattle.flat_snapshot.specs.Sight.{head_page};
ghost use Rattle.flat_snapshot.specs.Reading.{word_at, first_bad_field, read_page};

use q_base::{Commit, Moment};
use std::error::Error;
use std::fmt;

/// The number of bytes before the bits.
pub const HEAD_BYTES: usize = 30;

/// The fewest hashes of a page.
const FEWEST_HASHES: u8 = 1;

/// The most hashes of a page.
const MOST_HASHES: u8 = 16;

/// The least exponent of a page's size.
const LEAST_LOG2_BITS: u8 = 10;

/// The greatest exponent of a page's size.
const MOST_LOG2_BITS: u8 = 22;

/// Why bytes are not a page. The first cause, in this order, is returned: fewer bytes than a head has,
/// the first four bytes, a field by its offset, the number of bytes.
#[derive(Clone, Copy, Debug, PartialEq, Eq)]
pub enum PageRefusal {
    /// The number of bytes is wrong.
    BadSize {
        /// The number of bytes that a page must have.
        want: usize,
        /// The number of bytes that there are.
        found: usize,
    },
    /// The first four bytes are not `QSF1`.
    BadMark,
    /// A field is outside its limits.
    BadField {
        /// The offset of its first byte.
        place: usize,
    },
    /// Memory ran out.
    Memory,
}

impl fmt::Display for PageRefusal {
    ghost use Rattle.std.specs.Prelude.{Some};
    ghost use Rattle.flat_snapshot.specs.PageRefusal.{sentence};

    ghost output = { λ e. Some (sentence e) };

    fn fmt<W: fmt::Write>(&self, f: &mut fmt::Formatter<W>) -> fmt::Result {
        match self {
            PageRefusal::BadSize { want, found } => {
                write!(f, "a page of {want} bytes is wanted, and there are {found}")
            }
            PageRefusal::BadMark => write!(f, "a page begins with QSF1"),
            PageRefusal::BadField { place } => {
                write!(
                    f,
                    "the field of a page at byte {place} is outside its limits"
                )
            }
            PageRefusal::Memory => write!(f, "out of memory"),
        }
    }
}

impl Error for PageRefusal {}

/// What stands before the bits of a page.
#[derive(Clone, Copy, Debug, PartialEq, Eq)]
pub struct PageHead {
    /// The exponent of the page's size: it has `2^log2_bits` bits.
    pub log2_bits: u8,
    /// The number of positions of a key.
    pub hashes: u8,
    /// The front: the commits up to it were matched.
    pub front: Commit,
    /// The number of commits.
    pub commits: Commit,
    /// The clock at which the page was made, in seconds since 1970.
    pub moment: u64,
}

/// The head of a page, where the bytes are one. The bits are the bytes behind it.
pub fn head_in(bytes: &[u8]) -> Result<PageHead, PageRefusal>
    ensures page { IfOk result (λ head. IsPage (head_page head (drop head_bytes bytes.now))) }
    ensures read { IfOk result (λ head. Ok (head_page head (drop head_bytes bytes.now)) ≡ read_page bytes.now) }
    ensures refused { IfErr result (λ refusal. read_page bytes.now ≡ Err refusal) }
{
    let found = bytes.len();
    if found < HEAD_BYTES {
        return Err(PageRefusal::BadSize {
            want: HEAD_BYTES,
            found,
        });
    }
    if !has_mark(bytes) {
        return Err(PageRefusal::BadMark);
    }
    let hashes = bytes[4];
    let log2_bits = bytes[5];
    let front = word_at(bytes, 6);
    let commits = word_at(bytes, 14);
    let moment = word_at(bytes, 22);
    if let Some(place) = first_bad_field(log2_bits, hashes, front, commits, moment) {
        return Err(PageRefusal::BadField { place });
    }
    let want = HEAD_BYTES + (1usize << log2_bits) / 8;
    if found != want {
        return Err(PageRefusal::BadSize { want, found });
    }
    Ok(PageHead {
        log2_bits,
        hashes,
        front,
        commits,
        moment,
    })
}

/// Whether the bytes begin with `QSF1`.
pub fn has_mark(bytes: &[u8]) -> bool
    requires { 4 ≤ length bytes.now }
    ensures { result ≡ bytes_eq (take 4 bytes.now) (codes "QSF1") }
{
    &bytes[..4] == b"QSF1".as_slice()
}

/// Eight bytes as a number, the high byte first.
pub fn word_at(bytes: &[u8], offset: usize) -> u64
    requires { offset + 8 ≤ length bytes.now }
    ensures { result ≡ word_at bytes.now offset }
{
    match <[u8; 8]>::try_from(&bytes[offset..offset + 8]) {
        Ok(word) => u64::from_be_bytes(word),
        Err(_) => unreachable!(),
    }
}

/// The offset of the first field outside its limits.
pub fn first_bad_field(
    log2_bits: u8,
    hashes: u8,
    front: u64,
    commits: u64,
    seconds: u64,
) -> Option<usize>
    ensures { result ≡ first_bad_field log2_bits hashes front commits seconds }
{
    if !(FEWEST_HASHES..=MOST_HASHES).contains(&hashes) {
        Some(4)
    } else if !(LEAST_LOG2_BITS..=MOST_LOG2_BITS).contains(&log2_bits) {
        Some(5)
    } else if commits < front {
        Some(6)
    } else if Moment::of(seconds).seconds() < seconds {
        Some(22)
    } else {
        None
    }
}
