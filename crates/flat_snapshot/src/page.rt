//! Pages that were read.
ghost use Rattle.std.specs.Prelude.{◌≡◌, ◌<◌, ◌≤◌, ◌/◌, ◌++◌, List, ℕ, All, IsErr, ◌⊎◌, length, drop};
ghost use Rattle.std.specs.List.{list_all};
ghost use Rattle.query_normal.specs.Bits.{is_bit_set};
ghost use Rattle.query_normal.specs.Keys.{key_text};
ghost use Rattle.query_normal.specs.Pages.{page_holds};
ghost use Rattle.flat_snapshot.specs.PageText.{page_text, IsPage};
ghost use Rattle.flat_snapshot.specs.Reading.{read_page};
ghost use Rattle.flat_snapshot.specs.Sight.{sight_of, mark_of, marked_sight};

use crate::read::{HEAD_BYTES, PageRefusal, head_in};
use crate::sight::{KeyMark, Sight, has_mark_set};
use crate::write::write_page;
use q_base::{Commit, Moment, positions_of};
use query_normal::{Key, bits};
use std::alloc::Global;
use std::marker::Model;

/// The keys of outdated copies as a Bloom filter (Bloom 1970), with a front, the number of commits and a
/// moment: the expiring filter of Quaestor (Gessert et al., VLDB 2017).
#[derive(Debug, Drop)]
pub struct Page {
    log2_bits: u8,
    hashes: u8,
    front: Commit,
    commits: Commit,
    moment: Moment,
    bits: Vec<u8>,
}

impl Model for Page {
    ghost use Rattle.query_normal.specs.Pages.{Page as APage};

    ghost Value = { APage };

    ghost use Rattle.flat_snapshot.specs.PageText.{IsPage, page_with};

    ghost view = { λ p. page_with p.log2_bits p.hashes p.front p.commits p.moment p.bits.items };

    ghost invariant = { λ p. IsPage (page_with p.log2_bits p.hashes p.front p.commits p.moment p.bits.items) };
}

impl Page {
    /// Reads a page from its text.
    pub fn read(alloc: Global, bytes: &[u8]) -> Result<Page, PageRefusal>
        ensures told { (result ≡ Err PageRefusal.Memory) ⊎ (result ≡ read_page bytes.now) }
        ensures refused { IsErr (read_page bytes.now) → result ≡ read_page bytes.now }
    {
        let head = head_in(bytes)?;
        match Vec::from_slice(alloc, &bytes[HEAD_BYTES..]) {
            Ok(bits) => Ok(Page {
                log2_bits: head.log2_bits,
                hashes: head.hashes,
                front: head.front,
                commits: head.commits,
                moment: Moment::of(head.moment),
                bits,
            }),
            Err(_) => Err(PageRefusal::Memory),
        }
    }

    /// Whether all bits of the key are set, so that its copies may be outdated.
    pub fn holds(&self, key: &Key) -> bool
        ensures { result ≡ page_holds self.now key.now }
    {
        let positions = positions_of(key.text(), self.log2_bits, self.hashes);
        all_set(&self.bits, positions.as_slice())
    }

    /// What the page says of a key.
    pub fn sight(&self, key: &Key) -> Sight
        ensures { result ≡ sight_of self.now (key_text key.now) }
    {
        let positions = positions_of(key.text(), self.log2_bits, self.hashes);
        Sight {
            front: self.front,
            moment: self.moment.seconds(),
            is_held: all_set(&self.bits, positions.as_slice()),
        }
    }

    /// What the page says of a key by its mark, so that the key is not hashed again.
    pub fn sight_at(&self, mark: KeyMark) -> Sight
        ensures marked { result ≡ marked_sight self.now mark }
        ensures same { (text : List ℕ) → mark ≡ mark_of text → result ≡ sight_of self.now text }
    {
        Sight {
            front: self.front,
            moment: self.moment.seconds(),
            is_held: has_mark_set(&self.bits, self.log2_bits, self.hashes, mark),
        }
    }

    /// The front: the commits up to it were matched.
    pub fn front(&self) -> Commit
        ensures front { result ≡ self.now.front }
        ensures page { IsPage self.now }
    {
        self.front
    }

    /// The number of commits.
    pub fn commits(&self) -> Commit
        ensures { result ≡ self.now.commits }
    {
        self.commits
    }

    /// The clock at which the page was made.
    pub fn moment(&self) -> Moment
        ensures { result ≡ self.now.moment }
    {
        self.moment
    }

    /// Writes the page's text to the start of the buffer and returns its length.
    pub fn write_into(&self, buffer: &mut [u8]) -> usize
        requires { length (page_text self.now) ≤ length buffer.old }
        ensures length { result ≡ length (page_text self.now) }
        ensures written { buffer.new ≡ page_text self.now ++ drop result buffer.old }
    {
        write_page(
            buffer,
            self.log2_bits,
            self.hashes,
            self.front,
            self.commits,
            self.moment,
            &self.bits,
        )
    }
}

/// Whether the bits at all these positions are set.
pub(crate) fn all_set(bytes: &[u8], positions: &[u32]) -> bool
    requires { All (λ p. p / 8 < length bytes.now) positions.now }
    ensures { result ≡ list_all (is_bit_set bytes.now) positions.now }
{
    positions
        .iter()
        .all(|position| bits::is_set(bytes, *position as usize))
}
