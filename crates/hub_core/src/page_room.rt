//! The buffer for a page.
ghost use Rattle.std.specs.Prelude.{◌≡◌, ◌*◌, ◌^◌, length, IfOk, Some, None, option_map, unwrap_or, []};
ghost use Rattle.flat_snapshot.specs.PageText.{page_text, page_with};
ghost use Rattle.hub_core.specs.PageRoom.{IsRoomFor, all_set, moment_in, set_below};

use crate::config::Config;
use flat_snapshot::write_page;
use q_base::{Commit, Memory, Moment};
use std::alloc::Global;
use std::marker::Model;

/// The number of bytes before the bits of a page.
const HEAD_BYTES: usize = 30;

/// The byte of eight bits that are set.
const ALL_SET: u8 = 255;

/// The bytes of the last fetched page. The buffer is made once and used for each fetch.
#[derive(Debug, Drop)]
pub struct PageRoom {
    log2_bits: u8,
    hashes: u8,
    fetched: Option<Numbers>,
    bytes: Vec<u8>,
}

/// The numbers in the header of a page.
#[derive(Clone, Copy, Debug, PartialEq, Eq)]
pub struct Numbers {
    /// The last commit that was matched.
    pub front: Commit,
    /// The number of commits.
    pub commits: Commit,
    /// The clock at which the bits were those of the unexpired outdated copies.
    pub moment: Moment,
}

impl Model for PageRoom {
    ghost use Rattle.std.specs.Prelude.{option_map};
    ghost use Rattle.hub_core.specs.PageRoom.{PageRoomView, page_in, IsKept};

    ghost Value = { PageRoomView };

    ghost view = { λ p. record {
      log2_bits = p.log2_bits;
      hashes = p.hashes;
      page = option_map (page_in p.log2_bits p.hashes p.bytes.items) p.fetched;
    } };

    ghost invariant = { λ p. IsKept p.log2_bits p.hashes p.fetched p.bytes.items };
}

impl PageRoom {
    /// A buffer for the pages of a hub of this configuration.
    pub fn new(alloc: Global, config: &Config) -> Result<PageRoom, Memory>
        ensures sizes { IfOk result (λ room. IsRoomFor config.now room) }
        ensures none { IfOk result (λ room. room.page ≡ None) }
    {
        let log2_bits = config.log2_bits();
        let size = HEAD_BYTES + (1usize << log2_bits) / 8;
        Ok(PageRoom {
            log2_bits,
            hashes: config.hashes(),
            fetched: None,
            bytes: vec![in alloc; 0u8; size]?,
        })
    }

    /// The bytes of the last fetched page, and none before the first fetch.
    pub fn bytes(&self) -> &[u8]
        ensures { result.now ≡ unwrap_or (option_map page_text self.now.page) [] }
    {
        match self.fetched {
            Some(_) => self.bytes.as_slice(),
            None => &[],
        }
    }

    /// The moment of the last fetched page, and 0 before the first fetch.
    pub fn moment(&self) -> Moment
        ensures { result ≡ moment_in self.now }
    {
        match self.fetched {
            Some(numbers) => numbers.moment,
            None => Moment::of(0),
        }
    }

    /// Sets every bit of the last fetched page, where there is one. Its first 30 bytes and its length stay.
    pub fn set_all(&mut self)
        ensures { self.new ≡ record self.old { page = option_map all_set self.old.page } }
    {
        self.bytes[HEAD_BYTES..].fill(ALL_SET);
    }

    /// Sets every bit of the last fetched page where its moment is below this second.
    pub(crate) fn set_below(&mut self, guard: u64)
        ensures { self.new ≡ record self.old { page = option_map (set_below guard) self.old.page } }
    {
        let moment = self.moment().seconds();
        if moment < guard {
            self.set_all();
        }
    }

    /// Writes a page with these bits.
    pub(crate) fn write(&mut self, numbers: Numbers, bits: &[u8])
        requires { 8 * length bits.now ≡ 2 ^ self.old.log2_bits }
        ensures { self.new ≡ record self.old { page = Some (page_with self.old.log2_bits self.old.hashes numbers.front numbers.commits numbers.moment bits.now) } }
    {
        write_page(
            &mut self.bytes,
            self.log2_bits,
            self.hashes,
            numbers.front,
            numbers.commits,
            numbers.moment,
            bits,
        );
        self.fetched = Some(numbers);
    }
}
