//! The configuration of a hub.
ghost use Rattle.std.specs.Prelude.{◌≡◌, true, false, []};
ghost use Rattle.hub_core.specs.Config.{configured, with_ttls};
ghost use Rattle.hub_model.specs.Lifetime.{kept_for, shared_of};
ghost use Rattle.hub_model.specs.Setting.{IsWithinLimits};

use q_base::SharedText;
use std::error::Error;
use std::fmt;
use std::marker::Model;

/// The logarithm of the number of the filter's bits is at least this.
const LEAST_LOG2_BITS: u8 = 10;

/// And at most this.
const MOST_LOG2_BITS: u8 = 22;

/// The least number of positions of a key.
const FEWEST_HASHES: u8 = 1;

/// The greatest number of positions of a key.
const MOST_HASHES: u8 = 16;

/// The least lifetime, in seconds.
const LEAST_TTL: u32 = 1;

/// The greatest lifetime, in seconds: a year.
const MOST_TTL: u32 = 31_536_000;

/// The greatest number of keys that may be active at once.
const MOST_ACTIVE: u32 = 1_000_000;

/// The least capacity, in bytes, which every document fits.
const LEAST_CAPACITY: u64 = 65_792;

/// The greatest capacity, in bytes.
const MOST_CAPACITY: u64 = 134_217_728;

/// The limits and defaults of one hub. Contracts see them as a `Setting`.
#[derive(Clone, Debug, Drop)]
pub struct Config {
    log2_bits: u8,
    hashes: u8,
    ttl_low: u32,
    ttl_high: u32,
    active: u32,
    capacity: u64,
    origins: Option<SharedText>,
    hosts: Option<SharedText>,
    ttl_absent: u32,
    ttl_shared: u32,
    keeps: bool,
    guard: u64,
}

impl Model for Config {
    ghost use Rattle.std.specs.Prelude.{[], unwrap_or};
    ghost use Rattle.hub_model.specs.Setting.{Setting, IsWithinLimits};

    ghost Value = { Setting };

    ghost view = { λ c. record {
      log2_bits = c.log2_bits;
      hashes = c.hashes;
      ttl_low = c.ttl_low;
      ttl_high = c.ttl_high;
      active = c.active;
      capacity = c.capacity;
      origins = unwrap_or c.origins [];
      hosts = unwrap_or c.hosts [];
      ttl_absent = c.ttl_absent;
      ttl_shared = c.ttl_shared;
      keeps = c.keeps;
      guard = c.guard;
    } };

    ghost invariant = { λ c. IsWithinLimits (record {
      log2_bits = c.log2_bits;
      hashes = c.hashes;
      ttl_low = c.ttl_low;
      ttl_high = c.ttl_high;
      active = c.active;
      capacity = c.capacity;
      origins = unwrap_or c.origins [];
      hosts = unwrap_or c.hosts [];
      ttl_absent = c.ttl_absent;
      ttl_shared = c.ttl_shared;
      keeps = c.keeps;
      guard = c.guard;
    }) };
}

/// Why numbers are no configuration. The first that holds, in this order, is the answer.
#[derive(Clone, Copy, Debug, PartialEq, Eq)]
pub enum ConfigRefusal {
    /// The logarithm of the number of the filter's bits is not 10 to 22.
    BadBits { found: u8 },
    /// The number of hashes is not 1 to 16.
    BadHashes { found: u8 },
    /// The least lifetime is 0 or above the greatest, or the greatest is above 31,536,000 seconds.
    BadTtl { low: u32, high: u32 },
    /// The number of active keys is above 1,000,000.
    BadActive { found: u32 },
    /// The capacity is not 65,792 to 134,217,728 bytes.
    BadCapacity { found: u64 },
    /// The lifetime of absent records, or that for shared caches, is above 31,536,000 seconds.
    BadTtls { absent: u32, shared: u32 },
}

impl fmt::Display for ConfigRefusal {
    ghost use Rattle.std.specs.Prelude.{Some};
    ghost use Rattle.hub_core.specs.ConfigRefusal.{sentence};

    ghost output = { λ e. Some (sentence e) };

    fn fmt<W: fmt::Write>(&self, f: &mut fmt::Formatter<W>) -> fmt::Result {
        match self {
            ConfigRefusal::BadBits { found } => {
                write!(f, "the filter has 2^10 to 2^22 bits, not 2^{found}")
            }
            ConfigRefusal::BadHashes { found } => {
                write!(f, "the filter has 1 to 16 hashes, not {found}")
            }
            ConfigRefusal::BadTtl { low, high } => write!(
                f,
                "lifetimes are 1 to 31536000 seconds, the least first, not {low} and {high}"
            ),
            ConfigRefusal::BadActive { found } => {
                write!(f, "at most 1000000 keys are active, not {found}")
            }
            ConfigRefusal::BadCapacity { found } => {
                write!(f, "the capacity is 65792 to 134217728 bytes, not {found}")
            }
            ConfigRefusal::BadTtls { absent, shared } => write!(
                f,
                "absent and shared lifetimes are at most 31536000 seconds, not {absent} and {shared}"
            ),
        }
    }
}

impl Error for ConfigRefusal {}

impl Config {
    /// The configuration of these numbers, where each is within its limits.
    pub fn new(
        log2_bits: u8,
        hashes: u8,
        ttl_low: u32,
        ttl_high: u32,
        active: u32,
        capacity: u64,
    ) -> Result<Config, ConfigRefusal>
        ensures { result ≡ configured (record {
          log2_bits = log2_bits;
          hashes = hashes;
          ttl_low = ttl_low;
          ttl_high = ttl_high;
          active = active;
          capacity = capacity;
          origins = [];
          hosts = [];
          ttl_absent = 0;
          ttl_shared = 0;
          keeps = false;
          guard = 0;
        }) }
    {
        if log2_bits < LEAST_LOG2_BITS || log2_bits > MOST_LOG2_BITS {
            return Err(ConfigRefusal::BadBits { found: log2_bits });
        }
        if hashes < FEWEST_HASHES || hashes > MOST_HASHES {
            return Err(ConfigRefusal::BadHashes { found: hashes });
        }
        if ttl_low < LEAST_TTL || ttl_low > ttl_high || ttl_high > MOST_TTL {
            return Err(ConfigRefusal::BadTtl {
                low: ttl_low,
                high: ttl_high,
            });
        }
        if active > MOST_ACTIVE {
            return Err(ConfigRefusal::BadActive { found: active });
        }
        if capacity < LEAST_CAPACITY || capacity > MOST_CAPACITY {
            return Err(ConfigRefusal::BadCapacity { found: capacity });
        }
        Ok(Config {
            log2_bits,
            hashes,
            ttl_low,
            ttl_high,
            active,
            capacity,
            origins: None,
            hosts: None,
            ttl_absent: 0,
            ttl_shared: 0,
            keeps: false,
            guard: 0,
        })
    }

    /// The same configuration with these origins of web pages that may read replies, with a space
    /// between two.
    pub fn with_origins(self, origins: SharedText) -> Config
        ensures { result ≡ record self { origins = origins } }
    {
        Config {
            origins: Some(origins),
            ..self
        }
    }

    /// The same configuration with these names of hosts whose requests are served, with a space between
    /// two.
    pub fn with_hosts(self, hosts: SharedText) -> Config
        ensures { result ≡ record self { hosts = hosts } }
    {
        Config {
            hosts: Some(hosts),
            ..self
        }
    }

    /// The same configuration with these lifetimes of absent records and for shared caches, of which 0 says
    /// nothing.
    pub fn with_ttls(self, absent: u32, shared: u32) -> Result<Config, ConfigRefusal>
        ensures { result ≡ with_ttls self absent shared }
    {
        if absent > MOST_TTL || shared > MOST_TTL {
            return Err(ConfigRefusal::BadTtls { absent, shared });
        }
        Ok(Config {
            ttl_absent: absent,
            ttl_shared: shared,
            ..self
        })
    }

    /// The same configuration, of a store whose commits are kept on a disk. The guard is the second from
    /// which on no copy is unexpired that was issued before the store was opened, or 0 where there was none.
    pub fn kept(self, guard: u64) -> Config
        ensures { result ≡ record self { keeps = true; guard = guard } }
    {
        Config {
            keeps: true,
            guard,
            ..self
        }
    }

    /// The origins of web pages that may read replies, with a space between two.
    pub fn origins(&self) -> &[u8]
        ensures { result.now ≡ self.now.origins }
    {
        match &self.origins {
            None => b"",
            Some(origins) => origins.as_slice(),
        }
    }

    /// The hosts whose requests are served, with a space between two. It is empty where all are.
    pub fn hosts(&self) -> &[u8]
        ensures { result.now ≡ self.now.hosts }
    {
        match &self.hosts {
            None => b"",
            Some(hosts) => hosts.as_slice(),
        }
    }

    /// The logarithm of the number of the page's bits.
    pub fn log2_bits(&self) -> u8
        ensures same { result ≡ self.now.log2_bits }
        ensures within { IsWithinLimits self.now }
    {
        self.log2_bits
    }

    /// The number of positions of a key in the page.
    pub fn hashes(&self) -> u8
        ensures { result ≡ self.now.hashes }
    {
        self.hashes
    }

    /// The least lifetime, in seconds.
    pub fn ttl_low(&self) -> u32
        ensures { result ≡ self.now.ttl_low }
    {
        self.ttl_low
    }

    /// The greatest lifetime, in seconds.
    pub fn ttl_high(&self) -> u32
        ensures { result ≡ self.now.ttl_high }
    {
        self.ttl_high
    }

    /// The greatest number of keys that may be active at once.
    pub fn active(&self) -> u32
        ensures same { result ≡ self.now.active }
        ensures within { IsWithinLimits self.now }
    {
        self.active
    }

    /// The greatest lifetime of a reply that tells of no record, in seconds, or 0 where it is not bounded.
    pub fn ttl_absent(&self) -> u32
        ensures { result ≡ self.now.ttl_absent }
    {
        self.ttl_absent
    }

    /// The second below which each page has every bit set, or 0 where no page needs that.
    pub fn guard(&self) -> u64
        ensures { result ≡ self.now.guard }
    {
        self.guard
    }

    /// For how many seconds shared caches may keep a reply of this lifetime, or 0 where nothing is said.
    pub fn shared_of(&self, ttl: u32) -> u32
        ensures { result ≡ shared_of self.now ttl }
    {
        if ttl == 0 { 0 } else { self.ttl_shared }
    }

    /// For how many seconds some cache may keep a reply of this lifetime.
    pub fn kept_for(&self, ttl: u32) -> u32
        ensures { result ≡ kept_for self.now ttl }
    {
        ttl.max(self.shared_of(ttl))
    }

    /// The greatest number of bytes that the changes may take.
    pub fn capacity(&self) -> u64
        ensures same { result ≡ self.now.capacity }
        ensures within { IsWithinLimits self.now }
    {
        self.capacity
    }
}

impl Default for Config {
    ghost use Rattle.std.specs.Prelude.{◌≡◌};
    ghost use Rattle.hub_model.specs.Setting.{default_setting};

    ghost is_default = { λ c. c ≡ default_setting };

    fn default() -> Config {
        Config {
            log2_bits: 17,
            hashes: 6,
            ttl_low: 1,
            ttl_high: 3_600,
            active: 10_000,
            capacity: 134_217_728,
            origins: None,
            hosts: None,
            ttl_absent: 0,
            ttl_shared: 0,
            keeps: false,
            guard: 0,
        }
    }
}
