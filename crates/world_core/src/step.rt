//! The steps of a run, drawn from a number.
ghost use Rattle.std.specs.Prelude.{◌≡◌, ◌<◌, length, IfOk, All};
ghost use Rattle.world_core.specs.Draws.{drawn, next_number};
ghost use Rattle.world_core.specs.Steps.{delete_from, key_from, next_step, put_from, query_from, read_from, record_from, step_from, steps_of, IsInRange};

use crate::generator::Generator;
use crate::product::{PRODUCTS, collection, product_id};
use crate::queries::query_key;
use q_base::Memory;
use query_normal::Key;
use std::alloc::Global;

/// One step of a run. A client is 0 to 2, a product below 2,000, and a cache 0 or 1.
#[derive(Drop)]
pub enum Step {
    /// A client reads a key.
    Read {
        client: usize,
        key: Key,
    },
    /// A client puts the document of a product, with this price and stock.
    Put {
        client: usize,
        product: u32,
        price: u32,
        stock: u32,
    },
    /// A client deletes a product.
    Delete {
        client: usize,
        product: u32,
    },
    /// A client fetches a page.
    Refresh {
        client: usize,
    },
    /// The store matches all commits.
    Match,
    /// The clock advances.
    Advance {
        seconds: u32,
    },
    /// Cache 0 asks for the purges that it does not know, and drops those keys.
    Pull,
    /// A cache drops its least recently used reply.
    Evict {
        cache: usize,
    },
}

/// The steps of a seed.
pub fn steps_of(alloc: Global, seed: u64, count: u32) -> Result<Vec<Step>, Memory>
    ensures steps { IfOk result (λ steps. steps.items ≡ steps_of count seed) }
    ensures count { IfOk result (λ steps. length steps.items ≡ count) }
    ensures range { IfOk result (λ steps. All IsInRange steps.items) }
{
    let mut generator = Generator { number: seed };
    let mut steps = Vec::new(alloc);
    for _turn in 0..count {
        let step = generator.step(alloc)?;
        steps.push(step)?;
    }
    Ok(steps)
}

impl Generator {
    /// The next step.
    fn step(&mut self, alloc: Global) -> Result<Step, Memory>
        ensures step { IfOk result (λ step. (step, self.new.number) ≡ next_step self.old.number) }
        ensures range { IfOk result IsInRange }
    {
        let kind = self.draw(100);
        self.step_of(alloc, kind)
    }

    /// The step of a draw below 100.
    fn step_of(&mut self, alloc: Global, kind: u32) -> Result<Step, Memory>
        ensures step { IfOk result (λ step. (step, self.new.number) ≡ step_from kind self.old.number) }
        ensures range { IfOk result IsInRange }
    {
        match kind {
            0..=59 => self.read(alloc),
            60..=69 => Ok(self.put()),
            70..=71 => Ok(self.delete()),
            72..=79 => Ok(Step::Refresh {
                client: self.client(),
            }),
            80..=89 => Ok(Step::Match),
            90..=97 => Ok(Step::Advance {
                seconds: 1 + self.draw(30),
            }),
            98 => Ok(Step::Pull),
            _ => Ok(Step::Evict {
                cache: self.draw(2) as usize,
            }),
        }
    }

    /// A client.
    fn client(&mut self) -> usize
        ensures number { self.new.number ≡ next_number self.old.number }
        ensures drawn { result ≡ drawn 3 self.new.number }
        ensures below { result < 3 }
    {
        self.draw(3) as usize
    }

    /// A read of a record or of a query.
    fn read(&mut self, alloc: Global) -> Result<Step, Memory>
        ensures step { IfOk result (λ step. (step, self.new.number) ≡ read_from self.old.number) }
        ensures range { IfOk result IsInRange }
    {
        let client = self.client();
        Ok(Step::Read {
            client,
            key: self.key(alloc)?,
        })
    }

    /// The key of a record or of a query.
    fn key(&mut self, alloc: Global) -> Result<Key, Memory>
        ensures { IfOk result (λ key. (key, self.new.number) ≡ key_from self.old.number) }
    {
        if self.draw(10) < 4 {
            self.record_key(alloc)
        } else {
            self.query_key(alloc)
        }
    }

    /// The key of the record of a product.
    fn record_key(&mut self, alloc: Global) -> Result<Key, Memory>
        ensures { IfOk result (λ key. (key, self.new.number) ≡ record_from self.old.number) }
    {
        let product = self.draw(PRODUCTS);
        Key::record(alloc, collection(alloc)?, product_id(alloc, product)?)
    }

    /// The key of a query.
    fn query_key(&mut self, alloc: Global) -> Result<Key, Memory>
        ensures { IfOk result (λ key. (key, self.new.number) ≡ query_from self.old.number) }
    {
        let query = self.draw(40);
        let is_ids = self.draw(2) > 0;
        query_key(alloc, query, is_ids)
    }

    /// A put of a product.
    fn put(&mut self) -> Step
        ensures step { (result, self.new.number) ≡ put_from self.old.number }
        ensures range { IsInRange result }
    {
        let client = self.client();
        let product = self.draw(PRODUCTS);
        let price = self.draw(1_000);
        let stock = self.draw(50);
        Step::Put {
            client,
            product,
            price,
            stock,
        }
    }

    /// A delete of a product.
    fn delete(&mut self) -> Step
        ensures step { (result, self.new.number) ≡ delete_from self.old.number }
        ensures range { IsInRange result }
    {
        let client = self.client();
        let product = self.draw(PRODUCTS);
        Step::Delete { client, product }
    }
}
