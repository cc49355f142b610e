//! The world: a store, two caches and three clients.
ghost use Rattle.std.specs.Prelude.{◌≡◌, ◌<◌, ◌^◌, ◌++◌, [], ◌∷◌, All, IfOk, OnOk, length, nat_lt, option_to_list};
ghost use Rattle.std.specs.Mem.{manually_drop_value};
ghost use Rattle.client_session.specs.Read.{Holds, StaysHeld};
ghost use Rattle.hub_model.specs.Record.{record_of};
ghost use Rattle.world_core.specs.declared.step.Step.TheVariants.{Read as a_read};
ghost use Rattle.world_core.specs.Link.{evicted, seen_as};
ghost use Rattle.world_core.specs.Products.{products};
ghost use Rattle.world_core.specs.Steps.{IsInRange};
ghost use Rattle.world_core.specs.Store.{advanced, after_match, commits_in, state_in};
ghost use Rattle.world_core.specs.World.{with_store, IsNew, IsClientDelete, IsClientPut, IsClientRead, IsClientRefresh, IsClientStep, IsDocPut, IsFilled, IsFirst, IsFirstStore, IsFresh, IsPutFirst, IsRecordDelete, IsRun, IsStep, IsStepInto, IsWorldPulled};

use crate::line::ReadLine;
use crate::link::{WorldLink, new_cache};
use crate::product::{PRODUCTS, collection, product, product_id};
use crate::step::Step;
use crate::store::Store;
use crate::watch::{Silent, Watch};
use cache_model::Manner;
use client_core::Level;
use client_session::{ReadOut, Session};
use hub_desk::{Change, Condition, Config};
use hub_model::laws::{front_is_within, more_entries, no_entry_is_legal};
use q_base::{Commit, Memory, Moment, Name};
use q_doc::Doc;
use query_normal::Key;
use std::alloc::{AllocError, Global};
use std::marker::Model;
use std::mem::ManuallyDrop;

/// The moment at which a world begins, in seconds.
const BEGINNING: u64 = 1_000_000;

/// A store with 2,000 products, two caches before it, and three clients. Clients 0 and 1 read through
/// cache 0, and client 2 through cache 1. Clients 0 and 2 have the level Session, and client 1 Causal.
#[derive(Drop)]
pub struct World {
    alloc: Global,
    link: WorldLink,
    first: Session,
    second: Session,
    third: Session,
}

impl Model for World {
    ghost use Rattle.std.specs.Coded.{codes};
    ghost use Rattle.q_doc.specs.Code.{tree_code};
    ghost use Rattle.query_core.specs.Code.{filter_code};
    ghost use Rattle.world_core.specs.World.{WorldView, IsWorld};

    ghost Value = { WorldView };

    ghost coded = { Prim.hlevel (codes, tree_code, filter_code) };

    ghost view = { λ w. record {
      link = w.link;
      first = w.first;
      second = w.second;
      third = w.third;
    } };

    ghost invariant = { λ w. IsWorld (record {
      link = w.link;
      first = w.first;
      second = w.second;
      third = w.third;
    }) };
}

impl World {
    /// A world before its first step: all products are there and matched, the caches are empty, and no
    /// client has seen anything. Where memory runs out the process ends, so what was made by then is not
    /// given back one by one.
    pub fn new(alloc: Global) -> Result<World, Memory>
        ensures { IfOk result IsNew }
    {
        let first = new_session(alloc, Level::Session)?;
        let second = new_session(alloc, Level::Causal)?;
        let third = new_session(alloc, Level::Session)?;
        let through = new_cache(alloc, Manner::Honest)?;
        let behind = new_cache(alloc, Manner::Honest)?;
        let store = first_store(alloc)?;
        store.legal();
        let link = WorldLink::new(alloc, store, through, behind);
        let first = ManuallyDrop::into_inner(first);
        let second = ManuallyDrop::into_inner(second);
        let third = ManuallyDrop::into_inner(third);
        Ok(World {
            alloc,
            link,
            first,
            second,
            third,
        })
    }

    /// The allocator.
    fn alloc(&self) -> Global {
        self.alloc
    }

    /// Makes the steps in turn, and gives a line for each read. They are numbered from 1.
    pub fn run(&mut self, steps: &[Step]) -> Result<Vec<ReadLine>, Memory>
        requires range { All IsInRange steps.now }
        requires few { length steps.now < 2 ^ 32 }
        ensures { IfOk result (λ lines. IsRun 1 steps.now self.old self.new lines.items) }
    {
        let mut silent = Silent;
        self.run_watched(steps, &mut silent)
    }

    /// The same, with a word to someone who watches after each 1,024 steps.
    pub fn run_watched<W: Watch>(
        &mut self,
        steps: &[Step],
        watch: &mut W,
    ) -> Result<Vec<ReadLine>, Memory>
        requires range { All IsInRange steps.now }
        requires few { length steps.now < 2 ^ 32 }
        ensures { IfOk result (λ lines. IsRun 1 steps.now self.old self.new lines.items) }
    {
        let mut lines = Vec::new(self.alloc());
        for index in 0..steps.len() {
            let number = index as u32 + 1;
            self.step_into(number, &steps[index], &mut lines)?;
            tell(watch, number);
        }
        Ok(lines)
    }

    /// Makes a step, and appends the line of a read.
    fn step_into(
        &mut self,
        number: u32,
        step: &Step,
        lines: &mut Vec<ReadLine>,
    ) -> Result<(), Memory>
        requires { IsInRange step.now }
        ensures { OnOk result (IsStepInto number step.now self.old self.new lines.old.items lines.new.items) }
    {
        let line = self.step(number, step)?;
        append(lines, line)?;
        Ok(())
    }

    /// Makes a step, and gives the line of a read.
    fn step(&mut self, number: u32, step: &Step) -> Result<Option<ReadLine>, Memory>
        requires { IsInRange step.now }
        ensures { IfOk result (λ line. IsStep number step.now self.old self.new (option_to_list line)) }
    {
        match step {
            Step::Read { client, key } => {
                let line = self.read(number, *client, key)?;
                Ok(Some(line))
            }
            Step::Put {
                client,
                product,
                price,
                stock,
            } => {
                self.put(*client, *product, *price, *stock)?;
                Ok(None)
            }
            Step::Delete { client, product } => {
                self.delete(*client, *product)?;
                Ok(None)
            }
            Step::Refresh { client } => {
                self.refresh(*client)?;
                Ok(None)
            }
            Step::Match => {
                self.match_all()?;
                Ok(None)
            }
            Step::Advance { seconds } => {
                self.advance(*seconds);
                Ok(None)
            }
            Step::Pull => {
                self.pull()?;
                Ok(None)
            }
            Step::Evict { cache } => {
                self.evict(*cache);
                Ok(None)
            }
        }
    }

    /// A client reads a key. Gives the line of what it read.
    fn read(&mut self, number: u32, client: usize, key: &Key) -> Result<ReadLine, Memory>
        requires { client < 3 }
        ensures { IfOk result (λ line. IsStep number (a_read client key.now) self.old self.new (line ∷ [])) }
    {
        let out = self.read_out(client, key)?;
        ReadLine::of(self.alloc(), number, client, key, &out)
    }

    /// A client reads a key.
    fn read_out(&mut self, client: usize, key: &Key) -> Result<ReadOut, Memory>
        requires { client < 3 }
        ensures { IfOk result (λ out. IsClientStep client (IsClientRead key.now out) self.old self.new) }
    {
        self.link.turn_to(client);
        match client {
            0 => read(&mut self.first, &mut self.link, key),
            1 => read(&mut self.second, &mut self.link, key),
            _ => read(&mut self.third, &mut self.link, key),
        }
    }

    /// A client puts the document of a product.
    fn put(&mut self, client: usize, index: u32, price: u32, stock: u32) -> Result<(), Memory>
        requires { client < 3 }
        ensures { OnOk result (IsClientStep client (IsClientPut index price stock) self.old self.new) }
    {
        let doc = product(self.alloc(), index, price, stock)?;
        let collection = collection(self.alloc())?;
        let id = product_id(self.alloc(), index)?;
        self.link.turn_to(client);
        match client {
            0 => put(&mut self.first, &mut self.link, &collection, &id, &doc),
            1 => put(&mut self.second, &mut self.link, &collection, &id, &doc),
            _ => put(&mut self.third, &mut self.link, &collection, &id, &doc),
        }
    }

    /// A client deletes a product.
    fn delete(&mut self, client: usize, index: u32) -> Result<(), Memory>
        requires { client < 3 }
        ensures { OnOk result (IsClientStep client (IsClientDelete index) self.old self.new) }
    {
        let collection = collection(self.alloc())?;
        let id = product_id(self.alloc(), index)?;
        self.link.turn_to(client);
        match client {
            0 => delete(&mut self.first, &mut self.link, &collection, &id),
            1 => delete(&mut self.second, &mut self.link, &collection, &id),
            _ => delete(&mut self.third, &mut self.link, &collection, &id),
        }
    }

    /// A client fetches a page.
    fn refresh(&mut self, client: usize) -> Result<(), Memory>
        requires { client < 3 }
        ensures { OnOk result (IsClientStep client IsClientRefresh self.old self.new) }
    {
        self.link.turn_to(client);
        match client {
            0 => refresh(&mut self.first, &mut self.link),
            1 => refresh(&mut self.second, &mut self.link),
            _ => refresh(&mut self.third, &mut self.link),
        }
    }

    /// The store matches all commits.
    fn match_all(&mut self) -> Result<(), Memory>
        ensures { OnOk result (self.new ≡ with_store self.old (after_match self.old.link.store)) }
    {
        self.link.match_all()
    }

    /// The clock advances.
    fn advance(&mut self, seconds: u32)
        ensures { self.new ≡ with_store self.old (advanced self.old.link.store seconds) }
    {
        self.link.advance(seconds);
    }

    /// Cache 0 asks for the purges that it does not know.
    fn pull(&mut self) -> Result<(), Memory>
        ensures { OnOk result (IsWorldPulled self.old self.new) }
    {
        self.link.pull()
    }

    /// A cache drops its least recently used reply.
    fn evict(&mut self, cache: usize)
        ensures { self.new ≡ record self.old { link = evicted (nat_lt 0 cache) self.old.link } }
    {
        self.link.evict(cache > 0);
    }

    /// The number of commits.
    pub fn commits(&self) -> Commit
        ensures { result ≡ commits_in self.now.link.store }
    {
        self.link.commits()
    }

    /// The number of keys in the record, at the clock of the history, which an advance does not raise.
    pub fn record_count(&self) -> u32
        ensures { result ≡ length (record_of (state_in self.now.link.store)) }
    {
        self.link.record_count()
    }
}

/// A session reads a key.
fn read(session: &mut Session, link: &mut WorldLink, key: &Key) -> Result<ReadOut, Memory>
    ensures read { Holds (seen_as link.old) session.old.page → IfOk result (λ out. IsClientRead key.now out session.old session.new link.old link.new) }
    ensures stays { StaysHeld (seen_as link.old) (seen_as link.new) }
    ensures holds { Holds (seen_as link.old) session.old.page → Holds (seen_as link.new) session.new.page }
{
    match session.read(link, key) {
        Ok(out) => Ok(out),
        Err(_) => Err(Memory),
    }
}

/// A session puts a document.
fn put(
    session: &mut Session,
    link: &mut WorldLink,
    collection: &Name,
    id: &Name,
    doc: &Doc,
) -> Result<(), Memory>
    ensures put { OnOk result (IsDocPut collection.now id.now doc.now session.old session.new link.old link.new) }
    ensures stays { StaysHeld (seen_as link.old) (seen_as link.new) }
    ensures holds { Holds (seen_as link.old) session.old.page → Holds (seen_as link.new) session.new.page }
{
    match session.put(link, collection, id, doc, &Condition::Always) {
        Ok(_) => Ok(()),
        Err(_) => Err(Memory),
    }
}

/// A session deletes a record.
fn delete(
    session: &mut Session,
    link: &mut WorldLink,
    collection: &Name,
    id: &Name,
) -> Result<(), Memory>
    ensures delete { OnOk result (IsRecordDelete collection.now id.now session.old session.new link.old link.new) }
    ensures stays { StaysHeld (seen_as link.old) (seen_as link.new) }
    ensures holds { Holds (seen_as link.old) session.old.page → Holds (seen_as link.new) session.new.page }
{
    match session.delete(link, collection, id, &Condition::Always) {
        Ok(_) => Ok(()),
        Err(_) => Err(Memory),
    }
}

/// A session fetches a page.
fn refresh(session: &mut Session, link: &mut WorldLink) -> Result<(), Memory>
    ensures refresh { OnOk result (IsClientRefresh session.old session.new link.old link.new) }
    ensures stays { StaysHeld (seen_as link.old) (seen_as link.new) }
    ensures holds { Holds (seen_as link.old) session.old.page → Holds (seen_as link.new) session.new.page }
{
    match session.refresh(link) {
        Ok(_) => Ok(()),
        Err(_) => Err(Memory),
    }
}

/// Appends the line of a read, if it was one.
fn append(lines: &mut Vec<ReadLine>, line: Option<ReadLine>) -> Result<(), AllocError>
    ensures { OnOk result (lines.new.items ≡ lines.old.items ++ option_to_list line) }
{
    if let Some(line) = line {
        lines.push(line)?;
    }
    Ok(())
}

/// Tells of the number of steps that were made, after each 1,024.
fn tell<W: Watch>(watch: &mut W, done: u32) {
    if done % 1_024 == 0 {
        watch.told(done);
    }
}

/// A session that has seen nothing.
fn new_session(alloc: Global, level: Level) -> Result<ManuallyDrop<Session>, Memory>
    ensures { IfOk result (λ session. IsFresh level (manually_drop_value session)) }
{
    let session = Session::new(alloc, level)?;
    Ok(ManuallyDrop::new(session))
}

/// The store at the beginning.
fn first_store(alloc: Global) -> Result<Store, Memory>
    ensures { IfOk result IsFirstStore }
{
    no_entry_is_legal();
    let mut store = Store::new(alloc, Config::default(), Moment::of(BEGINNING))?;
    match fill(alloc, &mut store) {
        Ok(()) => Ok(store),
        Err(error) => {
            // The process ends next, which returns the store's memory at once.
            let _left = ManuallyDrop::new(store);
            Err(error)
        }
    }
}

/// Puts all products into a store of no entry, and matches them.
fn fill(alloc: Global, store: &mut Store) -> Result<(), Memory>
    ensures { IsFilled 0 store.old → OnOk result (IsFirstStore store.new) }
{
    more_entries();
    front_is_within();
    put_all(alloc, store)?;
    store.legal();
    store.match_all()
}

/// Puts all products as they are at the beginning.
fn put_all(alloc: Global, store: &mut Store) -> Result<(), Memory>
    ensures { IsFilled 0 store.old → OnOk result (IsFilled products store.new) }
{
    for index in 0..PRODUCTS {
        put_first(alloc, store, index)?;
    }
    Ok(())
}

/// Puts a product as it is at the beginning.
fn put_first(alloc: Global, store: &mut Store, index: u32) -> Result<(), Memory>
    requires { index < 2000 }
    ensures { OnOk result (IsPutFirst index store.old store.new) }
{
    more_entries();
    let change = first_change(alloc, index)?;
    let reply = store.write(change, Condition::Always)?;
    created(reply.status)
}

/// Whether a status says that a record was made.
fn created(status: u16) -> Result<(), Memory>
    ensures { OnOk result (status ≡ 201) }
{
    if status == 201 { Ok(()) } else { Err(Memory) }
}

/// The change that puts a product as it is at the beginning.
fn first_change(alloc: Global, index: u32) -> Result<Change, Memory>
    requires { index < 2000 }
    ensures { IfOk result (IsFirst index) }
{
    let doc = product(alloc, index, 37 * index % 1_000, index % 50)?;
    Ok(Change {
        collection: collection(alloc)?,
        id: product_id(alloc, index)?,
        document: Some(doc),
    })
}
