//! The steps of a run, drawn from a number.
ghost use Rattle.std.specs.Prelude.{◌≡◌, ◌≤◌};
ghost use Rattle.crash_core.specs.Steps.{crash_from, next_step, put_from, step_from};

use world_core::Generator;

/// The number of products.
const PRODUCTS: u32 = 100;

/// The number of prices.
const PRICES: u32 = 1_000;

/// How many calls of the disk a put makes.
const CALLS: u32 = 4;

/// The greatest number of seconds by which the clock advances in one step.
const MOST_SECONDS: u32 = 30;

/// One step of a run.
#[derive(Clone, Copy, Debug, PartialEq, Eq)]
pub enum CrashStep {
    /// A step without a crash.
    Quiet(QuietStep),
    /// A put is stopped, the machine crashes, and the store is opened again.
    Crash(Stopped),
}

/// One step without a crash.
#[derive(Clone, Copy, Debug, PartialEq, Eq)]
pub enum QuietStep {
    /// The document of a product is put, with this price.
    Put { product: u32, price: u32 },
    /// The record of a product is read.
    Read { product: u32 },
    /// The page is fetched.
    Fetch,
    /// The clock advances.
    Advance { seconds: u32 },
    /// All commits are matched.
    Match,
}

/// A put that is stopped.
#[derive(Clone, Copy, Debug, PartialEq, Eq)]
pub struct Stopped {
    pub product: u32,
    pub price: u32,
    /// After how many calls of the disk.
    pub calls: u32,
}

/// Draws the next step.
pub(crate) fn next_step(generator: &mut Generator) -> CrashStep
    ensures { (result, generator.new.number) ≡ next_step generator.old.number }
{
    let kind = generator.draw(100);
    step_of(generator, kind)
}

/// The step of a draw below 100.
fn step_of(generator: &mut Generator, kind: u32) -> CrashStep
    ensures { (result, generator.new.number) ≡ step_from kind generator.old.number }
{
    match kind {
        0..=49 => put(generator),
        50..=69 => CrashStep::Quiet(QuietStep::Read {
            product: generator.draw(PRODUCTS),
        }),
        70..=79 => CrashStep::Quiet(QuietStep::Fetch),
        80..=89 => CrashStep::Quiet(QuietStep::Advance {
            seconds: 1 + generator.draw(MOST_SECONDS),
        }),
        90..=97 => CrashStep::Quiet(QuietStep::Match),
        _ => crash(generator),
    }
}

/// A put of a product with a price.
fn put(generator: &mut Generator) -> CrashStep
    ensures { (result, generator.new.number) ≡ put_from generator.old.number }
{
    let product = generator.draw(PRODUCTS);
    let price = generator.draw(PRICES);
    CrashStep::Quiet(QuietStep::Put { product, price })
}

/// A put that is stopped.
fn crash(generator: &mut Generator) -> CrashStep
    ensures { (result, generator.new.number) ≡ crash_from generator.old.number }
{
    let product = generator.draw(PRODUCTS);
    let price = generator.draw(PRICES);
    let calls = generator.draw(CALLS);
    CrashStep::Crash(Stopped {
        product,
        price,
        calls,
    })
}
