//! The reading of an order, token by token.
ghost use Rattle.std.specs.Prelude.{◌≡◌, ◌+◌, ◌-◌, ◌<◌, ◌≤◌, length, [], ◌∷◌, ◌++◌, IfOk, OnOk, Ok};
ghost use Rattle.query_lang.specs.Refusals.{Takes, Gives};
ghost use Rattle.query_lang.specs.Seen.{seen_kind};
ghost use Rattle.query_lang.specs.FilterReading.{segment_of};
ghost use Rattle.query_lang.specs.OrderReading.{seen, start, on_item, on_segment, on_path, step, with_path, is_allowed_after, ended, order_rules, without_pending};

use crate::limits::MAX_PATHS;
use crate::parts::segment_text;
use crate::refusal::{Cause, QueryRefusal};
use crate::segments::Segments;
use crate::token::{Beginning, Reserved, Sign, TokenKind};
use q_doc::{MAX_SEGMENTS, Path};
use query_core::Order;
use std::alloc::Global;
use std::mem;

/// What was read of a path, and so what is allowed next.
#[derive(Drop)]
pub(crate) enum OrderPending {
    /// A path or the end may come.
    Start,
    /// A path must come, after a comma.
    Item,
    /// A segment must come, after a dot.
    Segment { path: Segments },
    /// A segment was read.
    Path { path: Segments },
    /// A direction was read: a comma or the end may come.
    Joint,
}

/// What was read of an order.
#[derive(Drop)]
pub(crate) struct OrderReader {
    alloc: Global,
    pub(crate) pending: OrderPending,
    pub(crate) paths: Vec<(Path, bool)>,
}

impl OrderReader {
    /// A reader before the first token.
    pub(crate) fn new(alloc: Global) -> OrderReader
        ensures { seen result ≡ start }
    {
        OrderReader {
            alloc,
            pending: OrderPending::Start,
            paths: Vec::new(alloc),
        }
    }

    /// Takes the next token. After an `Err` the reader is not used again.
    #[tactic(auto, unfolding(crate::specs::OrderReading::on_token))]
    pub(crate) fn step(&mut self, token: TokenKind<'_>) -> Result<(), Cause>
        ensures { Takes (λ _. seen self.new) result (step (seen self.old) (seen_kind token.entry)) }
    {
        match mem::replace(&mut self.pending, OrderPending::Joint) {
            OrderPending::Start => self.on_item(token),
            OrderPending::Item => self.on_item(token),
            OrderPending::Segment { path } => self.on_segment(path, token),
            OrderPending::Path { path } => self.on_path(path, token),
            OrderPending::Joint => {
                let TokenKind::Sign(Sign::Comma) = token else {
                    return Err(Cause::Syntax);
                };
                self.pending = OrderPending::Item;
                Ok(())
            }
        }
    }

    /// Where a path must come.
    #[tactic(auto, unfolding(crate::specs::OrderReading::on_item))]
    fn on_item(&mut self, token: TokenKind<'_>) -> Result<(), Cause>
        ensures { Takes (λ _. seen self.new) result (on_item (seen self.old) (segment_of (seen_kind token.entry))) }
    {
        let Some(text) = segment_text(self.alloc, token)? else {
            return Err(Cause::Syntax);
        };
        if self.paths.len() >= MAX_PATHS {
            return Err(Cause::TooManyPaths);
        }
        let path = Segments::one(self.alloc, text)?;
        self.pending = OrderPending::Path { path };
        Ok(())
    }

    /// Where a segment must come after a dot.
    #[tactic(auto, unfolding(crate::specs::OrderReading::on_segment))]
    fn on_segment(&mut self, path: Segments, token: TokenKind<'_>) -> Result<(), Cause>
        ensures { Takes (λ _. seen self.new) result (on_segment (seen self.old) path (segment_of (seen_kind token.entry))) }
    {
        if path.len() >= MAX_SEGMENTS {
            return Err(Cause::Syntax);
        }
        let Some(text) = segment_text(self.alloc, token)? else {
            return Err(Cause::Syntax);
        };
        let path = path.with(text)?;
        self.pending = OrderPending::Path { path };
        Ok(())
    }

    /// After a segment.
    #[tactic(auto, unfolding(crate::specs::OrderReading::on_path))]
    fn on_path(&mut self, path: Segments, token: TokenKind<'_>) -> Result<(), Cause>
        ensures { Takes (λ _. seen self.new) result (on_path (seen self.old) path (seen_kind token.entry)) }
    {
        match token {
            TokenKind::Sign(Sign::Dot) => {
                self.pending = OrderPending::Segment { path };
                Ok(())
            }
            TokenKind::Sign(Sign::Comma) => self.add(path, false, OrderPending::Item),
            TokenKind::Word(Reserved::Asc) => self.add(path, false, OrderPending::Joint),
            TokenKind::Word(Reserved::Desc) => self.add(path, true, OrderPending::Joint),
            _ => Err(Cause::Syntax),
        }
    }

    /// A path is whole, after which this is allowed.
    fn add(&mut self, path: Segments, descending: bool, pending: OrderPending) -> Result<(), Cause>
        ensures { Takes (λ _. seen self.new) result (Ok (with_path path descending pending (seen self.old))) }
    {
        self.paths.push((path.into_path(), descending))?;
        self.pending = pending;
        Ok(())
    }

    /// Whether a token of this kind is allowed next.
    pub(crate) fn is_allowed(&self, what: Beginning) -> bool
        ensures { result ≡ is_allowed_after (length (seen self.now).paths) (seen self.now).pending what }
    {
        match &self.pending {
            OrderPending::Start => what.is_text() && self.paths.len() < MAX_PATHS,
            OrderPending::Item => what.is_text() && self.paths.len() < MAX_PATHS,
            OrderPending::Segment { path } => what.is_text() && path.len() < MAX_SEGMENTS,
            OrderPending::Path { .. } => false,
            OrderPending::Joint => false,
        }
    }

    /// The order that was read, where a text of this length ends here.
    #[tactic(auto, unfolding(crate::specs::OrderReading::ended))]
    pub(crate) fn finish(self, total: usize) -> Result<Order, QueryRefusal>
        ensures { Gives (λ order. order) result (order_rules.ends total (seen self)) }
    {
        let mut paths = self.paths;
        match self.pending {
            OrderPending::Start => {}
            OrderPending::Joint => {}
            OrderPending::Path { path } => {
                if paths.push((path.into_path(), false)).is_err() {
                    return Err(QueryRefusal::Memory);
                }
            }
            _ => return Err(Cause::Syntax.at(b'o', total)),
        }
        Ok(Order::of(paths))
    }
}
