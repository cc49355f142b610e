//! The reading of a filter, token by token.
//!
//! A reader knows what is allowed next, and what is pending: the operands of the `and` and the `or` of
//! each open parenthesis. It takes each token in constant time but for the growth of its lists, and
//! its own stack does not grow with the text.
ghost use Rattle.std.specs.Prelude.{◌≡◌, ◌+◌, ◌-◌, ◌<◌, ◌≤◌, length, [], take, drop, IfOk, OnOk, ℕ, true, Ok};
ghost use Rattle.query_lang.specs.Refusals.{Takes, Gives};
ghost use Rattle.query_lang.specs.Seen.{seen_kind};
ghost use Rattle.query_lang.specs.FilterReading.{seen, start, kept, negated_times, joined, joined_height, level_above, put, atom, join_all, segment_of, value_of, segment_at, item_at, opened, on_operand, on_exists, on_path, on_value, on_list, on_first_item, on_after_item, on_joint, closed, step, ended, judged, filter_rules, without_pending, is_allowed_after};
ghost use Rattle.query_core.specs.Filters.{constant, listed};
ghost use Rattle.query_core.specs.Shape.{filter_of};

use crate::limits::{MAX_HEIGHT, MAX_LEAVES, MAX_OPEN};
use crate::operands::{Join, joined, negated};
use crate::parts::{segment_text, value_of};
use crate::refusal::{Cause, QueryRefusal};
use crate::segments::{Segments, Values};
use crate::token::{Beginning, Reserved, Sign, TokenKind};
use q_doc::MAX_SEGMENTS;
use query_core::{Filter, Form, Op};
use std::alloc::Global;
use std::mem;

/// For what a path is read.
#[derive(Clone, Copy, Debug, PartialEq, Eq)]
pub(crate) enum PathUse {
    /// After `exists`.
    Exists,
    /// Before a comparison, `in` or `has`.
    Tested,
}

/// What is asked of the value at a path by the one value that follows.
#[derive(Clone, Copy, Debug, PartialEq, Eq)]
pub(crate) enum ValueTest {
    Compare(Op),
    Has,
}

/// What was read of an atom, and so what is allowed next.
#[derive(Drop)]
pub(crate) enum Pending {
    /// An operand must come.
    Operand,
    /// The first segment of a path must come, after `exists`.
    ExistsSegment,
    /// A segment must come, after a dot.
    Segment { used: PathUse, path: Segments },
    /// A segment was read.
    Path { used: PathUse, path: Segments },
    /// A value must come.
    Value { path: Segments, asked: ValueTest },
    /// `[` must come, after `in`.
    List { path: Segments },
    /// A value or `]` must come, after `[`.
    FirstItem { path: Segments },
    /// A value must come, after a comma.
    Item { path: Segments, values: Values },
    /// `,` or `]` must come, after a value.
    AfterItem { path: Segments, values: Values },
    /// An operand is whole: `and`, `or`, `)` or the end may come.
    Joint,
}

/// What is pending at one level of parentheses. The operands themselves are on the reader's stack.
#[derive(Clone, Copy)]
pub(crate) struct Level {
    /// The number of `not` before the next operand.
    pub(crate) nots: usize,
    /// Where on the stack the operands of the open `or` begin, and their greatest height.
    pub(crate) any_from: usize,
    pub(crate) any_height: usize,
    /// Where on the stack the operands of the open `and` begin, and their greatest height.
    pub(crate) all_from: usize,
    pub(crate) all_height: usize,
}

impl Level {
    /// A level at which nothing is pending, above `from` operands.
    fn above(from: usize) -> Level
        ensures { result ≡ level_above from }
    {
        Level {
            nots: 0,
            any_from: from,
            any_height: 0,
            all_from: from,
            all_height: 0,
        }
    }
}

/// What was read of a filter.
#[derive(Drop)]
pub(crate) struct FilterReader {
    alloc: Global,
    pub(crate) pending: Pending,
    /// The atoms and listed values so far.
    pub(crate) leaves: usize,
    /// The pending operands, those of outer levels first.
    pub(crate) operands: Vec<Filter>,
    /// The innermost level.
    pub(crate) level: Level,
    /// The levels around it, the outermost first.
    pub(crate) outer: Vec<Level>,
}

impl FilterReader {
    /// A reader before the first token.
    pub(crate) fn new(alloc: Global) -> FilterReader
        ensures { seen result ≡ start }
    {
        FilterReader {
            alloc,
            pending: Pending::Operand,
            leaves: 0,
            operands: Vec::new(alloc),
            level: Level::above(0),
            outer: Vec::new(alloc),
        }
    }

    /// Takes the next token. After an `Err` the reader is not used again.
    #[tactic(auto, unfolding(crate::specs::FilterReading::on_token))]
    pub(crate) fn step(&mut self, token: TokenKind<'_>) -> Result<(), Cause>
        ensures { Takes (λ _. seen self.new) result (step (seen self.old) (seen_kind token.entry)) }
    {
        match mem::replace(&mut self.pending, Pending::Operand) {
            Pending::Operand => self.on_operand(token),
            Pending::ExistsSegment => self.on_first_segment(PathUse::Exists, token),
            Pending::Segment { used, path } => self.on_segment(used, path, token),
            Pending::Path { used, path } => match used {
                PathUse::Exists => self.on_exists(path, token),
                PathUse::Tested => self.on_path(path, token),
            },
            Pending::Value { path, asked } => self.on_value(path, asked, token),
            Pending::List { path } => self.on_list(path, token),
            Pending::FirstItem { path } => self.on_first_item(path, token),
            Pending::Item { path, values } => self.on_item(path, values, token),
            Pending::AfterItem { path, values } => self.on_after_item(path, values, token),
            Pending::Joint => self.on_joint(token),
        }
    }

    /// Where an operand must come.
    #[tactic(auto, unfolding(crate::specs::FilterReading::on_operand))]
    fn on_operand(&mut self, token: TokenKind<'_>) -> Result<(), Cause>
        ensures { Takes (λ _. seen self.new) result (on_operand (seen self.old) (seen_kind token.entry)) }
    {
        match token {
            TokenKind::Word(Reserved::Not) => {
                self.level.nots = self.level.nots.saturating_add(1);
                self.pending = Pending::Operand;
                Ok(())
            }
            TokenKind::Word(Reserved::True) => self.atom(Form::Constant(true), 0),
            TokenKind::Word(Reserved::False) => self.atom(Form::Constant(false), 0),
            TokenKind::Word(Reserved::Exists) => {
                self.pending = Pending::ExistsSegment;
                Ok(())
            }
            TokenKind::Sign(Sign::Open) => self.open(),
            _ => self.on_first_segment(PathUse::Tested, token),
        }
    }

    /// Opens a parenthesis.
    #[tactic(auto, unfolding(crate::specs::FilterReading::opened))]
    fn open(&mut self) -> Result<(), Cause>
        ensures { Takes (λ _. seen self.new) result (opened (seen self.old)) }
    {
        if self.outer.len() >= MAX_OPEN {
            return Err(Cause::TooNested);
        }
        self.outer.push(self.level)?;
        self.level = Level::above(self.operands.len());
        self.pending = Pending::Operand;
        Ok(())
    }

    /// An atom with this number of listed values is complete.
    fn atom(&mut self, form: Form, values: usize) -> Result<(), Cause>
        ensures { Takes (λ _. seen self.new) result (Ok (atom (filter_of form) values (seen self.old))) }
    {
        self.leaves = self.leaves.saturating_add(values).saturating_add(1);
        self.put(Filter { form }, 1)
    }

    /// An operand of this height is whole, but for the `not` before it.
    fn put(&mut self, filter: Filter, height: usize) -> Result<(), Cause>
        ensures { Takes (λ _. seen self.new) result (Ok (put filter height (seen self.old))) }
    {
        let nots = self.level.nots;
        let height = height.saturating_add(nots);
        let operand = negated(self.alloc, filter, nots, height)?;
        self.operands.push(operand)?;
        self.level.nots = 0;
        self.level.all_height = self.level.all_height.max(height);
        self.pending = Pending::Joint;
        Ok(())
    }

    /// Where the first segment of a path must come.
    #[tactic(auto, unfolding(crate::specs::FilterReading::segment_at))]
    fn on_first_segment(&mut self, used: PathUse, token: TokenKind<'_>) -> Result<(), Cause>
        ensures { Takes (λ _. seen self.new) result (segment_at (seen self.old) used [] (segment_of (seen_kind token.entry))) }
    {
        let Some(text) = segment_text(self.alloc, token)? else {
            return Err(Cause::Syntax);
        };
        let path = Segments::one(self.alloc, text)?;
        self.pending = Pending::Path { used, path };
        Ok(())
    }

    /// Where a segment must come after a dot.
    #[tactic(auto, unfolding(crate::specs::FilterReading::segment_at))]
    fn on_segment(
        &mut self,
        used: PathUse,
        path: Segments,
        token: TokenKind<'_>,
    ) -> Result<(), Cause>
        ensures { Takes (λ _. seen self.new) result (segment_at (seen self.old) used path (segment_of (seen_kind token.entry))) }
    {
        if path.len() >= MAX_SEGMENTS {
            return Err(Cause::Syntax);
        }
        let Some(text) = segment_text(self.alloc, token)? else {
            return Err(Cause::Syntax);
        };
        let path = path.with(text)?;
        self.pending = Pending::Path { used, path };
        Ok(())
    }

    /// After a segment after `exists`.
    #[tactic(auto, unfolding(crate::specs::FilterReading::on_exists))]
    fn on_exists(&mut self, path: Segments, token: TokenKind<'_>) -> Result<(), Cause>
        ensures { Takes (λ _. seen self.new) result (on_exists (seen self.old) path (seen_kind token.entry)) }
    {
        if let TokenKind::Sign(Sign::Dot) = token {
            self.pending = Pending::Segment {
                used: PathUse::Exists,
                path,
            };
            return Ok(());
        }
        let path = path.into_path();
        self.atom(Form::Exists { path }, 0)?;
        self.on_joint(token)
    }

    /// After another segment.
    #[tactic(auto, unfolding(crate::specs::FilterReading::on_path))]
    fn on_path(&mut self, path: Segments, token: TokenKind<'_>) -> Result<(), Cause>
        ensures { Takes (λ _. seen self.new) result (on_path (seen self.old) path (seen_kind token.entry)) }
    {
        self.pending = match token {
            TokenKind::Sign(Sign::Dot) => Pending::Segment {
                used: PathUse::Tested,
                path,
            },
            TokenKind::Sign(Sign::Compare(op)) => Pending::Value {
                path,
                asked: ValueTest::Compare(op),
            },
            TokenKind::Word(Reserved::Has) => Pending::Value {
                path,
                asked: ValueTest::Has,
            },
            TokenKind::Word(Reserved::In) => Pending::List { path },
            _ => return Err(Cause::Syntax),
        };
        Ok(())
    }

    /// Where the one value of a test must come.
    #[tactic(auto, unfolding(crate::specs::FilterReading::on_value))]
    fn on_value(
        &mut self,
        path: Segments,
        asked: ValueTest,
        token: TokenKind<'_>,
    ) -> Result<(), Cause>
        ensures { Takes (λ _. seen self.new) result (on_value (seen self.old) path asked (value_of (seen_kind token.entry))) }
    {
        let value = value_of(self.alloc, token)?;
        let path = path.into_path();
        match asked {
            ValueTest::Compare(op) => self.atom(Form::Compare { path, op, value }, 0),
            ValueTest::Has => self.atom(Form::Has { path, value }, 0),
        }
    }

    /// Where `[` must come.
    #[tactic(auto, unfolding(crate::specs::FilterReading::on_list))]
    fn on_list(&mut self, path: Segments, token: TokenKind<'_>) -> Result<(), Cause>
        ensures { Takes (λ _. seen self.new) result (on_list (seen self.old) path (seen_kind token.entry)) }
    {
        let TokenKind::Sign(Sign::OpenList) = token else {
            return Err(Cause::Syntax);
        };
        self.pending = Pending::FirstItem { path };
        Ok(())
    }

    /// After `[`.
    #[tactic(auto, unfolding(crate::specs::FilterReading::on_first_item))]
    fn on_first_item(&mut self, path: Segments, token: TokenKind<'_>) -> Result<(), Cause>
        ensures { Takes (λ _. seen self.new) result (on_first_item (seen self.old) path (seen_kind token.entry)) }
    {
        let values = Values::new(self.alloc);
        if let TokenKind::Sign(Sign::CloseList) = token {
            return self.list(path, values);
        }
        self.on_item(path, values, token)
    }

    /// Where a value of a list must come.
    #[tactic(auto, unfolding(crate::specs::FilterReading::item_at))]
    fn on_item(&mut self, path: Segments, values: Values, token: TokenKind<'_>) -> Result<(), Cause>
        ensures { Takes (λ _. seen self.new) result (item_at (seen self.old) path values (value_of (seen_kind token.entry))) }
    {
        let value = value_of(self.alloc, token)?;
        let values = values.with(value)?;
        self.pending = Pending::AfterItem { path, values };
        Ok(())
    }

    /// After a value of a list.
    #[tactic(auto, unfolding(crate::specs::FilterReading::on_after_item))]
    fn on_after_item(
        &mut self,
        path: Segments,
        values: Values,
        token: TokenKind<'_>,
    ) -> Result<(), Cause>
        ensures { Takes (λ _. seen self.new) result (on_after_item (seen self.old) path values (seen_kind token.entry)) }
    {
        match token {
            TokenKind::Sign(Sign::Comma) => {
                self.pending = Pending::Item { path, values };
                Ok(())
            }
            TokenKind::Sign(Sign::CloseList) => self.list(path, values),
            _ => Err(Cause::Syntax),
        }
    }

    /// A list is whole.
    fn list(&mut self, path: Segments, values: Values) -> Result<(), Cause>
        ensures { Takes (λ _. seen self.new) result (Ok (atom (listed path values) (length values) (seen self.old))) }
    {
        let count = values.len();
        let path = path.into_path();
        let values = values.into_vec();
        self.atom(Form::In { path, values }, count)
    }

    /// Where an operand is whole.
    #[tactic(auto, unfolding(crate::specs::FilterReading::on_joint))]
    fn on_joint(&mut self, token: TokenKind<'_>) -> Result<(), Cause>
        ensures { Takes (λ _. seen self.new) result (on_joint (seen self.old) (seen_kind token.entry)) }
    {
        match token {
            TokenKind::Word(Reserved::And) => {
                self.pending = Pending::Operand;
                Ok(())
            }
            TokenKind::Word(Reserved::Or) => {
                self.join_all()?;
                self.pending = Pending::Operand;
                Ok(())
            }
            TokenKind::Sign(Sign::Close) => self.close(),
            _ => Err(Cause::Syntax),
        }
    }

    /// The `and` of the innermost level is whole.
    fn join_all(&mut self) -> Result<(), Cause>
        ensures { Takes (λ _. seen self.new) result (Ok (join_all (seen self.old))) }
    {
        let level = self.level;
        let (operand, height) = joined(
            &mut self.operands,
            Join::And,
            level.all_from,
            level.all_height,
        )?;
        self.operands.push(operand)?;
        self.level.any_height = level.any_height.max(height);
        self.level.all_from = self.operands.len();
        self.level.all_height = 0;
        Ok(())
    }

    /// Closes a parenthesis.
    #[tactic(auto, unfolding(crate::specs::FilterReading::closed))]
    fn close(&mut self) -> Result<(), Cause>
        ensures { Takes (λ _. seen self.new) result (closed (seen self.old) (seen self.old).outer) }
    {
        let Some(level) = self.outer.pop() else {
            return Err(Cause::Syntax);
        };
        self.join_all()?;
        let (operand, height) = joined(
            &mut self.operands,
            Join::Or,
            self.level.any_from,
            self.level.any_height,
        )?;
        self.level = level;
        self.put(operand, height)
    }

    /// Whether a token of this kind is allowed next.
    pub(crate) fn is_allowed(&self, what: Beginning) -> bool
        ensures { result ≡ is_allowed_after (seen self.now).pending what }
    {
        match &self.pending {
            Pending::Operand => what.is_text(),
            Pending::ExistsSegment => what.is_text(),
            Pending::Segment { path, .. } => what.is_text() && path.len() < MAX_SEGMENTS,
            Pending::Path { used, .. } => match used {
                PathUse::Exists => false,
                PathUse::Tested => what.is_unequal(),
            },
            Pending::Value { .. } => !what.is_unequal(),
            Pending::FirstItem { .. } => !what.is_unequal(),
            Pending::Item { .. } => !what.is_unequal(),
            Pending::List { .. } => false,
            Pending::AfterItem { .. } => false,
            Pending::Joint => false,
        }
    }

    /// The filter that was read, where a text of this length ends here.
    pub(crate) fn finish(self, total: usize) -> Result<Filter, QueryRefusal>
        ensures { Gives (λ filter. filter) result (filter_rules.ends total (seen self)) }
    {
        let mut reader = self;
        if let Err(cause) = reader.end() {
            return Err(cause.at(b'f', total));
        }
        reader.judge()
    }

    /// Where the text ends.
    #[tactic(auto, unfolding(crate::specs::FilterReading::ended))]
    fn end(&mut self) -> Result<(), Cause>
        ensures { Takes (λ _. seen self.new) result (ended (seen self.old).pending (without_pending (seen self.old))) }
    {
        match mem::replace(&mut self.pending, Pending::Operand) {
            Pending::Joint => {}
            Pending::Path {
                used: PathUse::Exists,
                path,
            } => {
                let path = path.into_path();
                self.atom(Form::Exists { path }, 0)?;
            }
            _ => return Err(Cause::Syntax),
        }
        if self.outer.is_empty() {
            Ok(())
        } else {
            Err(Cause::Syntax)
        }
    }

    /// The filter, if it is within the limits.
    #[tactic(auto, unfolding(crate::specs::FilterReading::judged))]
    fn judge(self) -> Result<Filter, QueryRefusal>
        ensures { Gives (λ filter. filter) result (judged (seen self)) }
    {
        let mut reader = self;
        if reader.join_all().is_err() {
            return Err(QueryRefusal::Memory);
        }
        let (filter, depth) = joined(
            &mut reader.operands,
            Join::Or,
            reader.level.any_from,
            reader.level.any_height,
        )?;
        if reader.leaves > MAX_LEAVES {
            return Err(QueryRefusal::TooMany {
                leaves: reader.leaves,
            });
        }
        if depth > MAX_HEIGHT {
            return Err(QueryRefusal::TooDeep { depth });
        }
        Ok(filter)
    }
}
