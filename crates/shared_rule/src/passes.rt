//! What is done with the shared words: preparing them, the steps of a pass, splitting and gathering passes, and closing.
ghost use Rattle.std.specs.Prelude.{◌≡◌, ◌≢◌, ◌<◌, ◌≤◌, length, None, IfOk, IfErr, MatchResult};
ghost use Rattle.interleavings.specs.declared.kind.Kind.TheVariants as by;
ghost use Rattle.interleavings.specs.AtomicStep.{IsIdle};
ghost use Rattle.shared_rule.specs.Accesses.{word_named, at_of, load_kind, store_kind, exchange_kind, MayLoad, MayStore, MayExchange};
ghost use Rattle.shared_rule.specs.Closing.{AreCounted, HasCells, IsWhole};
ghost use Rattle.shared_rule.specs.Passes.{IsPassOf, IsPrepared, IsWordOf, view_of};
ghost use Rattle.shared_rule.specs.Plays.{Makes};
ghost use Rattle.shared_rule.specs.Views.{view_after, halved, split_off, taken_in};

use crate::closed::{Closed, closed_of};
use crate::facts::facts;
use crate::lines::{DRAWN_WORD, index_of, opening_words};
use crate::rule::{Draws, Exchanges, Halves, Loads, Plan, Stores, TakesIn};
use crate::shared::{Pass, Shared, shared_of};
use crate::word::Word;
use atomic_table::Table;
use std::alloc::Global;
use stride_base::NoMemory;
use stride_isa::limits::{CELL_LIMIT, MONITOR_LIMIT};

impl Shared {
    /// Prepares the words of cells with these starting values and of so many monitors. The first pass has no name, and may draw
    /// every name. Want of memory is the one refusal of all calls on shared words.
    pub fn prepare(alloc: Global, starts: &[u64], monitors: u32) -> Result<(Shared, Pass), NoMemory>
        requires cells { length starts.now ≤ CELL_LIMIT }
        requires monitors { monitors ≤ MONITOR_LIMIT }
        ensures { IfOk result (λ made. IsPrepared starts.now monitors made.0 made.1) }
    {
        let plan = Plan {
            starts: Vec::from_slice(alloc, starts)?,
            monitors,
        };
        let words = opening_words(alloc, starts)?;
        let (table, pass) = Table::of_words(alloc, words.as_slice(), &plan)?;
        Ok((shared_of(table), pass))
    }

    /// Splits off a pass without a name, which has seen what this one has seen and gets half of its draws, rounded down.
    pub fn split(&self, pass: &mut Pass) -> Pass
        requires pass { IsPassOf self.now pass.old }
        requires nameless { (view_of pass.old).activity.name ≡ None }
        requires draws { 2 ≤ (view_of pass.old).draws }
        ensures pass { IsPassOf self.now pass.new }
        ensures left { view_of pass.new ≡ halved (view_of pass.old) }
        ensures new { IsPassOf self.now result }
        ensures right { view_of result ≡ split_off (view_of pass.old) }
    {
        self.table.shared.split_seat::<Halves>(pass)
    }

    /// Draws a name for a pass that has none: how many names were drawn before it.
    pub fn draw(&self, pass: &mut Pass) -> u32
        requires pass { IsPassOf self.now pass.old }
        requires nameless { (view_of pass.old).activity.name ≡ None }
        requires draws { 1 ≤ (view_of pass.old).draws }
        ensures pass { IsPassOf self.now pass.new }
        ensures step { Makes by.Draw 0 0 (view_of pass.old) result (view_of pass.new) }
    {
        facts();
        self.table.shared.fetch_add::<Draws>(pass, DRAWN_WORD, 1) as u32
    }

    /// Loads a word, by the one kind of step that loads it in the pass's phase.
    pub fn load(&self, pass: &mut Pass, word: Word) -> u64
        requires pass { IsPassOf self.now pass.old }
        requires word { IsWordOf self.now (word_named word) }
        requires may { MayLoad (word_named word) (view_of pass.old) }
        ensures pass { IsPassOf self.now pass.new }
        ensures step { Makes (load_kind (word_named word) (view_of pass.old).activity.phase) (at_of (word_named word)) 0 (view_of pass.old) result (view_of pass.new) }
    {
        facts();
        self.table.shared.load::<Loads>(pass, index_of(word))
    }

    /// Stores into a word, by the one kind of step that stores into it.
    pub fn store(&self, pass: &mut Pass, word: Word, new: u64)
        requires pass { IsPassOf self.now pass.old }
        requires word { IsWordOf self.now (word_named word) }
        requires may { MayStore (word_named word) new (view_of pass.old) }
        ensures pass { IsPassOf self.now pass.new }
        ensures step { view_of pass.new ≡ view_after (store_kind (word_named word)) (at_of (word_named word)) new (view_of pass.old) 0 }
    {
        facts();
        self.table.shared.store::<Stores>(pass, index_of(word), new);
    }

    /// Exchanges a word that is `old` for `new`, by the one kind of step that exchanges it. `Err` comes exactly where the word met
    /// was another, and carries it.
    pub fn compare_exchange(
        &self,
        pass: &mut Pass,
        word: Word,
        old: u64,
        new: u64,
    ) -> Result<u64, u64>
        requires pass { IsPassOf self.now pass.old }
        requires word { IsWordOf self.now (word_named word) }
        requires may { MayExchange (word_named word) old new (view_of pass.old) }
        ensures pass { IsPassOf self.now pass.new }
        ensures done { IfOk result (λ met. met ≡ old) }
        ensures lost { IfErr result (λ met. met ≢ old) }
        ensures step { MatchResult result (λ met. Makes (exchange_kind (word_named word)) (at_of (word_named word)) 0 (view_of pass.old) met (view_of pass.new)) (λ met. Makes (exchange_kind (word_named word)) (at_of (word_named word)) 0 (view_of pass.old) met (view_of pass.new)) }
    {
        facts();
        let met = self
            .table
            .shared
            .compare_exchange::<Exchanges>(pass, index_of(word), old, new);
        if met == old { Ok(met) } else { Err(met) }
    }

    /// Takes in another pass that is at no shared instruction: what it gathered, what it did itself, if it has a name, what it has
    /// seen, and its draws.
    pub fn gather(&self, pass: &mut Pass, other: Pass)
        requires pass { IsPassOf self.now pass.old }
        requires nameless { (view_of pass.old).activity.name ≡ None }
        requires other { IsPassOf self.now other }
        requires idle { IsIdle (view_of other).activity.phase }
        ensures pass { IsPassOf self.now pass.new }
        ensures view { view_of pass.new ≡ taken_in (view_of pass.old) (view_of other) }
    {
        self.table.shared.join_seat::<TakesIn>(pass, other);
    }

    /// Ends the sharing. Where the pass has gathered as many names as were drawn, what it gathered is of one history of atomic
    /// steps, which has led to these words.
    pub fn close(self, pass: Pass) -> Closed
        requires { IsPassOf self pass }
        ensures cells { HasCells result (length (view_of pass).starts) }
        ensures whole { IsWhole (view_of pass) result }
        ensures counted { AreCounted (view_of pass) result }
    {
        facts();
        let Shared { table } = self;
        closed_of(table.close_with(pass))
    }
}
