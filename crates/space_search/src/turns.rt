//! The turns of a search, and what is read of it between them.

ghost use Rattle.std.specs.Prelude.{ℕ, ◌≡◌, ◌≤◌, ◌*◌, ◌<◌, ◌^◌, ◌+◌, [], IfOk, OnErr, length, Ok, Err, alloc_error};
ghost use Rattle.space_search.specs.Books.{books, Follows};
ghost use Rattle.item_list.specs.Turns.{Says, Settles};
ghost use Rattle.item_list.specs.declared.turn.Turn.TheVariants as turns;
ghost use Rattle.space_search.specs.Limits.{HasFewPerCell, IsUnspent, IsUnspentTurn};
ghost use Rattle.space_search.specs.Outcome.{Answers};
ghost use Rattle.space_search.specs.Rules.{Rules};
ghost use Rattle.space_search.specs.Runs.{IsRun};
ghost use Rattle.space_search.specs.Searches.{IsSearchOf, IsReadable};
ghost use Rattle.space_search.specs.Turns.{EndsSearch, GoesOn, IsClosedSoFar};
ghost use Rattle.space_search.specs.View.{Reached, view, reached, IsShown, phase_after};

use crate::begin::begin;
use crate::choices::choices_of;
use crate::label::Label;
use crate::lists::Lists;
use crate::outcome::{Outcome, Run};
use crate::phase::{Phase, after_turn};
use crate::search::Search;
use crate::space::Space;
use crate::step::Steps;
use crate::take::take_many;
use item_list::{Items, Turn};
use std::alloc::{AllocError, Global};

impl<T: Copy + Drop> Search<T> {
    /// A search that settles at most `limit` labels, before its first turn.
    pub fn new(alloc: Global, limit: u64) -> Self
        requires small { limit < 2 ^ 32 }
        ensures of { (rules : Rules T) → IsSearchOf rules result }
        ensures limit { (view result).limit ≡ limit }
        ensures fresh { (view result).phase ≡ Phase.New }
        ensures none { (view result).settled ≡ [] }
    {
        Search {
            lists: Lists::new(alloc),
            steps: Steps::new(alloc),
            limit,
            found: 0,
            phase: Phase::New,
        }
    }

    /// Settles at most `quota` labels, over a space that answers every call as that of the first
    /// turn.
    ///
    /// After its last answer a search gives that answer again, and after want of memory it answers
    /// want of memory; what it settled before can still be read.
    pub fn turn<S: Space<State = T>>(
        &mut self,
        space: &S,
        bounds: &mut S::Bounds,
        quota: u32,
    ) -> Result<Turn<(), Outcome<u32>>, AllocError>
        requires bounds { S.AreBounds space.now bounds.old }
        requires of { IsSearchOf (S.rules space.now) self.old }
        requires some { 1 ≤ quota }

        ensures bounds { S.AreBounds space.now bounds.new }
        ensures of { IsSearchOf (S.rules space.now) self.new }
        ensures kept { GoesOn (S.rules space.now) (view self.old) (view self.new) }

        ensures ends { IfOk result (λ turn. Says
            (λ _. IsClosedSoFar (S.rules space.now) (view self.new))
            (EndsSearch (S.rules space.now) (view self.new)) turn) }
        ensures counts { IfOk result (λ turn. Settles
            (length (view self.old).settled + quota) (length (view self.new).settled) turn) }
        ensures last { IfOk result (λ turn. (view self.new).phase ≡ phase_after turn) }
        ensures enough { (most : ℕ) → HasFewPerCell (S.rules space.now) most →
            (S.rules space.now).cells * most ≤ (view self.old).limit → IfOk result IsUnspentTurn }

        ensures again { (end : _) → (view self.old).phase ≡ Phase.Ended end →
            (result ≡ Ok (turns.Done end)) × (self.new ≡ self.old) }
        ensures failed { OnErr result ((view self.new).phase ≡ Phase.Failed) }
        ensures fails_again { (view self.old).phase ≡ Phase.Failed → result ≡ Err alloc_error }
        ensures same { (view self.old).phase ≡ Phase.Failed → self.new ≡ self.old }
    {
        let phase = self.phase;
        match phase {
            Phase::Ended(end) => return Ok(Turn::Done(end)),
            Phase::Failed => return Err(AllocError),
            Phase::New => {
                self.phase = Phase::Failed;
                begin(space, bounds, &mut self.lists)?;
            }
            Phase::Running => self.phase = Phase::Failed,
        }
        let answer = take_many(
            space,
            bounds,
            &mut self.lists,
            &mut self.steps,
            self.limit,
            quota,
        )?;
        let (turn, found) = answer;
        self.found = found;
        self.phase = after_turn(turn);
        Ok(turn)
    }

    /// How many labels are settled.
    pub fn labels(&self) -> u32
        requires of { (rules : Rules T) × IsSearchOf rules self.now }
        ensures value { result ≡ length (view self.now).settled }
    {
        self.lists.settled.len() as u32
    }

    /// The label of a number: a settled one, or after `Found` the goal, which is numbered after
    /// them.
    fn label_of(&self, label: u32) -> &Label<T>
        requires readable { IsReadable self.now label }
        ensures value { IsShown (view self.now) label
            (reached (view self.now).settled result.now) }
        ensures follows { (rules : Rules T) → IsSearchOf rules self.now →
            Follows rules (books self.now.lists) label result.now }
    {
        let place = label as usize;
        if place < self.lists.settled.len() {
            &self.lists.labels[self.lists.settled[place] as usize]
        } else {
            &self.lists.labels[self.found as usize]
        }
    }

    /// What a run to the label costs.
    pub fn cost_of(&self, label: u32) -> u128
        requires readable { IsReadable self.now label }
        ensures exact { (one : Reached T) → IsShown (view self.now) label one → result ≡ one.cost }
    {
        self.label_of(label).cost
    }

    /// The state of a label.
    pub fn state_of(&self, label: u32) -> &T
        requires readable { IsReadable self.now label }
        ensures exact { (one : Reached T) → IsShown (view self.now) label one →
            result.now ≡ one.state }
    {
        &self.label_of(label).state
    }

    /// The choices of the run to a label: its start's number and then its steps' numbers.
    pub fn choices(&self, alloc: Global, label: u32) -> Result<Items<u32>, AllocError>
        requires readable { IsReadable self.now label }
        ensures exact { IfOk result (λ choices. (one : Reached T) →
            IsShown (view self.now) label one → choices ≡ one.choices) }
        ensures run { IfOk result (λ choices. (rules : Rules T) (one : Reached T) →
            IsSearchOf rules self.now → IsShown (view self.now) label one →
            IsRun rules choices one.state one.cost) }
        ensures short { IfOk result (λ choices. length choices ≤ label + 1) }
    {
        choices_of(alloc, &self.lists, *self.label_of(label), label)
    }

    /// The end of a search, with the run to the goal that was found.
    pub fn outcome(&self, alloc: Global, end: Outcome<u32>) -> Result<Outcome<Run>, AllocError>
        requires ends { (rules : Rules T) × IsSearchOf rules self.now ×
            EndsSearch rules (view self.now) end }
        ensures answers { IfOk result (λ outcome. (rules : Rules T) → IsSearchOf rules self.now →
            EndsSearch rules (view self.now) end → Answers rules (view self.now).limit outcome) }
        ensures unspent { IsUnspent end → IfOk result IsUnspent }
    {
        match end {
            Outcome::Found(label) => {
                let choices = self.choices(alloc, label)?;
                let cost = self.cost_of(label);
                Ok(Outcome::Found(Run { choices, cost }))
            }
            Outcome::NoWay => Ok(Outcome::NoWay),
            Outcome::Budget => Ok(Outcome::Budget),
        }
    }
}
