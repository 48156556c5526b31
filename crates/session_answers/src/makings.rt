//! Profiles that are being made ready for the sessions that wait for them.

ghost use Rattle.std.specs.Prelude.{◌≡◌, ◌≢◌, ◌<◌, [], ℕ, IfErr, IfOk, IfSome, None, OnErr, Some, false, get_or, length, true};
ghost use Rattle.route_ready.specs.World.{world_of};
ghost use Rattle.route_ready.specs.Worlds.{WorldValue};
ghost use Rattle.session_answers.specs.Makings.{GivesEnd, HasTurn, IsAdded, IsMakingAt, IsProgressOf, Nearer, Puts, StandsAt};
ghost use Rattle.route_ready.specs.declared.error.RouteError.TheVariants.{NoMemory};
ghost use Rattle.session_answers.specs.declared.makings.Making.{Making as TheMaking};
ghost use Rattle.way_class.specs.Facts.{Binding};

use crate::key::{Key, key_of};
use item_list::Turn;
use route_ready::{Preparing, Ready, RouteError, World};
use std::alloc::{AllocError, Global};
use std::rc::Rc;
use tasks::Task;

/// How much of a making a turn of a session does: so many links, or as much of ways and nodes.
pub(crate) const MAKING_QUOTA: u32 = 20_000;

/// The profiles that are being made ready, each at a place where it stays until it is dropped.
pub(crate) struct Makings {
    pub(crate) slots: Vec<Option<Making>>,
}

impl Drop for Makings {
    fn drop(self) {
        let Makings { slots: _ } = self;
    }
}

/// A profile that is being made ready under a key, for whoever waits for it.
pub(crate) struct Making {
    pub(crate) key: Key,
    pub(crate) progress: Progress,
}

impl Drop for Making {
    fn drop(self) {
        let Making {
            key: _,
            progress: _,
        } = self;
    }
}

impl Making {
    /// The same after a turn.
    fn turned(self, alloc: Global, world: &World) -> Making
        requires sound { (binding : Binding) ×
            IsProgressOf (world_of world.now) binding self.progress }
        ensures key { result.key ≡ self.key }
        ensures sound { (binding : Binding) →
            IsProgressOf (world_of world.now) binding self.progress →
            IsProgressOf (world_of world.now) binding result.progress }
        ensures nearer { Nearer (world_of world.now) self.progress result.progress }
    {
        let Making { key, progress } = self;
        Making {
            key,
            progress: advanced(alloc, world, progress),
        }
    }
}

/// How far a profile is that is being made ready.
#[derive(Drop)]
pub(crate) enum Progress {
    /// It goes on.
    Going(Preparing),
    /// It is at its end: the profile is ready, or refused.
    Over(Result<Rc<Ready>, RouteError>),
}

impl Makings {
    /// None yet.
    pub(crate) fn new(alloc: Global) -> Makings
        ensures none { result.slots.items ≡ [] }
    {
        Makings {
            slots: Vec::new(alloc),
        }
    }

    /// The place of a making under this key, where one stands.
    pub(crate) fn find(&self, key: &Key) -> Option<usize>
        ensures found { IfSome result (StandsAt self.now.slots.items key.now) }
        ensures none { result ≡ None → (k : ℕ) → StandsAt self.now.slots.items key.now k → ⊥ }
    {
        'slots: for k in 0..self.slots.len() {
            if is_under(&self.slots[k], key) {
                return Some(k);
            }
        }
        None
    }

    /// Puts a making at a free place, which is given.
    pub(crate) fn add(&mut self, making: Making) -> Result<usize, AllocError>
        ensures added { IfOk result (IsAdded self.old.slots.items self.new.slots.items making) }
        ensures kept { OnErr result (self.new.slots.items ≡ self.old.slots.items) }
    {
        'slots: for k in 0..self.slots.len() {
            if is_free(&self.slots[k]) {
                self.slots[k] = Some(making);
                return Ok(k);
            }
        }
        let k = self.slots.len();
        match self.slots.push(Some(making)) {
            Ok(()) => {}
            Err(_) => return Err(AllocError),
        }
        Ok(k)
    }

    /// Does a turn of the making at a place. What it came to is given where it is at its end.
    pub(crate) fn turn(
        &mut self,
        alloc: Global,
        world: &World,
        k: usize,
    ) -> Option<Result<Rc<Ready>, RouteError>>
        requires stands { (binding : Binding) ×
            IsMakingAt (world_of world.now) self.old.slots.items k binding }
        ensures turned { HasTurn (world_of world.now) self.old.slots.items self.new.slots.items k
            result }
    {
        let making = self.slots[k].take().unwrap();
        let making = making.turned(alloc, world);
        let end = outcome(&making.progress);
        self.slots[k] = Some(making);
        end
    }

    /// The key of the making at a place.
    pub(crate) fn key(&self, alloc: Global, k: usize) -> Result<Key, AllocError>
        requires stands { (making : TheMaking) ×
            (get_or self.now.slots.items k None ≡ Some making) }
        ensures exact { (making : TheMaking) → get_or self.now.slots.items k None ≡ Some making →
            IfOk result (λ key. key ≡ making.key) }
    {
        match &self.slots[k] {
            Some(making) => key_of(alloc, making.key.place, &making.key.overrides),
            None => Err(AllocError),
        }
    }

    /// Drops the making at a place.
    pub(crate) fn forget(&mut self, k: usize)
        requires within { k < length self.old.slots.items }
        ensures dropped { Puts self.old.slots.items self.new.slots.items k None }
        ensures long { length self.new.slots.items ≡ length self.old.slots.items }
    {
        self.slots[k] = None;
    }
}

/// Whether a place has a making under this key.
fn is_under(slot: &Option<Making>, key: &Key) -> bool
    ensures found { result ≡ true → (making : TheMaking) × (slot.now ≡ Some making) ×
        (making.key ≡ key.now) }
    ensures none { result ≡ false → (making : TheMaking) → slot.now ≡ Some making →
        making.key ≢ key.now }
{
    match slot {
        Some(making) => making.key == *key,
        None => false,
    }
}

/// Whether a place is free.
fn is_free(slot: &Option<Making>) -> bool
    ensures exact { result ≡ true → slot.now ≡ None }
{
    match slot {
        Some(_) => false,
        None => true,
    }
}

/// How far a profile is after a turn of its making.
fn advanced(alloc: Global, world: &World, progress: Progress) -> Progress
    requires sound { (binding : Binding) × IsProgressOf (world_of world.now) binding progress }
    ensures sound { (binding : Binding) → IsProgressOf (world_of world.now) binding progress →
        IsProgressOf (world_of world.now) binding result }
    ensures nearer { Nearer (world_of world.now) progress result }
{
    match progress {
        Progress::Going(preparing) => match preparing.take_turn(alloc, world, MAKING_QUOTA) {
            Turn::More(next) => Progress::Going(next),
            Turn::Done(Ok(ready)) => match Rc::new(alloc, ready) {
                Ok(ready) => Progress::Over(Ok(ready)),
                Err(_) => Progress::Over(Err(RouteError::NoMemory)),
            },
            Turn::Done(Err(error)) => Progress::Over(Err(error)),
        },
        Progress::Over(end) => Progress::Over(end),
    }
}

/// What a making came to, where it is at its end.
fn outcome(progress: &Progress) -> Option<Result<Rc<Ready>, RouteError>>
    ensures gives { (world : WorldValue) → GivesEnd world progress.now result }
{
    match progress {
        Progress::Going(_) => None,
        Progress::Over(end) => match end {
            Ok(ready) => Some(shared(ready)),
            Err(error) => Some(Err(*error)),
        },
    }
}

/// A profile that is kept, shared once more.
pub(crate) fn shared(kept: &Rc<Ready>) -> Result<Rc<Ready>, RouteError>
    ensures same { IfOk result (λ shared. shared.value ≡ kept.now.value) }
    ensures cause { IfErr result (λ e. e ≡ NoMemory) }
{
    match kept.clone() {
        Ok(ready) => Ok(ready),
        Err(_) => Err(RouteError::NoMemory),
    }
}
