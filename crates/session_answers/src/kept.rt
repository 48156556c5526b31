//! The profiles that are kept, and those that are being made ready.

ghost use Rattle.std.specs.Prelude.{◌≡◌, ◌<◌, IfErr, IfOk, List, None, Some, get_or, length, slice_get};
ghost use Rattle.profile_text.specs.Expr.{sections_in};
ghost use Rattle.profile_text.specs.Tree.{Sections};
ghost use Rattle.route_ready.specs.World.{world_of};
ghost use Rattle.route_ready.specs.Worlds.{WorldValue, binding_in};
ghost use Rattle.route_ready.specs.declared.error.RouteError.TheVariants.{NoMemory};
ghost use Rattle.session_answers.specs.Kept.{IsKept, IsMadeFrom, IsWanted, StayAwaited};
ghost use Rattle.session_answers.specs.Makings.{GivesEnd, GivesReady, HasTurn, IsMakingAt, Puts};
ghost use Rattle.session_answers.specs.declared.makings.Making.{Making as TheMaking};
ghost use Rattle.way_class.specs.Facts.{Binding};

use crate::guides::Guides;
use crate::kept_profile::KeptProfile;
use crate::key::{Key, key_of};
use crate::makings::{Making, Makings, Progress, shared};
use context_check::Overrides;
use lru::LruCache;
use profile_text::Profile;
use route_ready::{Ready, RouteError, World, prepare, preparing};
use std::alloc::{AllocError, Global};
use std::num::NonZeroUsize;
use std::rc::Rc;

/// How many profiles are kept at most.
pub const MOST_KEPT: usize = 8;

/// Profiles that were made ready for a world, the last eight that requests used; and those that are
/// being made ready for the sessions that wait for them; and guides for those that are kept.
pub struct KeptProfiles {
    pub(crate) cache: LruCache<Key, KeptProfile>,
    pub(crate) makings: Makings,
    pub(crate) guides: Guides,
}

impl Drop for KeptProfiles {
    fn drop(self) {
        let KeptProfiles {
            cache: _,
            makings: _,
            guides: _,
        } = self;
    }
}

/// What a request comes to that wants a profile.
#[derive(Drop)]
pub(crate) enum Wanted {
    /// It is ready.
    Ready(Rc<Ready>),
    /// It is being made ready: its making stands at this place.
    Making(usize),
}

impl KeptProfiles {
    /// None yet. Of those that are kept so many have a guide at most.
    pub fn new(alloc: Global, guided: u64) -> Result<KeptProfiles, AllocError>
        ensures kept { (world : WorldValue) (stored : List Sections) →
            IfOk result (IsKept world stored) }
    {
        let most = NonZeroUsize::new(MOST_KEPT).unwrap();
        let cache = LruCache::new(alloc, most)?;
        Ok(KeptProfiles {
            cache,
            makings: Makings::new(alloc),
            guides: Guides::new(guided),
        })
    }

    /// A stored profile made ready for the world under these overrides: as it is kept, or made anew, at
    /// once, and then kept. `place` is the profile's place among those that are stored. It is refused
    /// as `prepare` refuses it.
    pub fn ready(
        &mut self,
        alloc: Global,
        world: &World,
        profile: &Profile,
        place: u32,
        overrides: &Overrides,
    ) -> Result<Rc<Ready>, RouteError>
        ensures exact { (stored : List Sections) → IsKept (world_of world.now) stored self.old →
            slice_get stored place ≡ Some (sections_in profile.now) →
            IsKept (world_of world.now) stored self.new
            × GivesReady (binding_in (world_of world.now) (sections_in profile.now) overrides.now)
            result }
    {
        let key = key_of(alloc, place, overrides)?;
        self.cache.promote(&key);
        match self.cache.peek(&key) {
            Some(kept) => shared(&kept.ready),
            None => self.made(alloc, world, profile, overrides, key),
        }
    }

    /// The same of a profile that isn't kept.
    fn made(
        &mut self,
        alloc: Global,
        world: &World,
        profile: &Profile,
        overrides: &Overrides,
        key: Key,
    ) -> Result<Rc<Ready>, RouteError>
        requires same { key.overrides ≡ overrides.now }
        ensures exact { (stored : List Sections) → IsKept (world_of world.now) stored self.old →
            slice_get stored key.place ≡ Some (sections_in profile.now) →
            IsKept (world_of world.now) stored self.new
            × GivesReady (binding_in (world_of world.now) (sections_in profile.now) overrides.now)
            result }
    {
        match prepare(alloc, world, profile, overrides) {
            Ok(ready) => self.kept(alloc, key, ready),
            Err(error) => Err(error),
        }
    }

    /// A profile that was made ready, which is kept under a key where there is memory for it.
    fn kept(&mut self, alloc: Global, key: Key, ready: Ready) -> Result<Rc<Ready>, RouteError>
        ensures kept { (world : WorldValue) (stored : List Sections) →
            IsKept world stored self.old →
            IsMadeFrom world stored key ready → IsKept world stored self.new }
        ensures same { IfOk result (λ shared. shared.value ≡ ready) }
        ensures cause { IfErr result (λ e. e ≡ NoMemory) }
    {
        match Rc::new(alloc, ready) {
            Ok(ready) => {
                self.keep(key, &ready);
                Ok(ready)
            }
            Err(_) => Err(RouteError::NoMemory),
        }
    }

    /// What a request comes to that wants a stored profile for the world under these overrides: the
    /// profile is kept, or else it is made ready in turns, once for all who wait for it. It is refused
    /// as `preparing` refuses it.
    pub(crate) fn want(
        &mut self,
        alloc: Global,
        world: &World,
        profile: &Profile,
        place: u32,
        overrides: &Overrides,
    ) -> Result<Wanted, RouteError>
        ensures exact { (stored : List Sections) → IsKept (world_of world.now) stored self.old →
            slice_get stored place ≡ Some (sections_in profile.now) →
            IsKept (world_of world.now) stored self.new
            × IsWanted (world_of world.now)
            (binding_in (world_of world.now) (sections_in profile.now) overrides.now) place
            overrides.now self.new result }
        ensures stay { StayAwaited (world_of world.now) self.old self.new }
    {
        let key = key_of(alloc, place, overrides)?;
        self.cache.promote(&key);
        match self.cache.peek(&key) {
            Some(kept) => {
                kept.count_use();
                match shared(&kept.ready) {
                    Ok(ready) => Ok(Wanted::Ready(ready)),
                    Err(error) => Err(error),
                }
            }
            None => self.making(alloc, world, profile, overrides, key),
        }
    }

    /// The same of a profile that isn't kept.
    fn making(
        &mut self,
        alloc: Global,
        world: &World,
        profile: &Profile,
        overrides: &Overrides,
        key: Key,
    ) -> Result<Wanted, RouteError>
        requires same { key.overrides ≡ overrides.now }
        ensures exact { (stored : List Sections) → IsKept (world_of world.now) stored self.old →
            slice_get stored key.place ≡ Some (sections_in profile.now) →
            IsKept (world_of world.now) stored self.new
            × IsWanted (world_of world.now)
            (binding_in (world_of world.now) (sections_in profile.now) overrides.now) key.place
            overrides.now self.new result }
        ensures stay { StayAwaited (world_of world.now) self.old self.new }
    {
        if let Some(k) = self.makings.find(&key) {
            return Ok(Wanted::Making(k));
        }
        match preparing(alloc, world, profile, overrides) {
            Ok(making) => {
                let progress = Progress::Going(making);
                match self.makings.add(Making { key, progress }) {
                    Ok(k) => Ok(Wanted::Making(k)),
                    Err(_) => Err(RouteError::NoMemory),
                }
            }
            Err(error) => Err(error),
        }
    }

    /// Does a turn of the making at a place. What it came to is given where it is at its end; a
    /// profile that is ready then is kept where there is memory for it.
    pub(crate) fn turn(
        &mut self,
        alloc: Global,
        world: &World,
        k: usize,
    ) -> Option<Result<Rc<Ready>, RouteError>>
        requires stands { (binding : Binding) ×
            IsMakingAt (world_of world.now) self.old.makings.slots.items k binding }
        ensures kept { (stored : List Sections) → IsKept (world_of world.now) stored self.old →
            IsKept (world_of world.now) stored self.new }
        ensures turned { HasTurn (world_of world.now) self.old.makings.slots.items
            self.new.makings.slots.items k result }
    {
        let end = self.makings.turn(alloc, world, k);
        if let Some(came) = &end {
            self.note(alloc, k, came);
        }
        end
    }

    /// Keeps what the making at a place came to, where that is a profile that is ready.
    fn note(&mut self, alloc: Global, k: usize, came: &Result<Rc<Ready>, RouteError>)
        requires stands { (making : TheMaking) ×
            (get_or self.old.makings.slots.items k None ≡ Some making) }
        ensures kept { (world : WorldValue) (stored : List Sections) (making : TheMaking) →
            get_or self.old.makings.slots.items k None ≡ Some making →
            GivesEnd world making.progress (Some came.now) →
            IsKept world stored self.old → IsKept world stored self.new }
        ensures makings { self.new.makings ≡ self.old.makings }
    {
        if let Ok(ready) = came {
            if let Ok(key) = self.makings.key(alloc, k) {
                self.keep(key, ready);
            }
        }
    }

    /// How many places of makings there are.
    pub fn makings(&self) -> usize
        ensures value { result ≡ length self.now.makings.slots.items }
    {
        self.makings.slots.len()
    }

    /// Drops the making at a place, for which nobody waits any more.
    pub fn forget(&mut self, k: usize)
        requires within { k < length self.old.makings.slots.items }
        ensures dropped { Puts self.old.makings.slots.items self.new.makings.slots.items k None }
        ensures long { length self.new.makings.slots.items ≡ length self.old.makings.slots.items }
        ensures kept { (world : WorldValue) (stored : List Sections) →
            IsKept world stored self.old → IsKept world stored self.new }
    {
        self.makings.forget(k);
    }

    /// Keeps a profile under a key, where there is memory for it.
    pub(crate) fn keep(&mut self, key: Key, ready: &Rc<Ready>)
        ensures kept { (world : WorldValue) (stored : List Sections) →
            IsKept world stored self.old →
            IsMadeFrom world stored key ready.now.value → IsKept world stored self.new }
        ensures makings { self.new.makings ≡ self.old.makings }
    {
        if let Ok(twin) = ready.clone() {
            let _ = self.cache.put(key, KeptProfile::new(twin));
        }
    }
}
