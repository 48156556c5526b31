//! Guides are made for profiles that are kept.

ghost use Rattle.std.specs.Prelude.{◌≡◌, IfOk, IfSome, List, false};
ghost use Rattle.profile_text.specs.Tree.{Sections};
ghost use Rattle.route_ready.specs.World.{world_of};
ghost use Rattle.session_answers.specs.Guiding.{is_due, most_of};
ghost use Rattle.session_answers.specs.Jobs.{AreKept};
ghost use Rattle.session_answers.specs.Kept.{IsKept, IsTarget, StayAwaited};
ghost use Rattle.session_answers.specs.Profiles.{stored_of};

use crate::guides::{Guides, Target};
use crate::kept::KeptProfiles;
use crate::key::{Key, key_of};
use crate::profiles::Profiles;
use item_list::Turn;
use route_ready::World;
use std::alloc::{AllocError, Global};

/// How many requests have to take a profile before a guide is made for it, where it isn't a given one
/// without overrides.
const GUIDED_AFTER: u32 = 20;

/// Whether a guide is to be made for some profile that is kept, or the hierarchy for it.
pub fn has_guides_to_make(profiles: &Profiles, kept: &KeptProfiles) -> bool
    ensures off { most_of kept.now ≡ 0 → result ≡ false }
{
    if kept.guides.most == 0 || kept.cache.is_empty() {
        return false;
    }
    if !kept.guides.hierarchy.is_over() || kept.guides.target.is_some() {
        return true;
    }
    kept.guides.hierarchy.hierarchy().is_some()
        && kept.guided() < kept.guides.most
        && kept.has_due(profiles.given)
}

/// Goes on for a spell with the guides of the profiles that are kept: with the hierarchy of the map,
/// and then with one guide after another. It gives them up where memory runs out. What a request is
/// answered stays the same.
pub fn make_guides(alloc: Global, world: &World, profiles: &Profiles, kept: &mut KeptProfiles)
    requires kept { AreKept (world_of world.now) (stored_of profiles.now) kept.old }
    ensures kept { AreKept (world_of world.now) (stored_of profiles.now) kept.new }
    ensures stay { StayAwaited (world_of world.now) kept.old kept.new }
    ensures off { most_of kept.old ≡ 0 → kept.new ≡ kept.old }
{
    if !has_guides_to_make(profiles, kept) {
        return;
    }
    if !kept.guides.hierarchy.is_over() {
        kept.guides.make_hierarchy(alloc, world.map());
        return;
    }
    match kept.guides.target.take() {
        Some(target) => kept.go_on_with(alloc, world, target),
        None => kept.begin_guide(alloc, world, profiles.given),
    }
}

impl KeptProfiles {
    /// How many profiles that are kept have a guide.
    fn guided(&self) -> u64 {
        let mut guided = 0u64;
        'kept: for entry in self.cache.iter() {
            let (_key, kept) = entry;
            if kept.ready.guide.is_some() {
                guided = guided.saturating_add(1);
            }
        }
        guided
    }

    /// Whether a guide is to be made for some profile that is kept.
    fn has_due(&self, given: usize) -> bool {
        'kept: for entry in self.cache.iter() {
            let (key, kept) = entry;
            if kept.ready.guide.is_none() && is_due(key, kept.uses(), given) {
                return true;
            }
        }
        false
    }

    /// The key of the profile for which a guide is made next, of those that requests used last.
    fn next_due(&self, alloc: Global, given: usize) -> Result<Option<Key>, AllocError> {
        'kept: for entry in self.cache.iter() {
            let (key, kept) = entry;
            if kept.ready.guide.is_none() && is_due(key, kept.uses(), given) {
                return Ok(Some(key_of(alloc, key.place, &key.overrides)?));
            }
        }
        Ok(None)
    }

    /// Begins the guide of the next profile that is to have one.
    fn begin_guide(&mut self, alloc: Global, world: &World, given: usize)
        requires kept { (stored : List Sections) ×
            IsKept (world_of world.now) stored self.old }
        ensures kept { (stored : List Sections) → IsKept (world_of world.now) stored self.old →
            IsKept (world_of world.now) stored self.new }
        ensures makings { self.new.makings ≡ self.old.makings }
    {
        match self.next_target(alloc, world, given) {
            Ok(target) => self.guides.target = target,
            Err(_) => self.guides = Guides::new(0),
        }
    }

    /// The next profile that is to have a guide, of which nothing is made.
    fn next_target(
        &self,
        alloc: Global,
        world: &World,
        given: usize,
    ) -> Result<Option<Target>, AllocError>
        requires kept { (stored : List Sections) ×
            IsKept (world_of world.now) stored self.now }
        ensures is { (stored : List Sections) → IsKept (world_of world.now) stored self.now →
            IfOk result (λ next. IfSome next (IsTarget (world_of world.now) stored)) }
    {
        match self.next_due(alloc, given)? {
            Some(key) => self.target_of(alloc, world, key),
            None => Ok(None),
        }
    }

    /// The profile that is kept under a key, where there is a hierarchy for its guide.
    fn target_of(
        &self,
        alloc: Global,
        world: &World,
        key: Key,
    ) -> Result<Option<Target>, AllocError>
        requires kept { (stored : List Sections) ×
            IsKept (world_of world.now) stored self.now }
        ensures is { (stored : List Sections) → IsKept (world_of world.now) stored self.now →
            IfOk result (λ next. IfSome next (IsTarget (world_of world.now) stored)) }
    {
        let Some(kept) = self.cache.peek(&key) else {
            return Ok(None);
        };
        let Some(hierarchy) = self.guides.hierarchy.hierarchy() else {
            return Ok(None);
        };
        let target = Target::new(alloc, hierarchy, key, &kept.ready, world.map())?;
        Ok(Some(target))
    }

    /// Goes on with a guide for a spell. At its end the profile is kept with it. It is dropped where
    /// the profile isn't kept any more.
    fn go_on_with(&mut self, alloc: Global, world: &World, target: Target)
        requires on { (stored : List Sections) ×
            (IsKept (world_of world.now) stored self.old ×
            IsTarget (world_of world.now) stored target) }
        ensures kept { (stored : List Sections) → IsKept (world_of world.now) stored self.old →
            IsTarget (world_of world.now) stored target →
            IsKept (world_of world.now) stored self.new }
        ensures makings { self.new.makings ≡ self.old.makings }
    {
        if !self.cache.contains(&target.key) {
            return;
        }
        match target.go_on(alloc, world) {
            Ok(Turn::More(target)) => self.guides.target = Some(target),
            Ok(Turn::Done(made)) => {
                let (key, ready) = made;
                self.keep(key, &ready);
            }
            Err(_) => self.guides = Guides::new(0),
        }
    }
}

/// Whether a profile is to have a guide: a given one without overrides, or one that enough requests
/// took.
fn is_due(key: &Key, uses: u32, given: usize) -> bool
    ensures exact { result ≡ is_due key.now uses given }
{
    (key.place as usize) < given && key.overrides.len() == 0 || uses >= GUIDED_AFTER
}
