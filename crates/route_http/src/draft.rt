//! What the pairs of a query so far say.
ghost use Rattle.std.specs.Prelude.{◌≡◌};
ghost use Rattle.item_list.specs.Answer.{Answers};
ghost use Rattle.route_http.specs.declared.error.RequestError.TheVariants.{NoMemory};
ghost use Rattle.route_http.specs.declared.key.Key.TheVariants as key;

use crate::circles::circles_of;
use crate::error::RequestError;
use crate::form::Form;
use crate::key::Key;
use crate::spots::waypoints_of;
use crate::value::{digit_of, form_of, labels_of};
use context_check::Overrides;
use geo_int::Spot;
use item_list::{Items, Name, bytes_of};
use nogo_areas::Circle;
use std::alloc::Global;

/// The values of the keys that came, and the overrides that came.
#[derive(Drop)]
pub(crate) struct Draft {
    pub(crate) waypoints: Option<Items<Spot>>,
    pub(crate) circles: Option<Items<Circle>>,
    pub(crate) profile: Option<Name>,
    pub(crate) alternative: Option<u8>,
    pub(crate) form: Option<Form>,
    pub(crate) labels: Option<u64>,
    pub(crate) overrides: Overrides,
    pub(crate) runs: Option<bool>,
    /// Whether a cost may come.
    pub(crate) costed: bool,
    pub(crate) cost: Option<u64>,
    /// Whether sources and destinations may come.
    pub(crate) tabled: bool,
    pub(crate) sources: Option<Items<u64>>,
    pub(crate) destinations: Option<Items<u64>>,
}

impl Draft {
    ghost use Rattle.route_http.specs.Parts.{no_parts, take_pair, take_keyed};
    ghost use Rattle.route_http.specs.Seen.{parts_seen};

    /// No pair came; a cost may come or not, and sources and destinations.
    pub(crate) fn new(alloc: Global, costed: bool, tabled: bool) -> Draft
        ensures value { parts_seen result ≡ no_parts costed tabled }
    {
        Draft {
            waypoints: None,
            circles: None,
            profile: None,
            alternative: None,
            form: None,
            labels: None,
            overrides: Overrides::new(alloc),
            runs: None,
            costed,
            cost: None,
            tabled,
            sources: None,
            destinations: None,
        }
    }

    /// Takes the pair at a place.
    #[tactic(auto, unfolding(crate::specs::Parts::take_pair))]
    pub(crate) fn take(
        &mut self,
        alloc: Global,
        place: u64,
        name: &[u8],
        value: &[u8],
    ) -> Result<(), RequestError>
        ensures exact { let taken = take_pair place (name.now, value.now) (parts_seen self.old) in
            Answers (λ _. parts_seen self.new) taken NoMemory result }
    {
        match Key::of(self.costed, self.tabled, name) {
            None => Err(RequestError::UnknownKey { place }),
            Some(key) => self.take_keyed(alloc, key, name, value),
        }
    }

    /// Takes a pair of a key.
    fn take_keyed(
        &mut self,
        alloc: Global,
        key: Key,
        name: &[u8],
        value: &[u8],
    ) -> Result<(), RequestError>
        ensures exact { let taken = take_keyed key name.now value.now (parts_seen self.old) in
            Answers (λ _. parts_seen self.new) taken NoMemory result }
    {
        match key {
            Key::Lonlats => self.take_lonlats(alloc, name, value),
            Key::Nogos => self.take_nogos(alloc, name, value),
            Key::Profile => self.take_profile(alloc, name, value),
            Key::Alternativeidx => self.take_alternative(name, value),
            Key::Format => self.take_format(name, value),
            Key::Labels => self.take_labels(name, value),
            Key::Override => self.take_override(alloc, name, value),
            Key::Runs => self.take_runs(name, value),
            Key::Cost => self.take_cost(name, value),
            Key::Sources => self.take_sources(alloc, name, value),
            Key::Destinations => self.take_destinations(alloc, name, value),
        }
    }

    /// Takes the waypoints.
    #[tactic(auto, unfolding(crate::specs::Parts::take_keyed))]
    fn take_lonlats(
        &mut self,
        alloc: Global,
        _name: &[u8],
        value: &[u8],
    ) -> Result<(), RequestError>
        ensures exact { let taken =
            take_keyed key.Lonlats _name.now value.now (parts_seen self.old) in
            Answers (λ _. parts_seen self.new) taken NoMemory result }
    {
        if self.waypoints.is_some() {
            return Err(RequestError::Repeated { key: Key::Lonlats });
        }
        let waypoints = waypoints_of(alloc, value)?;
        self.waypoints = Some(waypoints);
        Ok(())
    }

    /// Takes the circles.
    #[tactic(auto, unfolding(crate::specs::Parts::take_keyed))]
    fn take_nogos(&mut self, alloc: Global, _name: &[u8], value: &[u8]) -> Result<(), RequestError>
        ensures exact { let taken =
            take_keyed key.Nogos _name.now value.now (parts_seen self.old) in
            Answers (λ _. parts_seen self.new) taken NoMemory result }
    {
        if self.circles.is_some() {
            return Err(RequestError::Repeated { key: Key::Nogos });
        }
        let circles = circles_of(alloc, value)?;
        self.circles = Some(circles);
        Ok(())
    }

    /// Takes the profile's name.
    #[tactic(auto, unfolding(crate::specs::Parts::take_keyed))]
    fn take_profile(
        &mut self,
        alloc: Global,
        _name: &[u8],
        value: &[u8],
    ) -> Result<(), RequestError>
        ensures exact { let taken =
            take_keyed key.Profile _name.now value.now (parts_seen self.old) in
            Answers (λ _. parts_seen self.new) taken NoMemory result }
    {
        if self.profile.is_some() {
            return Err(RequestError::Repeated { key: Key::Profile });
        }
        if value.is_empty() {
            return Err(RequestError::BadValue { key: Key::Profile });
        }
        let bytes = bytes_of(alloc, value)?;
        self.profile = Some(Items::from_vec(bytes));
        Ok(())
    }

    /// Takes the number of the alternative.
    #[tactic(auto, unfolding(crate::specs::Parts::take_keyed))]
    fn take_alternative(&mut self, _name: &[u8], value: &[u8]) -> Result<(), RequestError>
        ensures exact { let taken =
            take_keyed key.Alternativeidx _name.now value.now (parts_seen self.old) in
            Answers (λ _. parts_seen self.new) taken NoMemory result }
    {
        if self.alternative.is_some() {
            return Err(RequestError::Repeated {
                key: Key::Alternativeidx,
            });
        }
        match digit_of(3, value) {
            None => Err(RequestError::BadValue {
                key: Key::Alternativeidx,
            }),
            Some(alternative) => {
                self.alternative = Some(alternative);
                Ok(())
            }
        }
    }

    /// Takes the form of the reply.
    #[tactic(auto, unfolding(crate::specs::Parts::take_keyed))]
    fn take_format(&mut self, _name: &[u8], value: &[u8]) -> Result<(), RequestError>
        ensures exact { let taken =
            take_keyed key.Format _name.now value.now (parts_seen self.old) in
            Answers (λ _. parts_seen self.new) taken NoMemory result }
    {
        if self.form.is_some() {
            return Err(RequestError::Repeated { key: Key::Format });
        }
        match form_of(value) {
            Err(error) => Err(error),
            Ok(form) => {
                self.form = Some(form);
                Ok(())
            }
        }
    }

    /// Takes the most labels.
    #[tactic(auto, unfolding(crate::specs::Parts::take_keyed))]
    fn take_labels(&mut self, _name: &[u8], value: &[u8]) -> Result<(), RequestError>
        ensures exact { let taken =
            take_keyed key.Labels _name.now value.now (parts_seen self.old) in
            Answers (λ _. parts_seen self.new) taken NoMemory result }
    {
        if self.labels.is_some() {
            return Err(RequestError::Repeated { key: Key::Labels });
        }
        match labels_of(value) {
            None => Err(RequestError::BadValue { key: Key::Labels }),
            Some(labels) => {
                self.labels = Some(labels);
                Ok(())
            }
        }
    }
}
