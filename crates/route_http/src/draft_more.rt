//! What pairs of the keys add that not each query has, and of overrides.
ghost use Rattle.std.specs.Prelude.{◌≡◌};
ghost use Rattle.route_http.specs.Parts.{override_more};
ghost use Rattle.item_list.specs.Answer.{Answers};
ghost use Rattle.route_http.specs.declared.error.RequestError.TheVariants.{NoMemory};
ghost use Rattle.route_http.specs.declared.key.Key.TheVariants as key;

use crate::draft::Draft;
use crate::error::RequestError;
use crate::key::Key;
use crate::numbers::numbers_of;
use crate::value::{cost_of, runs_of};
use crate::variable::{is_variable, variable_of};
use context_check::Overrides;
use fixed_num::Num;
use item_list::{Items, bytes_of};
use std::alloc::Global;

impl Draft {
    ghost use Rattle.route_http.specs.Parts.{take_keyed};
    ghost use Rattle.route_http.specs.Seen.{parts_seen};

    /// Takes whether runs are searched.
    #[tactic(auto, unfolding(crate::specs::Parts::take_keyed))]
    pub(crate) fn take_runs(&mut self, _name: &[u8], value: &[u8]) -> Result<(), RequestError>
        ensures exact { let taken = take_keyed key.Runs _name.now value.now (parts_seen self.old) in
            Answers (λ _. parts_seen self.new) taken NoMemory result }
    {
        if self.runs.is_some() {
            return Err(RequestError::Repeated { key: Key::Runs });
        }
        match runs_of(value) {
            None => Err(RequestError::BadValue { key: Key::Runs }),
            Some(runs) => {
                self.runs = Some(runs);
                Ok(())
            }
        }
    }

    /// Takes the cost within which nodes are asked for.
    #[tactic(auto, unfolding(crate::specs::Parts::take_keyed))]
    pub(crate) fn take_cost(&mut self, _name: &[u8], value: &[u8]) -> Result<(), RequestError>
        ensures exact { let taken = take_keyed key.Cost _name.now value.now (parts_seen self.old) in
            Answers (λ _. parts_seen self.new) taken NoMemory result }
    {
        if self.cost.is_some() {
            return Err(RequestError::Repeated { key: Key::Cost });
        }
        match cost_of(value) {
            None => Err(RequestError::BadValue { key: Key::Cost }),
            Some(cost) => {
                self.cost = Some(cost);
                Ok(())
            }
        }
    }

    /// Takes an override.
    #[tactic(auto, unfolding(crate::specs::Parts::take_keyed))]
    pub(crate) fn take_override(
        &mut self,
        alloc: Global,
        name: &[u8],
        value: &[u8],
    ) -> Result<(), RequestError>
        ensures exact { let taken =
            take_keyed key.Override name.now value.now (parts_seen self.old) in
            Answers (λ _. parts_seen self.new) taken NoMemory result }
    {
        override_more(alloc, &mut self.overrides, variable_of(name), value)
    }

    /// Takes the waypoints from which costs are asked for.
    #[tactic(auto, unfolding(crate::specs::Parts::take_keyed))]
    pub(crate) fn take_sources(
        &mut self,
        alloc: Global,
        _name: &[u8],
        value: &[u8],
    ) -> Result<(), RequestError>
        ensures exact { let taken =
            take_keyed key.Sources _name.now value.now (parts_seen self.old) in
            Answers (λ _. parts_seen self.new) taken NoMemory result }
    {
        if self.sources.is_some() {
            return Err(RequestError::Repeated { key: Key::Sources });
        }
        let sources = numbers_of(alloc, Key::Sources, value)?;
        self.sources = Some(sources);
        Ok(())
    }

    /// Takes the waypoints to which costs are asked for.
    #[tactic(auto, unfolding(crate::specs::Parts::take_keyed))]
    pub(crate) fn take_destinations(
        &mut self,
        alloc: Global,
        _name: &[u8],
        value: &[u8],
    ) -> Result<(), RequestError>
        ensures exact { let taken =
            take_keyed key.Destinations _name.now value.now (parts_seen self.old) in
            Answers (λ _. parts_seen self.new) taken NoMemory result }
    {
        if self.destinations.is_some() {
            return Err(RequestError::Repeated {
                key: Key::Destinations,
            });
        }
        let destinations = numbers_of(alloc, Key::Destinations, value)?;
        self.destinations = Some(destinations);
        Ok(())
    }
}

/// Puts an override at the end.
fn override_more(
    alloc: Global,
    overrides: &mut Overrides,
    variable: &[u8],
    value: &[u8],
) -> Result<(), RequestError>
    ensures exact { let more = override_more variable.now value.now overrides.old in
        Answers (λ _. overrides.new) more NoMemory result }
{
    if !is_variable(variable) {
        return Err(RequestError::BadValue { key: Key::Override });
    }
    if overrides.find(variable).is_some() {
        return Err(RequestError::Repeated { key: Key::Override });
    }
    let Ok(number) = Num::read(value) else {
        return Err(RequestError::BadValue { key: Key::Override });
    };
    if overrides.len() >= 64 {
        return Err(RequestError::TooMany { key: Key::Override });
    }
    let bytes = bytes_of(alloc, variable)?;
    overrides.push((Items::from_vec(bytes), number))?;
    Ok(())
}
