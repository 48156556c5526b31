//! The waypoints that a query names by their numbers: the rows and the columns of a table.
ghost use Rattle.std.specs.Prelude.{◌≡◌};
ghost use Rattle.item_list.specs.Answer.{Answers};
ghost use Rattle.route_http.specs.declared.error.RequestError.TheVariants.{NoMemory};
ghost use Rattle.route_http.specs.Numbers.{all_below, all_once, numbers_of, times};

use crate::error::RequestError;
use crate::key::Key;
use crate::listed::{Listed, fill};
use crate::value::{is_count, number_of};
use item_list::Items;
use std::alloc::Global;

/// The most numbers.
const MOST_NUMBERS: usize = 100;

/// The numbers of a value under this key, each of which stands there once.
pub(crate) fn numbers_of(alloc: Global, key: Key, value: &[u8]) -> Result<Items<u64>, RequestError>
    ensures exact { Answers (λ numbers. numbers) (numbers_of key value.now) NoMemory result }
{
    let mut numbers = Items::new(alloc);
    fill(&mut numbers, value, b';', key, MOST_NUMBERS)?;
    if !all_once(numbers.as_slice()) {
        return Err(RequestError::BadValue { key });
    }
    Ok(numbers)
}

/// Whether each number stands among them once.
fn all_once(numbers: &[u64]) -> bool
    ensures exact { result ≡ all_once numbers.now }
{
    numbers.iter().all(|number| times(numbers, *number) <= 1)
}

/// How often a number stands among others.
fn times(numbers: &[u64], number: u64) -> usize
    ensures exact { result ≡ times number numbers.now }
{
    numbers.iter().filter(|other| **other == number).count()
}

/// Whether each number is below a count.
pub(crate) fn all_below(numbers: &[u64], count: usize) -> bool
    ensures exact { result ≡ all_below count numbers.now }
{
    numbers.iter().all(|number| *number < count as u64)
}

impl Listed for u64 {
    ghost use Rattle.std.specs.Prelude.{ℕ};
    ghost use Rattle.route_http.specs.Numbers.{number_in};

    ghost Seen = { ℕ };

    ghost seen = { λ number. number };

    ghost read = { number_in };

    /// The number of a text of digits.
    fn of_text(text: &[u8]) -> Option<u64> {
        if !is_count(text) {
            return None;
        }
        Some(number_of(text))
    }
}
