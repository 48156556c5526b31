//! The numbers of tags: the first, which the router sets, and whether another is set.

ghost use Rattle.std.specs.Prelude.{◌≡◌, set};
ghost use Rattle.lookup_table.specs.Numbers.{has_set};

/// Sets the first number, where there is one.
pub fn set_first(numbers: &mut Vec<u16>, number: u16)
    ensures value { numbers.new.items ≡ set numbers.old.items 0 number }
{
    if numbers.len() > 0 {
        numbers[0] = number;
    }
}

/// Whether a number after the first isn't 0.
pub fn is_any_set(numbers: &[u16]) -> bool
    ensures exact { result ≡ has_set numbers.now }
{
    let mut place = 1;
    'places: while place < numbers.len() {
        if numbers[place] != 0 {
            return true;
        }
        place += 1;
    }
    false
}
