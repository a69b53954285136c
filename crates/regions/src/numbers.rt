//! The number that the next region gets.
ghost use Rattle.std.specs.Prelude.{◌≡◌, ◌<◌, ◌≤◌, length};
ghost use Rattle.pool_types.specs.Limits.{region_numbers};
ghost use Rattle.regions.specs.Numbers.{IsNextNumber, is_slot_taken};

use pool_types::RegionRec;
use pool_types::limits::MOST_REGIONS;

/// How many slots there are: one for each region that can be out. The slot of a region is its number modulo this.
const SLOTS: u32 = MOST_REGIONS as u32;

/// Whether a region has a number of this number's slot.
fn is_slot_taken(records: &[RegionRec], number: u32) -> bool
    ensures { result ≡ is_slot_taken records.now number }
{
    records
        .iter()
        .any(|one| one.number % SLOTS == number % SLOTS)
}

/// The least number from the counter on whose slot is free, or the counter where no slot is free.
pub fn next_number(records: &[RegionRec], counter: u32) -> u32
    requires { counter ≤ region_numbers }
    ensures { IsNextNumber records.now counter result }
{
    for number in counter..counter + SLOTS {
        if !is_slot_taken(records, number) {
            return number;
        }
    }
    counter
}
