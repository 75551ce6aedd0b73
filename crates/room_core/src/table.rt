// Searches for the place of an entry in a table.
ghost use Rattle.std.specs.Prelude.{◌≡◌, Some, nat_eq, true};
ghost use Rattle.indexmap.specs.IndexMap.{get};
ghost use Rattle.room_core.specs.Tables.{IsPlace};

use indexmap::IndexMap;

/// Returns the place (index) of the entry with this number, or `None` if the table has no such entry. Tries the place `likely` first, then the next
/// place, and searches only if neither has the entry. Usually, a search has the same number as the search before it, or the next number in the table.
pub fn place_of<V>(table: &IndexMap<u32, V>, likely: usize, number: u32) -> Option<usize>
    ensures { IsPlace number table.now.entries (get nat_eq table.now number) result }
{
    if is_at(table, likely, number) {
        return Some(likely);
    }
    let next = likely.saturating_add(1);
    if is_at(table, next, number) {
        return Some(next);
    }
    table.get_index_of(&number)
}

// Returns whether the entry at this place has this number.
#[inline(always)]
fn is_at<V>(table: &IndexMap<u32, V>, place: usize, number: u32) -> bool
    ensures { result ≡ true → IsPlace number table.now.entries (get nat_eq table.now number) (Some place) }
{
    match table.get_index(place) {
        Some((found, _)) => *found == number,
        None => false,
    }
}
