// The area of a thread's entries, counted or not.
ghost use Rattle.std.specs.Prelude.{◌≡◌, slice_set};

use crate::entry::Entry;

// Stores an entry at a place; beyond the area nothing is stored. No `get_mut`: after it nothing is known of the area.
pub fn put(area: &mut [Entry], place: usize, entry: Entry)
    ensures { area.new ≡ slice_set area.old place entry }
{
    if place < area.len() {
        area[place] = entry;
    }
}
