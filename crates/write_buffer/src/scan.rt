// Looking through the entries of a buffer.
ghost use Rattle.std.specs.Prelude.{◌≡◌, ◌≤◌, length};
ghost use Rattle.write_buffer.specs.Buffers.{all_below, lookup, place};

use crate::entry::Entry;

// Each address is below the size.
pub fn are_below(entries: &[Entry], size: usize) -> bool
    ensures { result ≡ all_below size entries.now }
{
    entries.iter().all(|e| (e.address as usize) < size)
}

// The word of the first entry with an address.
pub fn look_up(entries: &[Entry], address: u32) -> Option<u32>
    ensures { result ≡ lookup entries.now address }
{
    entries
        .iter()
        .find(|e| e.address == address)
        .map(|e| e.word)
}

// The place of the first entry with an address, or the end: so many entries stand before it.
pub fn place_of(entries: &[Entry], address: u32) -> usize
    ensures found { result ≡ place entries.now address }
    ensures within { result ≤ length entries.now }
{
    entries.iter().take_while(|e| e.address != address).count()
}
