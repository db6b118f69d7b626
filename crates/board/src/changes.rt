// The small changes that the calls are made of.
ghost use Rattle.std.specs.Prelude.{◌≡◌, ◌+◌, ◌*◌, ◌<◌, ◌≤◌, length, slice_index};
ghost use Rattle.board.specs.Changes.{RecordStored, WordStored, EntryStored};
ghost use Rattle.thread_record.specs.Records.{plain_of};

use crate::parts::Board;
use memory::{load, store};
use signature::Signature;
use thread_record::{PlainRecord, Record};
use write_buffer::Entry;
use write_buffer::area::put;

impl<'w, 'r, 'e, 's, 'x, R: Signature, W: Signature> Board<'w, 'r, 'e, 's, 'x, R, W> {
    pub(crate) fn store_record(&mut self, t: usize, record: Record)
        requires { t < length self.old.records.now }
        ensures { RecordStored t (plain_of «record») self.old self.new }
    {
        self.records[t] = PlainRecord::from(record);
    }

    pub(crate) fn store_word(&mut self, address: u32, word: u32)
        ensures { WordStored address word self.old self.new }
    {
        store(self.words, address, word);
    }

    pub(crate) fn store_entry(&mut self, t: usize, place: usize, entry: Entry)
        requires { 32 * t + 32 ≤ length self.old.entries.now }
        ensures { EntryStored t place entry self.old self.new }
    {
        put(&mut self.entries[32 * t..32 * t + 32], place, entry);
    }

    pub(crate) fn word_at(&self, address: u32) -> u32
        ensures { result ≡ slice_index self.now.words.now address }
    {
        load(self.words, address)
    }
}
