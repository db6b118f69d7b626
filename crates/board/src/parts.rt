// The parts of a board, as the caller lends them to each call: side by side, and perhaps of wrong lengths.
use thread_record::PlainRecord;
use write_buffer::Entry;

#[derive(Drop)]
pub struct Board<'w, 'r, 'e, 's, 'x, R, W> {
    pub words: &'w mut [u32],
    pub records: &'r mut [PlainRecord],
    pub entries: &'e mut [Entry],
    pub reads: &'s mut [R],
    pub writes: &'x mut [W],
}
