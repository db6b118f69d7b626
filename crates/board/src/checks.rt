// The rows of the refusal table, from the top down.
ghost use Rattle.std.specs.Prelude.{◌≡◌, ◌+◌, ◌*◌, ◌<◌, ◌≤◌, true, length, take, IfOk, Option, OnOk};
ghost use Rattle.thread_record.specs.declared.phase.Phase.TheVariants.{Running};
ghost use Rattle.refusal.specs.Rows.{decided, phase_rows};
ghost use Rattle.board.specs.Admissions.{Addressed, Admitted};
ghost use Rattle.refusal.specs.Cases.{Case};
ghost use Rattle.thread_record.specs.Phases.{is_running};
ghost use Rattle.board.specs.Refusals.{parts_row, thread_rows, address_row};
ghost use Rattle.board.specs.Views.{fits_of, part, view};

use crate::parts::Board;
use refusal::Refusal;
use refusal::rows::check_phase;
use signature::Signature;
use thread_record::{Phase, Record};
use write_buffer::Entry;
use write_buffer::scan::are_below;

impl<'w, 'r, 'e, 's, 'x, R: Signature, W: Signature> Board<'w, 'r, 'e, 's, 'x, R, W> {
    fn fits(&self) -> bool
        ensures { result ≡ fits_of self.now }
    {
        let words = self.words.len();
        let threads = self.records.len();
        words % 8 == 0
            && (8..=65536).contains(&words)
            && (1..=16).contains(&threads)
            && self.entries.len() == 32 * threads
            && self.reads.len() == threads
            && self.writes.len() == threads
    }

    pub(crate) fn check_parts(&self) -> Result<(), Refusal>
        ensures decides { (d : R) (e : W) (after : Option Case) → decided result after ≡ parts_row (view self.now d e) after }
        ensures accepts { OnOk result (fits_of self.now ≡ true) }
    {
        if self.fits() {
            Ok(())
        } else {
            Err(Refusal::WrongParts)
        }
    }

    fn check_address(&self, address: u32) -> Result<(), Refusal>
        ensures decides { (d : R) (e : W) (after : Option Case) → decided result after ≡ address_row (view self.now d e) address after }
        ensures accepts { OnOk result (address < length self.now.words.now) }
    {
        if (address as usize) < self.words.len() {
            Ok(())
        } else {
            Err(Refusal::NoAddress(address))
        }
    }

    // The counted entries of a thread with this record.
    pub(crate) fn buffer(&self, t: usize, read: Record) -> &[Entry]
        requires { 32 * t + 32 ≤ length self.now.entries.now }
        ensures holds { result.now ≡ take read.count (part t self.now.entries.now) }
        ensures long { length result.now ≡ read.count }
    {
        let area = &self.entries[32 * t..32 * t + 32];
        &area[..read.count as usize]
    }

    // The parts, the thread, and its counted entries.
    pub(crate) fn check_thread(&self, thread: u32) -> Result<Record, Refusal>
        ensures decides { (d : R) (e : W) (after : Option Case) → decided result after ≡ thread_rows (view self.now d e) thread after }
        ensures accepts { IfOk result (λ found. Admitted thread found self.now) }
    {
        self.check_parts()?;
        let t = thread as usize;
        let Some(plain) = self.records.get(t) else {
            return Err(Refusal::NoThread(thread));
        };
        let record = Record::from(*plain);
        if !are_below(self.buffer(t, record), self.words.len()) {
            return Err(Refusal::BadEntry(thread));
        }
        Ok(record)
    }

    // The rows of a plain access.
    pub(crate) fn check_plain(&self, address: u32) -> Result<(), Refusal>
        ensures decides { (d : R) (e : W) (after : Option Case) → decided result after ≡ parts_row (view self.now d e) (address_row (view self.now d e) address after) }
        ensures accepts { OnOk result (Addressed address self.now) }
    {
        self.check_parts()?;
        self.check_address(address)
    }

    // The rows of a read or a write by a thread, down to its phase.
    pub(crate) fn check_access(&self, thread: u32, address: u32) -> Result<Record, Refusal>
        ensures decides { (d : R) (e : W) (after : Option Case) → decided result after ≡ thread_rows (view self.now d e) thread (address_row (view self.now d e) address (phase_rows is_running ((view self.now d e).thread thread).phase thread after)) }
        ensures accepts { IfOk result (λ found. Admitted thread found self.now × (found.phase ≡ Running) × Addressed address self.now) }
    {
        let record = self.check_thread(thread)?;
        self.check_address(address)?;
        check_phase(record.phase, Phase::Running, thread)?;
        Ok(record)
    }
}
