// The rows of the table on a thread's phase, and on the room in its buffer.
ghost use Rattle.std.specs.Prelude.{◌≡◌, [], ◌∷◌, Option, OnOk, ◌==◌, ◌≢◌};
ghost use Rattle.thread_record.specs.Phases.{same_phase, is_live};
ghost use Rattle.refusal.specs.Cases.{Case};
ghost use Rattle.refusal.specs.Rows.{decided, row, phase_row, phase_rows};

use crate::refusal::Refusal;
use thread_record::Phase;

// For a call that needs a thread in this phase.
pub fn check_phase(phase: Phase, wanted: Phase, thread: u32) -> Result<(), Refusal>
    ensures decides { (after : Option Case) → decided result after ≡ phase_rows (same_phase wanted) phase thread after }
    ensures accepts { OnOk result (phase ≡ wanted) }
{
    match phase {
        Phase::Aborted => Err(Refusal::Aborted(thread)),
        _ if phase == wanted => Ok(()),
        _ => Err(Refusal::WrongPhase(phase)),
    }
}

// An aborted thread may be abandoned too.
pub fn check_abandonable(phase: Phase) -> Result<(), Refusal>
    ensures { (after : Option Case) → decided result after ≡ phase_row is_live phase after }
{
    match phase {
        Phase::Running | Phase::Validating | Phase::Aborted => Ok(()),
        Phase::Idle | Phase::Copying => Err(Refusal::WrongPhase(phase)),
    }
}

// No room for one more address: its place would be beyond the area.
pub fn check_room(place: usize, thread: u32) -> Result<(), Refusal>
    ensures decides { (after : Option Case) → decided result after ≡ row (place == 32) 7 (thread ∷ []) after }
    ensures accepts { OnOk result (place ≢ 32) }
{
    if place == 32 {
        Err(Refusal::BufferFull(thread))
    } else {
        Ok(())
    }
}
