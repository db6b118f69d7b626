// Reads a record from plain numbers, whatever they are.
ghost use Rattle.std.specs.Prelude.{◌≡◌};
ghost use Rattle.thread_record.specs.Limits.{count_limit, cursor_limit, repeats_limit};
ghost use Rattle.thread_record.specs.Records.{ReadFrom, plain_of};

use crate::phase::Phase;
use crate::plain::PlainRecord;
use crate::record::Record;

fn most_entries(phase: Phase) -> u32
    ensures { result ≡ count_limit phase }
{
    match phase {
        Phase::Idle | Phase::Aborted => 0,
        Phase::Running | Phase::Validating | Phase::Copying => 32,
    }
}

pub(crate) fn furthest_cursor(phase: Phase, count: u32) -> u32
    ensures { result ≡ cursor_limit phase count }
{
    match phase {
        Phase::Idle | Phase::Running | Phase::Aborted => 0,
        Phase::Validating | Phase::Copying => count,
    }
}

fn most_repeats(phase: Phase) -> u32
    ensures { result ≡ repeats_limit phase }
{
    match phase {
        Phase::Validating => 4,
        Phase::Idle | Phase::Running | Phase::Copying | Phase::Aborted => 0,
    }
}

// A number above its limit is read as that limit.
impl From<PlainRecord> for Record {
    ghost from_gives = { ReadFrom };

    fn from(plain: PlainRecord) -> Record {
        let phase = Phase::from(plain.phase);
        let count = plain.count.min(most_entries(phase));
        let cursor = plain.cursor.min(furthest_cursor(phase, count));
        let repeats = plain.repeats.min(most_repeats(phase));
        Record {
            phase,
            count,
            cursor,
            repeats,
        }
    }
}

// The plain numbers of a record.
impl From<Record> for PlainRecord {
    ghost from_gives = { λ r plain. plain ≡ plain_of r };

    fn from(record: Record) -> PlainRecord {
        PlainRecord {
            phase: record.phase.number(),
            count: record.count,
            cursor: record.cursor,
            repeats: record.repeats,
        }
    }
}
