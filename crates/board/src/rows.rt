// Changes to one signature of a row.
ghost use Rattle.std.specs.Prelude.{◌<◌, length};
ghost use Rattle.signature.specs.Meaning.{Emptied, Inserted};
ghost use Rattle.board.specs.Changes.{RowTurned};

use signature::Signature;

pub(crate) fn reset_at<S: Signature>(row: &mut [S], t: usize)
    requires { t < length row.old }
    ensures { RowTurned t (Emptied S.Signature.has S.Signature.resets) row.old row.new }
{
    row[t].reset();
}

pub(crate) fn insert_at<S: Signature>(row: &mut [S], t: usize, line: u16)
    requires { t < length row.old }
    ensures { RowTurned t (λ s s'. Inserted S.Signature.has S.Signature.inserts s line s') row.old row.new }
{
    row[t].insert(line);
}
