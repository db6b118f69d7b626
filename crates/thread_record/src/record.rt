// What is read of a plain record: no number is beyond its limit.
ghost use Rattle.std.specs.Prelude.{◌≤◌};
ghost use Rattle.thread_record.specs.Limits.{count_limit, cursor_limit, repeats_limit};

use crate::phase::Phase;

#[derive(Clone, Copy)]
pub struct Record {
    pub phase: Phase,
    pub count: u32,
    pub cursor: u32,
    pub repeats: u32,
    ghost counted: { count ≤ count_limit phase },
    ghost reached: { cursor ≤ cursor_limit phase count },
    ghost repeated: { repeats ≤ repeats_limit phase },
}
