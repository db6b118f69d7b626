// A request meets another thread: its signatures are asked only where its phase lets them matter.
ghost use Rattle.std.specs.Prelude.{◌≡◌, ◌&&◌, if◌then◌else◌};
ghost use Rattle.conflict.specs.declared.effect.Effect.TheVariants.{Stays};
ghost use Rattle.conflict.specs.Conflicts.{again, effect, is_exclusive, nacks_in, other};

use crate::access::Access;
use crate::effect::Effect;
use crate::request::Request;
use signature::Signature;
use thread_record::{Phase, Record};

// To repeat, unless there were four repeats already.
pub fn one_more(repeats: u32) -> Effect
    ensures { result ≡ again repeats }
{
    if repeats == 4 {
        Effect::Aborts
    } else {
        Effect::Repeats
    }
}

// Whether a signature hits. Never inlined, since few threads of a walk are asked: else each request works out the hashes.
#[inline(never)]
fn hits<S: Signature>(signature: &S, line: u16) -> bool
    ensures { result ≡ S.Signature.has signature.now line }
{
    signature.hit(line)
}

impl Request {
    fn meets(self, u: u32) -> bool
        ensures { result ≡ other self.from u }
    {
        self.from != Some(u)
    }

    // Whether thread u nacks the request.
    #[inline]
    pub fn is_nacked_by<W: Signature>(self, u: u32, record: Record, writes: &W) -> bool
        ensures { result ≡ (other self.from u && nacks_in «record».phase (W.Signature.has writes.now self.line)) }
    {
        self.meets(u) && record.phase == Phase::Copying && hits(writes, self.line)
    }

    // Whether the request aborts a thread that has read the line.
    fn aborts_reader<R: Signature>(self, reads: &R) -> bool
        ensures { result ≡ (is_exclusive self.access && R.Signature.has reads.now self.line) }
    {
        self.access == Access::Exclusive && hits(reads, self.line)
    }

    // What the request does to another thread, when nobody nacked it.
    fn effect_of<R: Signature, W: Signature>(self, record: Record, reads: &R, writes: &W) -> Effect
        ensures { result ≡ effect (is_exclusive self.access) «record».phase «record».repeats (R.Signature.has reads.now self.line) (W.Signature.has writes.now self.line) }
    {
        match record.phase {
            Phase::Running | Phase::Validating if self.aborts_reader(reads) => Effect::Aborts,
            Phase::Validating if hits(writes, self.line) => one_more(record.repeats),
            _ => Effect::Stays,
        }
    }

    // What the request does to thread u, which may be the requester, when nobody nacked it.
    pub fn effect_on<R: Signature, W: Signature>(
        self,
        u: u32,
        record: Record,
        reads: &R,
        writes: &W,
    ) -> Effect
        ensures { result ≡ (if other self.from u then effect (is_exclusive self.access) «record».phase «record».repeats (R.Signature.has reads.now self.line) (W.Signature.has writes.now self.line) else Stays) }
    {
        if self.meets(u) {
            self.effect_of(record, reads, writes)
        } else {
            Effect::Stays
        }
    }
}
