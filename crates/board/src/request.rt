// What a request for a line does to the other threads.
ghost use Rattle.std.specs.Prelude.{◌≡◌, ◌<◌, true};
ghost use Rattle.conflict.specs.Conflicts.{is_exclusive};
ghost use Rattle.board.specs.Admissions.{Has};
ghost use Rattle.board.specs.Changes.{Answers, Asked, Turns, met};
ghost use Rattle.board.specs.Requests.{nacks, nacker};
ghost use Rattle.board.specs.Views.{fits_of, view};

use crate::parts::Board;
use conflict::{Effect, Request};
use refusal::Nack;
use signature::Signature;
use thread_record::{Phase, Record};

impl<'w, 'r, 'e, 's, 'x, R: Signature, W: Signature> Board<'w, 'r, 'e, 's, 'x, R, W> {
    fn nacks_at(&self, request: Request, u: u32) -> bool
        requires { Has u self.now }
        ensures { (d : R) (e : W) → result ≡ nacks R.Signature W.Signature (view self.now d e) request.from request.line u }
    {
        let t = u as usize;
        let writes = &*self.writes;
        request.is_nacked_by(u, Record::from(self.records[t]), &writes[t])
    }

    // The lowest thread that nacks a request. No `find`: its closure would have to repeat what `nacks_at` says.
    fn find_nacker(&self, request: Request) -> Option<u32>
        requires { fits_of self.now ≡ true }
        ensures { (d : R) (e : W) → result ≡ nacker R.Signature W.Signature (view self.now d e) request.from request.line }
    {
        for u in 0..self.records.len() as u32 {
            if self.nacks_at(request, u) {
                return Some(u);
            }
        }
        None
    }

    fn effect_at(&self, request: Request, u: u32) -> Effect
        requires { Has u self.now }
        ensures { (d : R) (e : W) → result ≡ met R.Signature W.Signature (is_exclusive request.access) request.from request.line u ((view self.now d e).thread u) }
    {
        let t = u as usize;
        let reads = &*self.reads;
        let writes = &*self.writes;
        request.effect_on(u, Record::from(self.records[t]), &reads[t], &writes[t])
    }

    // What a request that nobody nacked does to thread u.
    fn affect(&mut self, request: Request, u: u32)
        requires { Has u self.old }
        ensures { Turns u (Answers R.Signature W.Signature (is_exclusive request.access) request.from request.line u) self.old self.new }
    {
        match self.effect_at(request, u) {
            Effect::Stays => {}
            Effect::Repeats => self.rewind(u as usize),
            Effect::Aborts => self.clear(u as usize, Phase::Aborted),
        }
    }

    // Makes a request, unless a thread nacks it.
    pub(crate) fn ask(&mut self, request: Request) -> Result<(), Nack>
        requires { fits_of self.old ≡ true }
        ensures { Asked R.Signature W.Signature (is_exclusive request.access) request.from request.line self.old result self.new }
    {
        if let Some(by) = self.find_nacker(request) {
            return Err(Nack { by });
        }
        // By number, since each turn changes the whole board.
        for u in 0..self.records.len() as u32 {
            self.affect(request, u);
        }
        Ok(())
    }
}
