// A list of up to sixteen lines, which hits on every line once a seventeenth has come.
#![tactic(auto)]

ghost use Rattle.std.specs.Prelude.{◌≡◌, ◌≤◌};
ghost use Rattle.std.specs.Option.{ForSome};

use signature::Signature;
use signature::members::is_among;

const ROOM: usize = 16;

// A fixed array, since a signature takes no heap and no insert fails.
#[derive(Clone, Copy)]
pub struct LineList {
    lines: [u16; ROOM],
    // How many of the lines are held; none once one too many has come.
    held: Option<usize>,
    ghost room: { ForSome held (λ count. count ≤ 16) },
}

impl LineList {
    ghost use Rattle.line_list.specs.Lines.{lines_of, no_lines};

    pub fn new() -> Self
        ensures { lines_of result ≡ no_lines }
    {
        LineList {
            lines: [0; ROOM],
            held: Some(0),
        }
    }
}

impl Signature for LineList {
    ghost use Rattle.line_list.specs.Lines.{lines_of, no_lines, hits, inserted};

    ghost has = { λ s line. hits (lines_of s) line };

    ghost resets = { λ s t. lines_of t ≡ no_lines };

    ghost inserts = { λ s line t. lines_of t ≡ inserted (lines_of s) line };

    fn reset(&mut self) {
        self.held = Some(0);
    }

    fn insert(&mut self, line: u16) {
        let Some(count) = self.held else {
            return;
        };
        if is_among(line, &self.lines[..count]) {
            return;
        }
        if count < ROOM {
            self.lines[count] = line;
            self.held = Some(count + 1);
        } else {
            self.held = None;
        }
    }

    fn hit(&self, line: u16) -> bool {
        self.held
            .is_none_or(|count| is_among(line, &self.lines[..count]))
    }
}
