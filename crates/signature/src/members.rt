// Which lines a list has.
ghost use Rattle.std.specs.Prelude.{◌≡◌};
ghost use Rattle.signature.specs.Members.{among};

pub fn is_among(line: u16, lines: &[u16]) -> bool
    ensures { result ≡ among line lines.now }
{
    lines.contains(&line)
}
