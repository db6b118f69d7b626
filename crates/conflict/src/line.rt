// The line of an address: eight words to a line.
ghost use Rattle.std.specs.Prelude.{◌≡◌, ◌%◌};
ghost use Rattle.conflict.specs.Conflicts.{line};

// A line is a number of 16 bits; every address of a board has one.
pub fn line_of(address: u32) -> u16
    ensures { result ≡ line address % 65536 }
{
    (address / 8 % 65536) as u16
}
