// The scanner's modes by number, for memory that is not Rattle's: 0 normal, 1 pattern, 2 jump. Thin calls over the conversions of
// tokens::Mode, with promises of their own: every number is read as a mode.
#![tactic(auto)]

ghost use Rattle.std.specs.Prelude.{◌≡◌};
ghost use Rattle.modes.specs.Modes.{mode_of, number_of};

use tokens::Mode;

// How many modes there are: from this number on, a number is no mode's.
pub const MODES: u32 = 3;

// A mode by its number. A number that is no mode's is read as the last one.
pub fn of(number: u32) -> Mode
    ensures { result ≡ mode_of number }
{
    Mode::try_from(number).unwrap_or(Mode::HexJump)
}

// The number of a mode.
pub fn number(mode: Mode) -> u32
    ensures { result ≡ number_of mode }
{
    u32::from(mode)
}
