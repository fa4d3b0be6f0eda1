// Runs document 01's cases on the scanner: its marked case that is run, the limit, forged readers, switches and bad input; then
// some of them on a token source.
// Each group writes what it finds; the file stdout has what document 01 says.
#![tactic(auto)]

mod cut_off;
mod lengths;
mod modes;
mod say;
mod sources;

use std::io;
use tokens::Mode;

// The scanner's modes.
const MODES: [Mode; 3] = [Mode::Normal, Mode::HexPattern, Mode::HexJump];

fn main(rt: HostRuntime) -> io::Result<()> {
    modes::marked(&rt)?;
    for mode in MODES {
        modes::in_mode(&rt, mode)?;
    }
    lengths::openings(&rt)?;
    lengths::rows(&rt)?;
    lengths::texts(&rt)?;
    cut_off::characters(&rt)?;
    for mode in MODES {
        sources::in_mode(&rt, mode)?;
    }
    Ok(())
}
