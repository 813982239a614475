// The published examples and the one of 01's program, planned.
use crate::planning::plan;
use std::io;
use worked::published;

pub fn run(rt: &impl Print) -> io::Result<()> {
    // Figure 2: Birth with ZIP, Job with Employer.
    plan(rt, "000", published::CENSUS)?;
    // Figure 3.2: Job with InsRate, Birth with ZIP and Disease. The three extracts that 001 calls locally minimal are not the fewest.
    plan(rt, "001", published::PATIENTS)?;
    // Duty with illness; steward with born and panel.
    plan(rt, "01, the program", published::VOLUNTEERS)
}
