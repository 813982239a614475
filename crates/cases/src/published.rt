// The examples of the published sources and of 01's program, judged.
use crate::judging::judge;
use std::io;
use worked::published::{CENSUS, PATIENTS, VOLUNTEERS};

pub fn run(rt: &impl Print) -> io::Result<()> {
    census(rt)?;
    patients(rt)?;
    volunteers(rt)
}

fn census(rt: &impl Print) -> io::Result<()> {
    judge(
        rt,
        "000, Figure 2: Birth with ZIP, Job with Employer",
        CENSUS,
        &[12, 48],
    )?;
    judge(rt, "000, Figure 2 merged: against c4", CENSUS, &[60])?;
    judge(rt, "000, Figure 2 without Employer", CENSUS, &[12, 16])
}

fn patients(rt: &impl Print) -> io::Result<()> {
    judge(
        rt,
        "001, Figure 3.2: Birth, ZIP, Disease; Job, InsRate",
        PATIENTS,
        &[148, 96],
    )?;
    judge(
        rt,
        "001, locally minimal: Name; Race, Disease; Job, InsRate",
        PATIENTS,
        &[2, 136, 96],
    )?;
    judge(
        rt,
        "001, Name with Disease: against c3",
        PATIENTS,
        &[130, 96],
    )?;
    judge(rt, "001, Figure 3.2 merged: against c5", PATIENTS, &[244])
}

fn volunteers(rt: &impl Print) -> io::Result<()> {
    judge(
        rt,
        "01: duty, illness; steward, born, panel",
        VOLUNTEERS,
        &[24, 35],
    )?;
    judge(
        rt,
        "01, with the home address: against the first set",
        VOLUNTEERS,
        &[24, 39],
    )
}
