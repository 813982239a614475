// The numbers of the published examples and of the one in 01.
use job::Numbers;

// 000, Figure 1. Columns: SSN, Name, Birth, ZIP, Job, Employer.
pub const CENSUS: Numbers<'static> = Numbers {
    columns: 6,
    forbidden: &[1, 18, 34, 28, 44],
    // ZIP or Employer; SSN or (Birth and ZIP); Job and Employer.
    marks: &[3, 5, 17, 18, 0, 2, 3, 16, 17, 18, 4, 5, 16, 18],
};

// 001, Figure 3.1. Columns: SSN, Name, Birth, Race, ZIP, Job, InsRate, Disease.
pub const PATIENTS: Numbers<'static> = Numbers {
    columns: 8,
    forbidden: &[1, 66, 130, 28, 160],
    // Name or (Birth and ZIP); Job and InsRate; Disease and (Birth or Race).
    marks: &[1, 2, 4, 16, 17, 18, 5, 6, 16, 18, 7, 2, 3, 17, 16, 18],
};

// 01, "The program". Columns: steward, born, home, duty, illness, panel.
pub const VOLUNTEERS: Numbers<'static> = Numbers {
    columns: 6,
    forbidden: &[4, 17, 18],
    // steward or home; duty and illness; born and (illness or panel).
    marks: &[0, 2, 17, 18, 3, 4, 16, 18, 1, 4, 5, 17, 16, 18],
};
