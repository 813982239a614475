// Which columns may leave the office together: a job text from standard input, its page to standard output and, where the job is refused, a sentence
// for the steward to standard error.
#![tactic(auto)]

use advice::advise;
use intake::fill;
use job::refusals::Fault;
use report::{MOST_PAGE_BYTES, Reported, report};
use text::MOST_BYTES;

// One byte more than a text may have tells that it is too long, so no more is read.
const MOST_READ: usize = MOST_BYTES + 1;

// Enough for every sentence; of a longer one the end would be missing.
const MOST_SENTENCE: usize = 256;

fn main(rt: HostRuntime) {
    // no heap is taken, so the text is an array that is cut to what came
    let mut text = [0u8; MOST_READ];
    // An input that can't be read on ends there.
    let (length, _) = fill(&mut rt.stdin(), &mut text);
    answer(&rt.stdout(), &rt.stderr(), &text[..length]);
}

fn answer(output: &impl Print, errors: &impl Print, text: &[u8]) {
    let mut page = [0u8; MOST_PAGE_BYTES];
    let Reported { outcome, length } = report(text, &mut page);
    if output.write_all(&page[..length]).is_err() {
        let _ = errors.write_all(b"The answer could not be written to standard output.\n");
    }
    if let Err(fault) = outcome {
        explain(errors, text, fault);
    }
}

fn explain(errors: &impl Print, text: &[u8], fault: Fault) {
    let mut sentence = [0u8; MOST_SENTENCE];
    let length = advise(text, fault.refusal.into(), fault.place, &mut sentence);
    let _ = errors.write_all(&sentence[..length]);
}
