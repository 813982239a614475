// One call of the report and what it leaves: the page, the answer's numbers, whether the rest of the slice was kept; and the sentence for a refusal.
use advice::advise;
use job::refusals::Fault;
use report::{MOST_PAGE_BYTES, Reported, report};
use std::io;

// What stands in a slice before the call.
const OLD: u8 = b'~';

// More places than a page needs, and enough for every sentence.
const PLACES: usize = 310;

pub fn show(rt: &impl Print, case: &[u8], text: &[u8]) -> io::Result<()> {
    rt.write_all(case)?;
    println!(rt; "")?;
    let mut page = [OLD; PLACES];
    match show_page(rt, text, &mut page)? {
        Ok(()) => Ok(()),
        Err(fault) => show_sentence(rt, text, fault),
    }
}

// The same with exactly as many places as a longest page needs, and with one less.
pub fn rooms(rt: &impl Print) -> io::Result<()> {
    println!(rt; "as many places as a page can need")?;
    let mut page = [OLD; MOST_PAGE_BYTES];
    let _ = show_page(rt, b"columns=a\nneed=a\nend=1\n", &mut page)?;
    println!(rt; "one place less")?;
    let mut short = [OLD; MOST_PAGE_BYTES - 1];
    let _ = show_page(rt, b"columns=a\nneed=a\nend=1\n", &mut short)?;
    Ok(())
}

// Answers whether the text was refused.
fn show_page(rt: &impl Print, text: &[u8], page: &mut [u8]) -> io::Result<Result<(), Fault>> {
    let Reported { outcome, length } = report(text, page);
    let (written, rest) = page.split_at(length);
    rt.write_all(written)?;
    let (refusal, place) = match outcome {
        Ok(()) => (0, 0),
        Err(fault) => (u16::from(fault.refusal), fault.place),
    };
    print!(rt; "refusal {refusal}, place {place}, length {length}")?;
    if rest.iter().all(|place| *place == OLD) {
        print!(rt; ", rest kept")?;
    }
    println!(rt; "")?;
    Ok(outcome)
}

fn show_sentence(rt: &impl Print, text: &[u8], fault: Fault) -> io::Result<()> {
    let mut sentence = [OLD; PLACES];
    let length = advise(text, fault.refusal.into(), fault.place, &mut sentence);
    rt.write_all(&sentence[..length])
}
