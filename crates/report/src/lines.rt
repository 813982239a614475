// The lines of a page, each put behind those before it. The page and the table of names stay two parameters: the page is lent to be written and the names to
// be read, and a struct of both would be made by one function, and its page promised to be the same in each clause.
ghost use Rattle.std.specs.Prelude.{[], ◌∷◌, ◌++◌, get_or};
ghost use Rattle.rules.specs.Sets.{members};
ghost use Rattle.rules.specs.Signs.{line_end};
ghost use Rattle.rules.specs.Words.{decimal, keyed_line};
ghost use Rattle.rules.specs.Pages.{refused, released, joined_names, names_at, extract_lines, page as page_of};
ghost use Rattle.writing.specs.Puts.{Puts};
ghost use Rattle.report.specs.Naming.{PutsNamed};

use columns::ColumnSet;
use naming::signs::byte;
use naming::words::MOST_NAME_BYTES;
use writing::Page;

// The name of a column, which ends at the first 0 of its row of 12 bytes. The table is laid out as C gets it, and past its end `byte` reads 0, so that no
// length is asked of callers.
fn put_name(page: &mut Page, names: &[u8], column: u16)
    ensures { PutsNamed names.now (λ columns. get_or columns column []) page.old page.new }
{
    let from = MOST_NAME_BYTES * column as usize;
    for i in 0..MOST_NAME_BYTES {
        let sign = byte(names, from + i);
        if sign == 0 {
            return;
        }
        page.put_byte(sign);
    }
}

// The names of a set's columns, joined by commas.
fn put_names(page: &mut Page, names: &[u8], set: u16)
    ensures { PutsNamed names.now (λ columns. joined_names (names_at columns (members set))) page.old page.new }
{
    let extract = ColumnSet { bits: set };
    // what parts a name from those before it
    let mut comma: &[u8] = b"";
    for column in 0..ColumnSet::MOST_COLUMNS {
        if extract.has(column) {
            page.put(comma);
            put_name(page, names, column);
            comma = b",";
        }
    }
}

// The line of an extract.
fn put_extract(page: &mut Page, names: &[u8], set: u16)
    ensures { PutsNamed names.now (λ columns. keyed_line "extract=" (joined_names (names_at columns (members set)))) page.old page.new }
{
    page.put(b"extract=");
    put_names(page, names, set);
    page.put_byte(b'\n');
}

// The lines of the extracts.
fn put_extracts(page: &mut Page, names: &[u8], extracts: &[u16])
    ensures { PutsNamed names.now (λ columns. extract_lines columns extracts.now) page.old page.new }
{
    for set in extracts {
        put_extract(page, names, *set);
    }
}

// A line with a number.
fn put_count(page: &mut Page, key: &[u8], count: usize)
    ensures { Puts (key.now ++ (decimal count ++ (line_end ∷ []))) page.old page.new }
{
    page.put(key);
    page.put_number(count);
    page.put_byte(b'\n');
}

// The page of a split.
pub fn put_split(page: &mut Page, names: &[u8], extracts: &[u16])
    ensures { PutsNamed names.now (λ columns. page_of (released columns extracts.now)) page.old page.new }
{
    page.put(b"result=split\n");
    put_count(page, b"extracts=", extracts.len());
    put_extracts(page, names, extracts);
}

// The page of a refusal, by its number: of any number, also of one that no refusal has.
pub fn put_refusal(page: &mut Page, number: u16, place: usize)
    ensures { Puts (page_of (refused number place)) page.old page.new }
{
    page.put(b"result=refused\n");
    put_count(page, b"number=", number as usize);
    put_count(page, b"place=", place);
}
