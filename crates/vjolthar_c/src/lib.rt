// The library as C, Rust and Python link it: the functions of the crate `vjolthar` under their own names, each with its promise. A crate is a library or a
// static library and not both, so the exports stand here, and whoever writes Rattle takes that crate.
#![tactic(auto)]

ghost use Rattle.growing.specs.Slices.{node_slices};
ghost use Rattle.diagram.specs.Slices.{path_slices};
ghost use Rattle.diagram.specs.Promises.{Draws, Lists};
ghost use Rattle.planner.specs.Promises.{Plans};
ghost use Rattle.report.specs.Promises.{Reports};
ghost use Rattle.vjolthar.specs.Verdicts.{Tells};
ghost use Rattle.vjolthar.specs.Handed.{Hands};

#[unsafe(no_mangle)]
pub extern "C" fn vjolthar_read(
    text: &[u8],
    forbidden: &mut [u16],
    marks: &mut [u16],
    names: &mut [u8],
    place: &mut usize,
    columns: &mut usize,
    sets: &mut usize,
    needs: &mut usize,
    marked: &mut usize,
) -> u16
    ensures { Hands text.now
        (record { forbidden = forbidden.old; marks = marks.old; names = names.old })
        (record {
          refusal = result;
          place = place.new;
          columns = columns.new;
          sets = sets.new;
          needs = needs.new;
          marked = marked.new;
        })
        (record { forbidden = forbidden.new; marks = marks.new; names = names.new }) }
{
    vjolthar::vjolthar_read(
        text, forbidden, marks, names, place, columns, sets, needs, marked,
    )
}

#[unsafe(no_mangle)]
pub extern "C" fn vjolthar_diagram(
    columns: usize,
    forbidden: &[u16],
    marks: &[u16],
    chosen: usize,
    column: &mut [u16],
    low: &mut [u16],
    high: &mut [u16],
    root: &mut u16,
    count: &mut u16,
) -> u16
    ensures { Draws (record { columns = columns; forbidden = forbidden.now; marks = marks.now }) chosen
        (node_slices column.old low.old high.old)
        (record { refusal = result; root = root.new; count = count.new })
        (node_slices column.new low.new high.new) }
{
    vjolthar::vjolthar_diagram(
        columns, forbidden, marks, chosen, column, low, high, root, count,
    )
}

#[unsafe(no_mangle)]
pub extern "C" fn vjolthar_one_paths(
    columns: usize,
    forbidden: &[u16],
    marks: &[u16],
    chosen: usize,
    column: &mut [u16],
    low: &mut [u16],
    high: &mut [u16],
    ones: &mut [u16],
    zeros: &mut [u16],
    root: &mut u16,
    count: &mut u16,
    paths: &mut u16,
) -> u16
    ensures { Lists (record { columns = columns; forbidden = forbidden.now; marks = marks.now }) chosen
        (node_slices column.old low.old high.old)
        (path_slices ones.old zeros.old)
        (record { refusal = result; root = root.new; count = count.new; paths = paths.new })
        (node_slices column.new low.new high.new)
        (path_slices ones.new zeros.new) }
{
    vjolthar::vjolthar_one_paths(
        columns, forbidden, marks, chosen, column, low, high, ones, zeros, root, count, paths,
    )
}

#[unsafe(no_mangle)]
pub extern "C" fn vjolthar_judge(
    columns: usize,
    forbidden: &[u16],
    marks: &[u16],
    split: &[u16],
    fault: &mut u16,
    first: &mut usize,
    second: &mut usize,
) -> u16
    ensures { Tells (record { columns = columns; forbidden = forbidden.now; marks = marks.now }) split.now
        (record { refusal = result; fault = fault.new; first = first.new; second = second.new }) }
{
    vjolthar::vjolthar_judge(columns, forbidden, marks, split, fault, first, second)
}

#[unsafe(no_mangle)]
pub extern "C" fn vjolthar_plan(
    columns: usize,
    forbidden: &[u16],
    marks: &[u16],
    extracts: &mut [u16],
    count: &mut u16,
) -> u16
    ensures { Plans (record { columns = columns; forbidden = forbidden.now; marks = marks.now })
        extracts.old (record { refusal = result; count = count.new }) extracts.new }
{
    vjolthar::vjolthar_plan(columns, forbidden, marks, extracts, count)
}

#[unsafe(no_mangle)]
pub extern "C" fn vjolthar_report(
    text: &[u8],
    page: &mut [u8],
    place: &mut usize,
    length: &mut usize,
) -> u16
    ensures { Reports text.now page.old
        (record { refusal = result; place = place.new; length = length.new }) page.new }
{
    vjolthar::vjolthar_report(text, page, place, length)
}
