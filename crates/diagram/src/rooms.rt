// How many places the lent slices have for nodes and for paths: two functions, since each is one line and its answer has a word of its own
// in the rules.
ghost use Rattle.std.specs.Prelude.{◌≡◌};
ghost use Rattle.rules.specs.Drawings.{node_room, path_room};
ghost use Rattle.growing.specs.Slices.{node_slices};
ghost use Rattle.diagram.specs.Slices.{path_slices};

// How many nodes there is a place for.
pub fn for_nodes(column: &[u16], low: &[u16], high: &[u16]) -> usize
    ensures { result ≡ node_room (node_slices column.now low.now high.now) }
{
    column.len().min(low.len()).min(high.len())
}

// How many paths there is a place for.
pub fn for_paths(ones: &[u16], zeros: &[u16]) -> usize
    ensures { result ≡ path_room (path_slices ones.now zeros.now) }
{
    ones.len().min(zeros.len())
}
