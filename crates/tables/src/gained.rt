// Tables of a byte for each set: which needs it meets, need k being bit k.
ghost use Rattle.std.specs.Prelude.{◌≡◌, ℕ, ◌*◌, ◌^◌, ◌<◌, ◌≤◌, length, get_or};
ghost use Rattle.tables.specs.Tables.{all_blocks, AddsBlock, Adds};

// Gives need k to the sets of a block whose lanes are set. The places are those of the block.
fn add_block(lanes: u64, k: usize, places: &mut [u8])
    requires { (k < 8) × (length places.old ≡ 64) × ((lane : ℕ) → lane < 64 → get_or places.old lane 0 < 2 ^ k) }
    ensures { AddsBlock k lanes places.old places.new }
{
    let worth = 1u8 << k;
    for (lane, place) in places.iter_mut().enumerate() {
        if (lanes >> lane) % 2 == 1 {
            *place += worth;
        }
    }
}

// Gives need k to the sets that are in the table of words. No set has it or a later one yet.
pub fn add(met: &[u64], k: usize, table: &mut [u8])
    requires { (k < 8) × (length met.now ≤ all_blocks) × (length table.old ≡ 64 * length met.now) × ((s : ℕ) → s < 64 * length met.now → get_or table.old s 0 < 2 ^ k) }
    ensures { Adds k (length met.now) met.now table.old table.new }
{
    // The places are lent by their range: of what chunks_exact_mut lends, nothing is known after the loop.
    for (block, lanes) in met.iter().enumerate() {
        add_block(*lanes, k, &mut table[64 * block..64 * block + 64]);
    }
}
