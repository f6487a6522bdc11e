// The chunk offsets of a track, into a list that is lent.
ghost use Rattle.std.specs.Prelude.{◌≤◌, length};
ghost use Rattle.wire.specs.Writing.{Wrote};
ghost use Rattle.sample_tables.specs.Tables.{Table, items};
ghost use Rattle.read_tracks.specs.Reads.{offsets_to};

// The numbers of an `stco`.
pub fn put(stco: &[u8], list: &mut [u32]) -> usize
    requires { Table 4 stco.now × (items stco.now ≤ length list.old) }
    ensures { Wrote (offsets_to stco.now (items stco.now)) list.old result list.new }
{
    let n = sample_tables::table::items(stco);
    for i in 0..n {
        list[i] = sample_tables::table::field(stco, 4, 0, i) as u32;
    }
    n
}
