// Rows of nodes in order.
ghost use Rattle.std.specs.Prelude.{◌≡◌, ◌+◌, ◌*◌, ◌<◌, ◌≤◌, ◌^◌, length};
ghost use Rattle.gmsh_mesh.specs.Nodes.{AreInOrder, IsInOrder};

// Brings the nodes of each row into rising order.
pub(crate) fn sort_rows(rows: &mut [u32], count: usize, width: usize)
    requires table { length rows.old ≡ count * width }
    ensures { AreInOrder count width rows.old rows.new }
{
    for row in 0..count {
        let start = row * width;
        sort_row(&mut rows[start..start + width]);
    }
}

// Brings the nodes of a row into rising order.
fn sort_row(row: &mut [u32])
    ensures order { IsInOrder row.old row.new }
    ensures size { length row.new ≡ length row.old }
{
    row.sort_unstable();
}
