// Where nodes lie.
ghost use Rattle.std.specs.Prelude.{◌≡◌, ◌+◌, ◌*◌, ◌<◌, ◌^◌, ℕ, ℤ, ◌-ℤ◌, FitsSigned, unsigned_abs, length};
ghost use Rattle.std.specs.Int.{w32};
ghost use Rattle.mesh_draw.specs.Frame.{coordinate, IsExtent, IsFrame, span, margin, with_margins, pixels};

/// The least and the greatest of some coordinates, or 0 and 0 where there are none.
#[derive(Clone, Copy, Debug)]
pub struct Extent {
    pub low: i32,
    pub high: i32,
}

/// Where the nodes of a plane mesh lie: their first coordinates from left to right, their second ones from below
/// upwards.
#[derive(Clone, Copy, Debug)]
pub struct Frame {
    pub across: Extent,
    pub up: Extent,
}

// The extent of coordinate `k` of the nodes, each of which has two.
fn extent_of(values: &[i32], nodes: u32, k: usize) -> Extent
    requires k { k < 2 }
    requires count { length values.now ≡ nodes * 2 }
    ensures { IsExtent nodes (λ n. coordinate values.now n k) result }
{
    if nodes == 0 {
        return Extent { low: 0, high: 0 };
    }
    let first = values[k];
    let mut found = Extent {
        low: first,
        high: first,
    };
    for node in 1..nodes {
        found = wider(found.low, found.high, values[node as usize * 2 + k]);
    }
    found
}

// The extent of one number more, where so many before it have the extent from `low` to `high`.
fn wider(low: i32, high: i32, value: i32) -> Extent
    ensures extent { (n : ℕ) (f : ℕ → ℤ) → 0 < n → f n ≡ value → IsExtent n f (record { low = low; high = high })
        → IsExtent (n + 1) f result }
    ensures fits { FitsSigned w32 result.low × FitsSigned w32 result.high }
{
    if value < low {
        return Extent { low: value, high };
    }
    if high < value {
        return Extent { low, high: value };
    }
    Extent { low, high }
}

/// Where nodes with these coordinates lie, two for each.
pub fn frame_of(values: &[i32], nodes: u32) -> Frame
    requires { length values.now ≡ nodes * 2 }
    ensures { IsFrame nodes values.now result }
{
    Frame {
        across: extent_of(values, nodes, 0),
        up: extent_of(values, nodes, 1),
    }
}

/// How far an extent reaches.
pub fn span(extent: Extent) -> u64
    ensures value { result ≡ span extent }
    ensures below { result < 2 ^ 32 }
{
    extent.high.abs_diff(extent.low) as u64
}

/// How far a value lies above the lower end, where a length of 1 is 50 long.
pub fn above_low(extent: Extent, value: i32) -> u64
    ensures { result ≡ 50 * unsigned_abs (value -ℤ extent.low) }
{
    50 * value.abs_diff(extent.low) as u64
}

/// How far a value lies below the upper end, where a length of 1 is 50 long.
pub fn below_high(extent: Extent, value: i32) -> u64
    ensures { result ≡ 50 * unsigned_abs (extent.high -ℤ value) }
{
    50 * extent.high.abs_diff(value) as u64
}

/// How much of the plane is left free on each side of the nodes.
pub fn margin(frame: Frame) -> u64
    ensures value { result ≡ margin frame }
    ensures some { 0 < result }
    ensures below { result < 2 ^ 32 }
{
    span(frame.across).max(span(frame.up)).max(1)
}

/// The length of a side with its margins.
pub fn with_margins(frame: Frame, side: Extent) -> u64
    ensures value { result ≡ with_margins frame side }
    ensures some { 0 < result }
    ensures below { result < 2 ^ 39 }
{
    50 * span(side) + 2 * margin(frame)
}

/// How many pixels a side has.
pub fn pixels(frame: Frame, side: Extent) -> u64
    ensures value { result ≡ pixels frame side }
    ensures below { result < 2 ^ 49 }
{
    let longer = with_margins(frame, frame.across).max(with_margins(frame, frame.up));
    (800 * with_margins(frame, side) / longer).max(1)
}
