// The most cells of a frame.

ghost use Rattle.std.specs.Prelude.{◌≡◌, ◌≤◌, ◌*◌, map};
ghost use Rattle.bound_program.specs.Values.{bound_of, site_of};
ghost use Rattle.bound_program.specs.Fits.{Fits, SiteFits};
ghost use Rattle.rank_layout.specs.Tables.{most, site_width};

use crate::windows::width_of;
use bound_program::{Bound, Site};

// How many cells the windows of a loop's arguments have together.
fn site_width(bound: &Bound, site: &Site) -> usize
    requires { SiteFits (bound_of bound.now) (site_of site.now) }
    ensures width { result ≡ site_width (bound_of bound.now) (site_of site.now) }
    ensures few { result ≤ 1024 }
{
    let mut width = 0;
    for arg in &site.args {
        width += width_of(bound, *arg);
    }
    width
}

/// The most cells of an element's frame: at most 16 windows of 64 cells.
pub fn stride(bound: &Bound) -> usize
    requires { Fits (bound_of bound.now) }
    ensures widest { result ≡ most (map (site_width (bound_of bound.now)) (bound_of bound.now).sites) }
    ensures few { result ≤ 1024 }
{
    let mut widest = 0;
    for site in &bound.sites {
        widest = site_width(bound, site).max(widest);
    }
    widest
}
