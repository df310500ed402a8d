// The colours of cells.
ghost use Rattle.std.specs.Prelude.{◌≡◌, ◌+◌, ◌<◌, ◌≤◌, ℕ, length, take, drop};
ghost use Rattle.mesh_draw.specs.Colours.{colour};

/// How many colours there are.
pub const COLOUR_COUNT: u8 = 64;

// How many bytes the text of a colour has.
const TEXT_LEN: usize = 7;

// The colours, as SVG has them: those of a palette for charts, then each as far from those before it as can be, and a
// light grey.
const COLOURS: &[u8; 448] = b"\
    #4e79a7#f28e2b#59a14f#e15759#b07aa1#76b7b2#edc948#9c755f\
    #0000ff#00ff00#ff22dd#0055dd#ff0000#bbee00#880077#ff0088\
    #00ee77#dd88ff#005544#8811cc#555500#00eecc#773300#7799ff\
    #dddd99#882244#00ccff#ffaaaa#33aa00#aaee77#554499#889900\
    #ff77bb#ffccff#aa0000#005511#ff0044#cc9955#0044ff#009977\
    #664455#dd00ff#aaccff#ff6633#99ddaa#778855#dd33aa#9966ff\
    #77ee33#00eeff#aa8800#9944bb#eedd00#007788#bb1166#bb6644\
    #0066bb#ccaaff#00aaff#007700#33cc88#ddbb99#773366#dddddd";

// The seven bytes from a place on.
fn seven_from(texts: &[u8], start: usize) -> &[u8]
    requires { start + 7 ≤ length texts.now }
    ensures { result.now ≡ take 7 (drop start texts.now) }
{
    texts.split_at(start).1.split_at(TEXT_LEN).0
}

/// The text of the colour with a number.
#[tactic(auto, unfolding(crate::specs::Colours::colour))]
pub fn colour(number: u8) -> &'static [u8]
    requires { number < COLOUR_COUNT }
    ensures { result.now ≡ colour number }
{
    seven_from(COLOURS, number as usize * TEXT_LEN)
}

/// A law: no two colours are the same.
pub fn colours_differ()
    ensures { (a b : ℕ) → a < COLOUR_COUNT → b < COLOUR_COUNT → colour a ≡ colour b → a ≡ b }
{}
