// What elements change of their rank.

use rank_state::rank_memory::stop::Stop;

/// What the elements of a loop change of their rank, lent to them.
#[derive(Drop)]
pub struct RankShare<'a> {
    /// The cells of the rank's buffer, and behind them one for each of the loop's scalars, whatever it holds.
    pub memory: &'a mut [i32],
    /// The rank's partials.
    pub partials: &'a mut [i32],
    /// The fault to keep of those so far.
    pub fault: Option<Stop>,
}
