// A run under way.

use rank_state::rank_memory::stop::Stop;

/// A run under way.
#[derive(Drop)]
pub struct State {
    /// The blocks of all ranks, and one behind them for the variables.
    pub memory: Vec<i32>,
    /// By rank, the partials of all variables' cells, of the loop whose merging is due.
    pub partials: Vec<i32>,
    /// The least fault that is recorded.
    pub fault: Option<Stop>,
    /// The item at which the last chain began, if one did.
    pub begun: Option<u32>,
    pub out: Vec<u8>,
}
