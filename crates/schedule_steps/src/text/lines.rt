// The steps of a text.
use crate::Step;

/// The most steps of one schedule text.
pub const SCHEDULE_STEPS: u64 = 8_388_608;

/// A step of a schedule text, and the line that its first word stands on, from 1.
#[derive(Clone, Copy, PartialEq, Eq, Debug)]
pub struct Line {
    pub step: Step,
    pub line: u32,
}
