// The steps in the text of a schedule.

use crate::told::{Kind, Note};
use std::alloc::{AllocError, Global};

// The number whose digits a word has.
fn number(word: &str) -> u32 {
    let mut value: u32 = 0;
    for byte in word.bytes() {
        value = value
            .wrapping_mul(10)
            .wrapping_add(byte.wrapping_sub(b'0') as u32);
    }
    value
}

// The number that a word is; 0 where there is none.
fn number_in(word: Option<&str>) -> u32 {
    match word {
        Some(word) => number(word),
        None => 0,
    }
}

// The step in a line, if there is one.
fn step(line: &str) -> Option<Note> {
    let mut words = line.split(' ');
    let kind = match words.next() {
        Some("send") => Kind::Send,
        Some("recv") => Kind::Recv,
        Some("begin") => Kind::Begin,
        Some("end") => Kind::End,
        Some("join") => Kind::Join,
        _ => return None,
    };
    let item = number_in(words.next());
    let rank = number_in(words.next());
    let place = number_in(words.next());
    Some(Note {
        kind,
        item,
        rank,
        place,
    })
}

/// The steps in the text of a schedule, in its order.
pub fn steps_in(alloc: Global, text: &str) -> Result<Vec<Note>, AllocError> {
    let mut steps = Vec::new(alloc);
    for line in text.lines() {
        if let Some(found) = step(line) {
            steps.push(found)?;
        }
    }
    Ok(steps)
}
