// The colours that targets have, in words of 32: a word is a mask, and word v has the colours from 32 v on.
ghost use Rattle.std.specs.Prelude.{◌≡◌, ◌<◌, ◌≤◌, ◌+◌, ◌*◌, ◌↔◌, ◌⊎◌, ℕ, IfOk, OnOk, MatchOption, length, slice_index, EachIndex};
ghost use Rattle.std.specs.Int.{bit_at};
ghost use Rattle.colouring.specs.Masks.{mask_of, Has, IsClear};

use op_num::OutOfMemory;
use std::alloc::Global;
use std::collections::HashMap;

/// The words of all targets.
#[derive(Drop)]
pub struct Masks {
    /// Each target's word 0.
    pub first: Vec<u32>,
    /// By target and number, the later words that have a colour.
    pub later: HashMap<(u32, u32), u32>,
    /// How many later words each target has; empty where none has any.
    pub counts: Vec<u32>,
    /// By two targets and a word: the end of words from that one on of which each colour is one of either target's.
    pub passed: HashMap<(u32, u32, u32), u32>,
}

impl Masks {
    /// No colours for `total` targets.
    pub fn new(alloc: Global, total: u32) -> Result<Masks, OutOfMemory>
        ensures length { IfOk result (λ m. length m.first.items ≡ total) }
        ensures clear { IfOk result IsClear }
    {
        Ok(Masks {
            first: vec![in alloc; 0; total as usize]?,
            later: HashMap::new(alloc),
            counts: Vec::new(alloc),
            passed: HashMap::new(alloc),
        })
    }

    /// The colours of a target in the word of that number.
    pub fn word(&self, target: u32, number: u32) -> u32
        requires { target < length self.now.first.items }
        ensures { result ≡ mask_of self.now target number }
    {
        if number == 0 {
            self.first[target as usize]
        } else {
            self.later.get(&(target, number)).copied().unwrap_or(0)
        }
    }

    // The colours below 32 that some of these targets have.
    fn joined_first(&self, targets: &[u32], start: usize, end: usize) -> u32
        requires start { start ≤ end }
        requires end { end ≤ length targets.now }
        requires targets { EachIndex targets.now (λ k. slice_index targets.now k < length self.now.first.items) }
        ensures { (b : ℕ) → (bit_at result b ≡ 1)
            ↔ ((k : ℕ) × (start ≤ k) × (k < end) × Has self.now (slice_index targets.now k) 0 b) }
    {
        let mut all = 0;
        for k in start..end {
            all |= self.first[targets[k] as usize];
        }
        all
    }

    /// The colours of a word that some of these targets have.
    pub fn joined(&self, targets: &[u32], start: usize, end: usize, number: u32) -> u32
        requires start { start ≤ end }
        requires end { end ≤ length targets.now }
        requires targets { EachIndex targets.now (λ k. slice_index targets.now k < length self.now.first.items) }
        ensures { (b : ℕ) → (bit_at result b ≡ 1)
            ↔ ((k : ℕ) × (start ≤ k) × (k < end) × Has self.now (slice_index targets.now k) number b) }
    {
        if number == 0 {
            return self.joined_first(targets, start, end);
        }
        let mut all = 0;
        for k in start..end {
            all |= self.word(targets[k], number);
        }
        all
    }

    // Gives a target a colour of a later word.
    fn give_later(&mut self, target: u32, number: u32, bit: u32) -> Result<(), OutOfMemory>
        requires later { 0 < number }
        requires bit { bit < 32 }
        ensures given { OnOk result ((t v b : ℕ) → Has self.new t v b
            ↔ (Has self.old t v b ⊎ ((t ≡ target) × (v ≡ number) × (b ≡ bit)))) }
        ensures passed { self.new.passed ≡ self.old.passed }
        ensures first { self.new.first ≡ self.old.first }
    {
        let old = self.later.get(&(target, number)).copied();
        self.later
            .insert((target, number), old.unwrap_or(0) | 1 << bit)?;
        if old.is_none() {
            count_one(&mut self.counts, self.first.len(), target)?;
        }
        Ok(())
    }

    // Gives a target a colour below 32.
    fn give_first(&mut self, target: u32, bit: u32)
        requires target { target < length self.old.first.items }
        requires bit { bit < 32 }
        ensures given { (t v b : ℕ) → Has self.new t v b
            ↔ (Has self.old t v b ⊎ ((t ≡ target) × (v ≡ 0) × (b ≡ bit))) }
        ensures passed { self.new.passed ≡ self.old.passed }
        ensures length { length self.new.first.items ≡ length self.old.first.items }
        ensures others { (t : ℕ) → (t ≡ target → ⊥)
            → slice_index self.new.first.items t ≡ slice_index self.old.first.items t }
    {
        self.first[target as usize] |= 1 << bit;
    }

    // Gives these targets one colour more, below 32.
    fn add_first(&mut self, targets: &[u32], start: usize, end: usize, colour: u32)
        requires start { start ≤ end }
        requires end { end ≤ length targets.now }
        requires colour { colour < 32 }
        requires targets { EachIndex targets.now (λ k. slice_index targets.now k < length self.old.first.items) }
        ensures added { (t v b : ℕ) → b < 32 → Has self.new t v b
            ↔ (Has self.old t v b
            ⊎ ((32 * v + b ≡ colour) × ((k : ℕ) × (start ≤ k) × (k < end) × (slice_index targets.now k ≡ t)))) }
        ensures passed { self.new.passed ≡ self.old.passed }
        ensures length { length self.new.first.items ≡ length self.old.first.items }
        ensures others { (t : ℕ) → ((k : ℕ) → start ≤ k → k < end → slice_index targets.now k ≡ t → ⊥)
            → slice_index self.new.first.items t ≡ slice_index self.old.first.items t }
    {
        for k in start..end {
            self.give_first(targets[k], colour);
        }
    }

    /// Gives these targets one colour more.
    pub fn add(
        &mut self,
        targets: &[u32],
        start: usize,
        end: usize,
        colour: u32,
    ) -> Result<(), OutOfMemory>
        requires start { start ≤ end }
        requires end { end ≤ length targets.now }
        requires targets { EachIndex targets.now (λ k. slice_index targets.now k < length self.old.first.items) }
        ensures added { OnOk result ((t v b : ℕ) → b < 32 → Has self.new t v b
            ↔ (Has self.old t v b
            ⊎ ((32 * v + b ≡ colour) × ((k : ℕ) × (start ≤ k) × (k < end) × (slice_index targets.now k ≡ t))))) }
        ensures passed { OnOk result (self.new.passed ≡ self.old.passed) }
        ensures length { OnOk result (length self.new.first.items ≡ length self.old.first.items) }
        ensures others { OnOk result ((t : ℕ) → ((k : ℕ) → start ≤ k → k < end → slice_index targets.now k ≡ t → ⊥)
            → slice_index self.new.first.items t ≡ slice_index self.old.first.items t) }
    {
        if colour < 32 {
            self.add_first(targets, start, end, colour);
            return Ok(());
        }
        for k in start..end {
            self.give_later(targets[k], colour / 32, colour % 32)?;
        }
        Ok(())
    }

    // Takes the colours of word 0 from these targets, which alone have any.
    fn clear_first(&mut self, targets: &[u32])
        requires targets { EachIndex targets.now (λ k. slice_index targets.now k < length self.old.first.items) }
        requires others { (t : ℕ) → ((k : ℕ) → k < length targets.now → slice_index targets.now k ≡ t → ⊥)
            → slice_index self.old.first.items t ≡ 0 }
        ensures clear { (t : ℕ) → slice_index self.new.first.items t ≡ 0 }
        ensures length { length self.new.first.items ≡ length self.old.first.items }
    {
        for target in targets {
            self.first[*target as usize] = 0;
        }
    }

    /// Takes all colours from these targets, which alone have any.
    pub fn clear(&mut self, targets: &[u32])
        requires targets { EachIndex targets.now (λ k. slice_index targets.now k < length self.old.first.items) }
        requires others { (t : ℕ) → ((k : ℕ) → k < length targets.now → slice_index targets.now k ≡ t → ⊥)
            → slice_index self.old.first.items t ≡ 0 }
        ensures clear { IsClear self.new }
        ensures length { length self.new.first.items ≡ length self.old.first.items }
    {
        self.clear_first(targets);
        if !self.later.is_empty() {
            clear_counts(&mut self.counts, targets);
        }
        self.later.clear();
        self.passed.clear();
    }
}

// Counts one word more of a target, one of `total`.
fn count_one(counts: &mut Vec<u32>, total: usize, target: u32) -> Result<(), OutOfMemory> {
    if counts.is_empty() {
        counts.resize(total, 0)?;
    }
    if let Some(count) = counts.get_mut(target as usize) {
        *count = count.saturating_add(1);
    }
    Ok(())
}

// Counts no words of these targets.
fn clear_counts(counts: &mut [u32], targets: &[u32]) {
    for target in targets {
        if let Some(count) = counts.get_mut(*target as usize) {
            *count = 0;
        }
    }
}

/// The least colour that isn't there.
pub fn free_bit(mask: u32) -> Option<u32>
    ensures { MatchOption result ((b : ℕ) → b < 32 → bit_at mask b ≡ 1) (λ c. (c < 32) × (bit_at mask c ≡ 0)
        × ((b : ℕ) → b < c → bit_at mask b ≡ 1)) }
{
    if mask == u32::MAX {
        None
    } else {
        Some(mask.trailing_ones())
    }
}
