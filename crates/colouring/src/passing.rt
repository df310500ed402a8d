// The least colour that none of a row's targets has. Words that one target or two of them fill are passed over in one
// step where a row passed over them before.
ghost use Rattle.std.specs.Prelude.{◌≡◌, ◌<◌, ◌≤◌, ◌+◌, ◌*◌, ℕ, true, IfOk, OnOk, length, slice_index, EachIndex};
ghost use Rattle.colouring.specs.Masks.{Has, Fill, AreFilled, IsSound, Cover, IsKept};

use crate::masks::{Masks, free_bit};
use op_num::OutOfMemory;

impl Masks {
    // The end of words from `number` on that one of two targets, or the two together, are known to fill.
    fn known(&self, a: u32, b: u32, number: u32) -> u32
        requires sound { IsSound self.now }
        ensures from { number ≤ result }
        ensures filled { AreFilled self.now a b number result }
    {
        self.passed
            .get(&(a, b, number))
            .copied()
            .unwrap_or(number)
            .max(number)
    }

    // Keeps in mind that two targets fill the words from `number` up to `end`, unless more is kept than there are
    // words.
    fn keep(&mut self, a: u32, b: u32, number: u32, end: u32) -> Result<(), OutOfMemory>
        requires sound { IsSound self.old }
        requires filled { AreFilled self.old a b number end }
        ensures sound { OnOk result (IsSound self.new) }
        ensures kept { IsKept self.old self.new }
    {
        if self.passed.len() <= self.later.len() {
            self.passed.insert((a, b, number), end)?;
        }
        Ok(())
    }

    // The end of the words from `number` on that a target fills, as far as `last`.
    fn pass_one(&mut self, target: u32, number: u32, last: u32) -> Result<u32, OutOfMemory>
        requires target { target < length self.old.first.items }
        requires sound { IsSound self.old }
        ensures from { IfOk result (λ n. number ≤ n) }
        ensures filled { IfOk result (λ n. AreFilled self.old target target number n) }
        ensures sound { OnOk result (IsSound self.new) }
        ensures kept { OnOk result (IsKept self.old self.new) }
    {
        let start = self.known(target, target, number);
        let mut end = start;
        while end < last && self.word(target, end) == u32::MAX {
            end = self.known(target, target, end).max(end + 1);
        }
        if end > start && end > number + 1 {
            self.keep(target, target, number, end)?;
        }
        Ok(end)
    }

    // The end of words from `number` on that one of two targets fills, or of one word that the two fill together; else
    // `number`. It looks at no word from `last` on.
    fn pass_some(&mut self, a: u32, b: u32, number: u32, last: u32) -> Result<u32, OutOfMemory>
        requires a { a < length self.old.first.items }
        requires b { b < length self.old.first.items }
        requires sound { IsSound self.old }
        ensures from { IfOk result (λ n. number ≤ n) }
        ensures filled { IfOk result (λ n. AreFilled self.old a b number n) }
        ensures sound { OnOk result (IsSound self.new) }
        ensures kept { OnOk result (IsKept self.old self.new) }
    {
        let end = self.pass_one(a, number, last)?;
        if end > number {
            return Ok(end);
        }
        let end = self.pass_one(b, number, last)?;
        if end == number && number < last && self.fill(a, b, number) {
            return Ok(number + 1);
        }
        Ok(end)
    }

    // Whether two targets together fill a word.
    fn fill(&self, a: u32, b: u32, number: u32) -> bool
        requires a { a < length self.now.first.items }
        requires b { b < length self.now.first.items }
        ensures { result ≡ true → Fill self.now a b number }
    {
        self.word(a, number) | self.word(b, number) == u32::MAX
    }

    // The end of the words from `number` on that two targets fill together, as far as `last`.
    fn pass_two(&mut self, a: u32, b: u32, number: u32, last: u32) -> Result<u32, OutOfMemory>
        requires a { a < length self.old.first.items }
        requires b { b < length self.old.first.items }
        requires sound { IsSound self.old }
        ensures from { IfOk result (λ n. number ≤ n) }
        ensures filled { IfOk result (λ n. AreFilled self.old a b number n) }
        ensures sound { OnOk result (IsSound self.new) }
        ensures kept { OnOk result (IsKept self.old self.new) }
    {
        let mut end = self.known(a, b, number);
        let mut next = self.pass_some(a, b, end, last)?;
        let mut steps: u32 = 0;
        while next > end {
            end = next;
            next = self.pass_some(a, b, end, last)?;
            steps += 1;
        }
        // A few steps are taken again as fast as found.
        if steps > 4 {
            self.keep(a, b, number, next)?;
        }
        Ok(next)
    }

    // How many later words a target has.
    fn count(&self, target: u32) -> u32 {
        self.counts.get(target as usize).copied().unwrap_or(0)
    }

    // Two of these targets that have the most later words, or one of them twice.
    fn largest(&self, targets: &[u32], start: usize, end: usize) -> (u32, u32)
        requires start { start < end }
        requires end { end ≤ length targets.now }
        ensures first { (k : ℕ) × (start ≤ k) × (k < end) × (slice_index targets.now k ≡ result.0) }
        ensures second { (k : ℕ) × (start ≤ k) × (k < end) × (slice_index targets.now k ≡ result.1) }
    {
        let mut a = targets[start];
        let mut b = a;
        for k in start..end {
            let target = targets[k];
            if self.count(target) > self.count(a) {
                b = a;
                a = target;
            } else if target != a && (b == a || self.count(target) > self.count(b)) {
                b = target;
            }
        }
        (a, b)
    }

    // The word after `number`, which these targets fill together, or a later one up to which they fill all.
    fn next_word(
        &mut self,
        targets: &[u32],
        start: usize,
        end: usize,
        number: u32,
        last: u32,
    ) -> Result<u32, OutOfMemory>
        requires start { start < end }
        requires end { end ≤ length targets.now }
        requires number { number < last }
        requires targets { EachIndex targets.now (λ k. slice_index targets.now k < length self.old.first.items) }
        requires sound { IsSound self.old }
        ensures after { IfOk result (λ n. number < n) }
        ensures covered { IfOk result (λ n. (v b : ℕ) → number < v → v < n → b < 32
            → (k : ℕ) × (start ≤ k) × (k < end) × Has self.old (slice_index targets.now k) v b) }
        ensures sound { OnOk result (IsSound self.new) }
        ensures kept { OnOk result (IsKept self.old self.new) }
    {
        let (a, b) = self.largest(targets, start, end);
        let next = self.pass_two(a, b, number, last)?;
        Ok(next.max(number + 1))
    }

    /// The least colour that none of these targets has, of which they have no more than the `most` least.
    pub fn free_colour(
        &mut self,
        targets: &[u32],
        start: usize,
        end: usize,
        most: u32,
    ) -> Result<u32, OutOfMemory>
        requires start { start ≤ end }
        requires end { end ≤ length targets.now }
        requires targets { EachIndex targets.now (λ k. slice_index targets.now k < length self.old.first.items) }
        requires most { (n : ℕ) → Cover self.old targets.now start end n → n ≤ most }
        requires sound { IsSound self.old }
        ensures below { IfOk result (λ c. Cover self.old targets.now start end c) }
        ensures free { IfOk result (λ c. (k v b : ℕ) → start ≤ k → k < end → b < 32 → 32 * v + b ≡ c
            → Has self.old (slice_index targets.now k) v b → ⊥) }
        ensures sound { OnOk result (IsSound self.new) }
        ensures kept { OnOk result (IsKept self.old self.new) }
    {
        let mut number = 0;
        loop {
            match free_bit(self.joined(targets, start, end, number)) {
                Some(bit) => return Ok(32 * number + bit),
                None => {
                    number = self.next_word(targets, start, end, number, most / 32 + 1)?;
                }
            }
        }
    }
}
