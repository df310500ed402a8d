// Messages between the ranks of the machine.

ghost use Rattle.std.specs.Prelude.{◌≡◌, ◌<◌, ◌≤◌, length};
ghost use Rattle.rank_state.specs.Spans.{Within, total};
ghost use Rattle.rank_state.specs.Mail.{Carries};
ghost use Rattle.rank_state.specs.Machine.{row, posted, taken};

use crate::machine::Machine;
use rank_state::Span;

impl Machine {
    /// Stores the sender's cells as a message.
    pub fn send(&mut self, item: u32, from: u32, to: u32, spans: &[Span])
        requires rank { from < length self.old.memories }
        requires inside { Within (length (row self.old.memories from)) spans.now }
        requires some { 0 < total spans.now }
        requires room { total spans.now ≤ self.old.mail.left }
        ensures { self.new ≡ posted item from to spans.now self.old }
    {
        self.mail
            .send(item, from, to, &self.memories[from as usize], spans);
    }

    /// Takes the oldest message of the pair into the receiver's copies.
    pub fn recv(&mut self, item: u32, rank: u32, from: u32, spans: &[Span])
        requires rank { rank < length self.old.memories }
        requires inside { Within (length (row self.old.memories rank)) spans.now }
        requires oldest { Carries item from rank (total spans.now) self.old.mail }
        ensures { self.new ≡ taken rank from spans.now self.old }
    {
        self.mail
            .recv(item, from, rank, &mut self.memories[rank as usize], spans);
    }
}
