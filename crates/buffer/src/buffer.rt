ghost use Rattle.std.specs.Prelude.{◌≡◌, ◌+◌, ◌<◌, ◌≤◌, length, IfOk};
ghost use Rattle.points.specs.Text.{utf16_of, text_of};
ghost use Rattle.machine.specs.Machine.{opened, counted};
ghost use Rattle.watch.specs.Seats.{HasHeard};
ghost use Rattle.buffer.specs.Seen.{Hears, state_of};
ghost use Rattle.buffer.specs.Sound.{IsSound};

use crate::layered_text::LayeredText;
use edit_history::Steps;
use followers::Followers;
use line_text::{LineText, TextRefusal};
use machine::{CallRefusal, Reply, Text};
use markers::MarkerIndex;
use points::{LAST, MAX_UNITS, NoMemory};
use std::alloc::Global;
use watch::{Watcher, Watchers};

/// A text with its marks, its steps back and its watchers. A call has the next number, also where it is refused.
#[derive(Drop)]
pub struct Buffer<W> {
    pub text: LayeredText,
    pub followers: Followers<W>,
    /// How many calls were numbered.
    pub count: u64,
    /// The number of the last call that changed the text, or 0.
    pub version: u64,
}

impl<W: Watcher> Buffer<W> {
    /// A buffer with this text, before any call.
    pub fn open(alloc: Global, text: &str) -> Result<Self, NoMemory>
        requires { length (utf16_of text.now) ≤ MAX_UNITS }
        ensures state { IfOk result (λ b. state_of b ≡ opened (utf16_of text.now)) }
        ensures sound { IfOk result (λ b. IsSound (state_of b)) }
        ensures told { IfOk result (λ b. b.followers.watchers.told ≡ 0) }
        ensures stands { IfOk result (λ b. Hears (HasHeard W.count_of W.list_of) b) }
    {
        let text = match LineText::from_str(alloc, text) {
            Ok(text) => text,
            Err(TextRefusal::TooLong) => unreachable!(),
            Err(TextRefusal::NoMemory) => return Err(NoMemory),
        };
        let text = LayeredText::of(alloc, text)?;
        let followers = Followers {
            marks: MarkerIndex::new(alloc),
            steps: Steps::new(alloc)?,
            watchers: Watchers::new(),
        };
        Ok(Buffer {
            text,
            followers,
            count: 0,
            version: 0,
        })
    }

    /// Puts the layers of the text together, so that looks and edits go through fewer. Nothing that a call tells changes.
    pub fn squash(&mut self) -> Result<(), NoMemory>
        ensures { self.new ≡ self.old }
    {
        self.text.squash()
    }

    /// The whole text.
    pub fn to_text(&self) -> Result<Text, NoMemory>
        ensures { IfOk result (λ t. t ≡ text_of self.now.text) }
    {
        Ok(Text::new(self.text.to_text()?))
    }

    // Gives a call its number, which changes nothing else.
    pub(crate) fn numbered(&mut self) -> u64
        requires { self.old.count < LAST }
        ensures number { result ≡ self.old.count + 1 }
        ensures new { self.new ≡ record self.old { count = self.old.count + 1 } }
    {
        self.count += 1;
        self.count
    }

    // A call was refused.
    pub(crate) fn refused(&mut self, no: CallRefusal) -> Reply
        requires { self.old.count < LAST }
        ensures reply { result ≡ Reply.Refused (self.old.count + 1) no }
        ensures new { self.new ≡ record self.old { count = self.old.count + 1 } }
    {
        Reply::Refused {
            at: self.numbered(),
            no,
        }
    }

    // A call was done that tells no more than its number.
    pub(crate) fn done(&mut self) -> Reply
        requires { self.old.count < LAST }
        ensures reply { result ≡ Reply.Numbered (self.old.count + 1) }
        ensures new { self.new ≡ record self.old { count = self.old.count + 1 } }
    {
        Reply::Numbered {
            at: self.numbered(),
        }
    }
}
