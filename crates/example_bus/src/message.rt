//! What goes over the bus: two numbers in one word.

ghost use Rattle.std.specs.Prelude.{◌^◌, ◌<◌};
ghost use Rattle.example_bus.specs.Messages.{word_of, message_of, read_back, told_apart};

use shared_flow::Word;

/// One message of a sender.
#[derive(Clone, Copy, Debug, PartialEq, Eq)]
pub struct Message {
    pub sender: u32,
    pub number: u32,
}

impl Word for Message {
    ghost word = { word_of };

    ghost read_as = { message_of };

    ghost fits = { λ message. (message.sender < 2 ^ 32) × (message.number < 2 ^ 32) };

    fn to_word(self) -> u64 {
        u64::from(self.sender) * 0x1_0000_0000 + u64::from(self.number)
    }

    fn from_word(stored: u64) -> Message {
        Message {
            sender: (stored / 0x1_0000_0000) as u32,
            number: (stored % 0x1_0000_0000) as u32,
        }
    }

    ghost undoes = { λ message small. read_back message small.1 };

    ghost tells_apart = { λ x y small tiny. told_apart x y small.1 tiny.1 };
}
