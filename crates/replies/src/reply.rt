// The replies to a line.
ghost use Rattle.std.specs.Prelude.{◌≡◌, ℕ, take, drop, is_ok, if◌then◌else◌, Ok};
ghost use Rattle.lines.specs.Digits.{line_bytes};
ghost use Rattle.lines.specs.Pages.{written};
ghost use Rattle.replies.specs.Answers.{line_of, writing};
ghost use Rattle.replies.specs.Questions.{Question, Suits, understood};
ghost use Rattle.replies.specs.Replies.{answer_of};

use crate::list::write_list;
use lines::page::write_bytes;
use lines::refusal::WriteRefusal;

// A reply, with what it tells.
#[derive(Clone, Copy, PartialEq, Eq, Debug)]
pub enum Reply<'a> {
    // A carrier, a stop, a precedence or a striking is accepted, with the number that the call answers.
    Accepted { number: u16 },
    // A judging passes, with the arrivals by stop number.
    Passed { arrivals: &'a [u32] },
    // A judging finds a ring, with its stops.
    Ring { stops: &'a [u16] },
    // Any other refusal, with its number and two fields for what it tells.
    Refused { number: u8, first: u16, second: u16 },
}

impl Reply<'_> {
    // Writes the line of the reply into the page from the position `at` on, and answers how many bytes these are.
    #[tactic(auto, unfolding(crate::specs::Answers::line_of))]
    pub fn write(&self, page: &mut [u8], at: usize) -> Result<usize, WriteRefusal>
        ensures value { result ≡ writing page.old at (answer_of self.now) }
        ensures after { page.new ≡ (if is_ok result then written page.old at (line_of (answer_of self.now)) else page.old) }
        ensures back { (n : ℕ) (q : Question) → Suits q (answer_of self.now) → result ≡ Ok n → understood q (line_bytes (take n (drop at page.new))) ≡ answer_of self.now }
    {
        match *self {
            Reply::Accepted { number } => {
                let [n1, n0] = number.to_be_bytes();
                write_bytes(&[0x00, n1, n0], page, at)
            }
            Reply::Passed { arrivals } => write_list(0x00, arrivals, page, at),
            Reply::Ring { stops } => write_list(0x11, stops, page, at),
            Reply::Refused {
                number,
                first,
                second,
            } => {
                let [f1, f0] = first.to_be_bytes();
                let [s1, s0] = second.to_be_bytes();
                write_bytes(&[number, f1, f0, s1, s0], page, at)
            }
        }
    }
}
