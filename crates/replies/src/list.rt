// Lists of numbers in a reply.
ghost use Rattle.std.specs.Prelude.{◌≡◌, ℕ, ◌*◌, ◌<◌, ◌≤◌, List, ◌++◌, length, take, drop, is_ok, if◌then◌else◌, Ok, Err, nat_lt};
ghost use Rattle.std.specs.List.{flat_map, All};
ghost use Rattle.lines.specs.declared.refusal.WriteRefusal.TheVariants.{ListTooLong};
ghost use Rattle.lines.specs.Digits.{digits, line_bytes};
ghost use Rattle.lines.specs.Pages.{written, placing};
ghost use Rattle.replies.specs.Answers.{pair, four, listed};
ghost use Rattle.replies.specs.Questions.{front_two, front_four};
ghost use Rattle.std.proofs.Common.{rules};

use lines::page::write_bytes;
use lines::refusal::WriteRefusal;

// A number that a reply lists, in a fixed number of bytes.
pub(crate) trait Listed<const SIZE: usize> {
    // Its bytes, the high one first.
    ghost bytes: { Self → List ℕ };

    // The number that bytes begin with.
    ghost front: { List ℕ → Self };

    fn to_bytes(&self) -> [u8; SIZE]
        ensures value { result ≡ bytes self.now }
        ensures back { (rest : List ℕ) → front (bytes self.now ++ rest) ≡ self.now };

    ghost sized: { (x : Self) → length (bytes x) ≡ SIZE };

    ghost short: { SIZE ≤ 4 };

    ghost small: { (x : Self) → All (λ b. b < 256) (bytes x) };
}

// A stop, in two bytes.
impl Listed<2> for u16 {
    ghost bytes = { pair };

    ghost front = { front_two };

    ghost sized = { Prim.search rules };

    ghost short = { Prim.search rules };

    ghost small = { Prim.search rules };

    fn to_bytes(&self) -> [u8; 2] {
        self.to_be_bytes()
    }
}

// An arrival, in four bytes.
impl Listed<4> for u32 {
    ghost bytes = { four };

    ghost front = { front_four };

    ghost sized = { Prim.search rules };

    ghost short = { Prim.search rules };

    ghost small = { Prim.search rules };

    fn to_bytes(&self) -> [u8; 4] {
        self.to_be_bytes()
    }
}

// Writes numbers as digits to the front of `part`, leaves the rest of it, and answers how many digits these are. By a
// loop that adds them up: each step writes, and may find no room.
fn write_numbers<N: Listed<SIZE>, const SIZE: usize>(
    numbers: &[N],
    part: &mut [u8],
) -> Result<usize, WriteRefusal>
    requires room { 2 * length (flat_map N.Listed.bytes numbers.now) ≤ length part.old }
    ensures value { result ≡ Ok (2 * length (flat_map N.Listed.bytes numbers.now)) }
    ensures after { part.new ≡ digits (flat_map N.Listed.bytes numbers.now) ++ drop (2 * length (flat_map N.Listed.bytes numbers.now)) part.old }
    ensures each { All (λ x. (rest : List ℕ) → N.Listed.front (N.Listed.bytes x ++ rest) ≡ x) numbers.now }
{
    let mut at = 0;
    for number in numbers {
        at += write_bytes(&number.to_bytes(), part, at)?;
    }
    Ok(at)
}

// Writes a first byte, the count of the numbers and the numbers into the page from the position `at` on. The byte stays
// a number: `Reply` is the enum, and its arms are the table of the format.
pub(crate) fn write_list<N: Listed<SIZE>, const SIZE: usize>(
    code: u8,
    numbers: &[N],
    page: &mut [u8],
    at: usize,
) -> Result<usize, WriteRefusal>
    ensures value { result ≡ (if nat_lt 65535 (length numbers.now) then Err ListTooLong else placing page.old at (digits (listed code N.Listed.bytes numbers.now))) }
    ensures after { page.new ≡ (if is_ok result then written page.old at (digits (listed code N.Listed.bytes numbers.now)) else page.old) }
    ensures back { (n : ℕ) → result ≡ Ok n → line_bytes (take n (drop at page.new)) ≡ listed code N.Listed.bytes numbers.now }
    ensures each { (n : ℕ) → result ≡ Ok n → All (λ x. (rest : List ℕ) → N.Listed.front (N.Listed.bytes x ++ rest) ≡ x) numbers.now }
{
    let Ok(count) = u16::try_from(numbers.len()) else {
        return Err(WriteRefusal::ListTooLong);
    };
    let size = 6 + 2 * SIZE * numbers.len();
    if at > page.len() || page.len() - at < size {
        return Err(WriteRefusal::PageTooShort);
    }
    let [c1, c0] = count.to_be_bytes();
    write_bytes(&[code, c1, c0], page, at)?;
    write_numbers(numbers, &mut page[at + 6..])?;
    Ok(size)
}
