// Bytes as digits in a page that the caller lends.
ghost use Rattle.std.specs.Prelude.{◌≡◌, ℕ, take, drop, is_ok, if◌then◌else◌, Ok};
ghost use Rattle.lines.specs.Digits.{digits, line_bytes};
ghost use Rattle.lines.specs.Pages.{written, placing};

use crate::digits::encode;
use crate::refusal::WriteRefusal;

// Writes bytes as digits into the page from the position `at` on, and answers how many digits these are. Page and
// position are two values of the caller's: a struct of both would be made for each call, and taken apart in it.
pub fn write_bytes(bytes: &[u8], page: &mut [u8], at: usize) -> Result<usize, WriteRefusal>
    ensures value { result ≡ placing page.old at (digits bytes.now) }
    ensures after { page.new ≡ (if is_ok result then written page.old at (digits bytes.now) else page.old) }
    ensures back { (n : ℕ) → result ≡ Ok n → line_bytes (take n (drop at page.new)) ≡ bytes.now }
{
    if at > page.len() || (page.len() - at) / 2 < bytes.len() {
        return Err(WriteRefusal::PageTooShort);
    }
    encode(bytes, &mut page[at..]);
    Ok(2 * bytes.len())
}
