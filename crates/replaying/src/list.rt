// A list as it is read: a file's bytes, its lines, and the bytes that a word of digits spells.
ghost use Rattle.std.specs.Prelude.{◌≡◌, ◌≢◌, ◌≤◌, ◌⊎◌, ℕ, List, ◌++◌, ◌↔◌, length, take, drop, codes, Ok, IfOk, IfSome, None, Some, IsTrue, EachIndex, slice_index};
ghost use Rattle.std.specs.Char.{IsNotAsciiUppercase};
ghost use Rattle.hex.specs.Hex.{decode_of};
ghost use Rattle.memchr.specs.Find.{IsFirstByte, is_byte};

use memchr::memchr;
use std::io;
use std::io::Read;

// The most bytes of a list.
pub const LIST: usize = 262144;

// The most bytes of a question.
pub const BYTES: usize = 4096;

// Room for a list.
pub fn list_buffer() -> [u8; LIST]
    ensures { 262144 ≡ length result }
{
    [0; LIST]
}

// Fills a buffer from a file's start, as far as the file goes, and says how many bytes were read. The count goes on by what a read gives, so
// no `for` counts it.
pub fn read_full<R: Read>(file: &mut R, buf: &mut [u8]) -> io::Result<usize>
    ensures { IfOk result (λ n. n ≤ length buf.new) }
{
    let mut n = 0;
    while n < buf.len() {
        let more = file.read(&mut buf[n..])?;
        if more == 0 {
            return Ok(n);
        }
        n += more;
    }
    Ok(n)
}

// A line without its end.
pub fn text_of(line: &[u8]) -> &[u8]
    ensures ended { (s : List ℕ) → line.now ≡ s ++ codes "\n" → result.now ≡ s }
    ensures last { ((s : List ℕ) → line.now ≢ s ++ codes "\n") → result.now ≡ line.now }
{
    match line.strip_suffix(b"\n") {
        Some(text) => text,
        None => line,
    }
}

// The first word of a line, which says what it asks.
pub fn first_word(line: &[u8]) -> &[u8]
    ensures front { result.now ≡ take (length result.now) line.now }
    ensures end { IsFirstByte (is_byte 32) line.now (Some (length result.now)) ⊎ (IsFirstByte (is_byte 32) line.now None × (result.now ≡ line.now)) }
{
    match memchr(b' ', line) {
        Some(at) => &line[..at],
        None => line,
    }
}

// The words of a line's question, and the text of its answer, which the first space with an equals sign behind it parts.
pub fn halves(line: &[u8]) -> Option<(&[u8], &[u8])>
    ensures parted { IfSome result (λ h. line.now ≡ h.0.now ++ codes " =" ++ h.1.now) }
    ensures first { IfSome result (λ h. (words text : List ℕ) → line.now ≡ words ++ codes " =" ++ text → length h.0.now ≤ length words) }
    ensures none { result ≡ None → (words text : List ℕ) → line.now ≢ words ++ codes " =" ++ text }
{
    let at = line.windows(2).position(|pair| pair == b" =".as_slice())?;
    let (words, rest) = line.split_at_checked(at)?;
    Some((words, rest.strip_prefix(b" =")?))
}

// Whether no digit is a capital letter. `decode` reads those too, but a list has none.
pub fn is_lower(digits: &[u8]) -> bool
    ensures { IsTrue result ↔ EachIndex digits.now (λ k. IsNotAsciiUppercase (slice_index digits.now k)) }
{
    digits.iter().all(|digit| !digit.is_ascii_uppercase())
}

// Puts the bytes that pairs of hexadecimal digits spell at the start of a buffer, and says how many there are: none where the digits are
// no such pairs, or spell more than the buffer has room for.
pub fn decode(digits: &[u8], buf: &mut [u8]) -> Option<usize>
    ensures spelled { IfSome result (λ n. decode_of digits.now ≡ Ok (take n buf.new)) }
    ensures behind { IfSome result (λ n. drop n buf.new ≡ drop n buf.old) }
    ensures found { (bytes : List ℕ) → decode_of digits.now ≡ Ok bytes → length bytes ≤ length buf.old → result ≡ Some (length bytes) }
{
    let n = digits.len() / 2;
    if buf.len() < n {
        return None;
    }
    hex::decode_to_slice(digits, &mut buf[..n]).ok()?;
    Some(n)
}
