// How names and albums are ordered: by their letters, and then by their bytes.
ghost use Rattle.std.specs.Prelude.{◌≡◌, chars, length, map};
ghost use Rattle.std.specs.Ordering.{nat_cmp};
ghost use Rattle.std.specs.Cmp.Lexicographic.{slice_cmp};
ghost use Rattle.song_db.specs.Letters.{letter, ascii_letters, base_of, text_cmp};

use std::cmp::Ordering;
use ucd_case::simple_fold;
use ucd_normal::canonical_decomposition;

// What stands for each character of ASCII.
const ASCII: &[u8] = &[
    64, 65, 66, 67, 68, 69, 70, 71, 72, 73, 74, 75, 76, 77, 78, 79, 80, 81, 82, 83, 84, 85, 86, 87,
    88, 89, 90, 91, 92, 93, 94, 95, 1, 7, 11, 23, 33, 24, 22, 10, 12, 13, 19, 27, 4, 3, 9, 20, 34,
    35, 36, 37, 38, 39, 40, 41, 42, 43, 6, 5, 28, 29, 30, 8, 18, 161, 162, 163, 164, 165, 166, 167,
    168, 169, 170, 171, 172, 173, 174, 175, 176, 177, 178, 179, 180, 181, 182, 183, 184, 185, 186,
    14, 21, 15, 26, 2, 25, 161, 162, 163, 164, 165, 166, 167, 168, 169, 170, 171, 172, 173, 174,
    175, 176, 177, 178, 179, 180, 181, 182, 183, 184, 185, 186, 16, 31, 17, 32, 191,
];

fn ascii() -> &'static [u8]
    ensures letters { result.now ≡ ascii_letters }
    ensures count { length result.now ≡ 128 }
{
    ASCII
}

// A letter without its marks, whatever its case.
fn base_of(c: char) -> char
    ensures { result ≡ base_of c }
{
    match canonical_decomposition(c) {
        [first, ..] => simple_fold(*first),
        [] => simple_fold(c),
    }
}

// What stands for a character.
#[tactic(auto, unfolding(crate::specs::Letters::letter))]
fn letter(c: char) -> u32
    ensures { result ≡ letter c }
{
    let code = c as u32;
    if code < 128 {
        return u32::from(ascii()[code as usize]);
    }
    base_of(c) as u32 + 64
}

// Most characters that are compared are the same.
fn compare_characters(left: char, right: char) -> Ordering
    ensures { result ≡ nat_cmp (letter left) (letter right) }
{
    if left == right {
        return Ordering::Equal;
    }
    letter(left).cmp(&letter(right))
}

// By the letters alone.
fn compare_letters(left: &str, right: &str) -> Ordering
    ensures { result ≡ slice_cmp nat_cmp (map letter (chars left.now)) (map letter (chars right.now)) }
{
    let mut left = left.chars();
    let mut right = right.chars();
    while let Some(one) = left.next() {
        let Some(other) = right.next() else {
            return Ordering::Greater;
        };
        let order = compare_characters(one, other);
        if !order.is_eq() {
            return order;
        }
    }
    match right.next() {
        Some(_) => Ordering::Less,
        None => Ordering::Equal,
    }
}

// By the letters, and where these are the same by the bytes.
pub(crate) fn compare_texts(left: &str, right: &str) -> Ordering
    ensures { result ≡ text_cmp left.now right.now }
{
    // Most texts that are compared are the names of folders in common.
    if left == right {
        return Ordering::Equal;
    }
    let order = compare_letters(left, right);
    if order.is_eq() {
        return left.cmp(right);
    }
    order
}
