//! A selection whose line has the plain form, read straight from the line's bytes. Most lines of a script are these: no word is cut twice,
//! and the bytes needn't be checked to be text first.
ghost use Rattle.std.specs.Prelude.{◌≡◌, ◌≤◌, Some, length, take, IfSome};
ghost use Rattle.std.specs.Str.{IsAscii};
ghost use Rattle.lb_script.specs.LineSteps.{selection_seen};
ghost use Rattle.lb_script.specs.StepLines.{small, select_of, step_of};
ghost use Rattle.lb_script.specs.Words.{BeginsWith, IsPlainWord, words_of};

// A number below this one may be followed by another digit, and the number that they spell has 64 bits.
const SHORT_NUMBER: u64 = 1_000_000_000_000_000_000;

/// A selection that a line asks for, with no random words. Its key is borrowed from the line, so that it takes no memory.
#[derive(Clone, Copy)]
pub struct SelectionLine<'a> {
    pub group: u64,
    pub slot: usize,
    pub key: &'a [u8],
    pub limit: usize,
}

/// Returns the selection that the line asks for, if the line has the plain form, else `None`.
///
/// The plain form is four words of ASCII after `select`, each after one space, and no number of more than 19 digits. A line without it may
/// still ask for a selection, or for another step.
pub fn plain_selection(line: &[u8]) -> Option<SelectionLine<'_>>
    ensures { IfSome result (λ selection. step_of line.now ≡ Some (selection_seen selection)) }
{
    match line {
        [b's', b'e', b'l', b'e', b'c', b't', b' ', rest @ ..] => selection_of(rest),
        _ => None,
    }
}

// The selection that the four words ask for.
fn selection_of(words: &[u8]) -> Option<SelectionLine<'_>>
    ensures { IfSome result (λ selection. IsAscii words.now × (select_of (words_of words.now) ≡ Some (selection_seen selection))) }
{
    let (group, rest) = number_before_space(words)?;
    let (slot, rest) = number_before_space(rest)?;
    let (key, rest) = word_before_space(rest)?;
    let limit = whole_number(rest)?;
    Some(SelectionLine {
        group,
        slot: slot as usize,
        key,
        limit: limit as usize,
    })
}

// The number in front of the first space, and what follows the space. Most numbers have one digit.
#[inline]
fn number_before_space(bytes: &[u8]) -> Option<(u64, &[u8])>
    ensures { IfSome result (λ p. BeginsWith bytes.now p.1.now (λ word. small word ≡ Some p.0)) }
{
    match bytes {
        [digit, b' ', rest @ ..] if digit.is_ascii_digit() => Some((
            u64::from(*digit - b'0'),
            rest,
        )),
        _ => longer_before_space(bytes),
    }
}

// The same for any number.
fn longer_before_space(bytes: &[u8]) -> Option<(u64, &[u8])>
    ensures { IfSome result (λ p. BeginsWith bytes.now p.1.now (λ word. small word ≡ Some p.0)) }
{
    let (n, count) = leading_number(bytes)?;
    if count < bytes.len() && bytes[count] == b' ' {
        Some((n, &bytes[count + 1..]))
    } else {
        None
    }
}

// The word in front of the first space, which has a byte and ASCII alone, and what follows the space.
#[inline]
fn word_before_space(bytes: &[u8]) -> Option<(&[u8], &[u8])>
    ensures { IfSome result (λ p. BeginsWith bytes.now p.1.now (λ word. IsPlainWord word × (word ≡ p.0.now))) }
{
    let mut count = 0;
    while count < bytes.len() && bytes[count] != b' ' {
        if !bytes[count].is_ascii() {
            return None;
        }
        count += 1;
    }
    if count > 0 && count < bytes.len() {
        Some((&bytes[..count], &bytes[count + 1..]))
    } else {
        None
    }
}

// The number that all of the bytes spell.
#[inline]
fn whole_number(bytes: &[u8]) -> Option<u64>
    ensures { IfSome result (λ n. small bytes.now ≡ Some n) }
{
    match bytes {
        [digit] if digit.is_ascii_digit() => Some(u64::from(*digit - b'0')),
        _ => longer_number(bytes),
    }
}

// The same for any number.
fn longer_number(bytes: &[u8]) -> Option<u64>
    ensures { IfSome result (λ n. small bytes.now ≡ Some n) }
{
    let (n, count) = leading_number(bytes)?;
    if count < bytes.len() { None } else { Some(n) }
}

// The number that the digits in front spell, and how many they are.
#[inline]
fn leading_number(bytes: &[u8]) -> Option<(u64, usize)>
    ensures { IfSome result (λ p. (p.1 ≤ length bytes.now) × (small (take p.1 bytes.now) ≡ Some p.0)) }
{
    let mut n = 0;
    let mut count = 0;
    while count < bytes.len() && bytes[count].is_ascii_digit() {
        if n >= SHORT_NUMBER {
            return None;
        }
        n = n * 10 + u64::from(bytes[count] - b'0');
        count += 1;
    }
    if count == 1 || count > 1 && bytes[0] != b'0' {
        Some((n, count))
    } else {
        None
    }
}
