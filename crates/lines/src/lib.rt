// The program's input: the end of a line or word, a word as a number, a line as a call.
#![tactic(auto)]

ghost use Rattle.std.specs.Prelude.{◌≡◌};
ghost use Rattle.std.specs.Option.{option_copied};
ghost use Rattle.lines.specs.Lines.{has_good_lead, number_of, letter_of_word, front_of, command_of, line_read};
ghost use Rattle.lines.specs.Pieces.{Placed};

// A line of the program: `I n`, `U i`, `M i j`, `C i j`, `D`. A number is 0 to 255.
#[derive(Clone, Copy, Debug, PartialEq, Eq, Hash)]
pub enum Command {
    Fresh(usize),
    Update(usize),
    Meet(usize, usize),
    Compare(usize, usize),
    Superfluous,
}

// How many bytes stand in front of the first `sep`; all of them where there is none. It cannot fail: `place_of_fixed` of demands reads
// its promise.
pub fn place_of(s: &[u8], sep: u8) -> usize
    ensures { Placed sep s.now result }
{
    s.iter().position(|&c| c == sep).unwrap_or(s.len())
}

// Something stands there, and more than one digit do not begin with 0.
#[tactic(auto, using(crate::proofs::Reading::lead_is))]
fn is_led(w: &[u8]) -> bool
    ensures { result ≡ has_good_lead w.now }
{
    match w {
        [] => false,
        [_] => true,
        [c, ..] => *c != b'0',
    }
}

// A word as a number; it is left at the first byte that is no digit or makes it more than 255.
#[tactic(auto, using(crate::proofs::Reading::number_read, crate::proofs::Reading::read_more, crate::proofs::Reading::read_end))]
fn read_number(w: &[u8]) -> Option<usize>
    ensures { result ≡ number_of w.now }
{
    if !is_led(w) {
        return None;
    }
    let mut v = 0;
    for c in w {
        if !c.is_ascii_digit() {
            return None;
        }
        v = v * 10 + usize::from(c - b'0');
        if 255 < v {
            return None;
        }
    }
    Some(v)
}

// The letter that a word is, where it is one byte.
#[tactic(auto, using(crate::proofs::Reading::letter_is))]
fn letter_in(w: &[u8]) -> Option<u8>
    ensures { result ≡ letter_of_word w.now }
{
    match w {
        [c] => Some(*c),
        _ => None,
    }
}

// The call of a letter and the words behind it, of which the third is too many.
#[tactic(auto, unfolding(crate::specs::Lines::command_of, crate::specs::Lines::alone, crate::specs::Lines::with_one, crate::specs::Lines::with_two))]
fn call_of(letter: u8, x: Option<&[u8]>, y: Option<&[u8]>, third: Option<&[u8]>) -> Option<Command>
    ensures { result ≡ command_of letter (front_of (option_copied x.entry) (option_copied y.entry) (option_copied third.entry)) }
{
    match (letter, x, y, third) {
        (b'D', None, _, _) => Some(Command::Superfluous),
        (b'I', Some(n), None, _) => Some(Command::Fresh(read_number(n)?)),
        (b'U', Some(i), None, _) => Some(Command::Update(read_number(i)?)),
        (b'M', Some(i), Some(j), None) => Some(Command::Meet(read_number(i)?, read_number(j)?)),
        (b'C', Some(i), Some(j), None) => Some(Command::Compare(read_number(i)?, read_number(j)?)),
        _ => None,
    }
}

// The call that a line is.
pub fn read_line(line: &[u8]) -> Option<Command>
    ensures { result ≡ line_read line.now }
{
    let mut words = line.split(|&c| c == b' ');
    let letter = letter_in(words.next()?)?;
    call_of(letter, words.next(), words.next(), words.next())
}
